//! Tests of what designs make of sounds, and of their faults.

use crate::designs::{
    BLOCKS, CHAIN, DELAYED, EARLY, HALF, INITIAL, LATER, LOOP, PAIR, PAIRS, SECOND, SECOND_DOUBLED,
    STUCK, SWAP, THREE_FOR_TWO, TURNED, TURNED_ORDER, TWICE, UNEVEN,
};
use crate::running::{Samples, end_of, file_of, make_file, row_makes, sound};
use sdf_faults::Fault;
use sdf_options::{Options, Placement, Runner};
use sdf_wav::{FromRead, Wav, read_wav};
use std::alloc::Global;
use std::test::Fail;
use std::thread::Threads;
use test_texts::{row_says, says};

/// The wanted result of a run.
#[derive(Clone, Copy)]
enum Wanted {
    /// A file: its rate, its number of channels and its samples.
    Sound(u32, u16, &'static [i16]),
    /// A file of these bytes.
    Bytes(&'static [u8]),
    /// An exit status and the line of a fault.
    Ends(&'static str),
}

use Wanted::{Bytes, Ends, Sound};

/// A design, its options, the sound that it reads, and the wanted result.
#[derive(Clone, Copy)]
struct Row {
    name: &'static str,
    graph: &'static str,
    options: Options,
    rate: u32,
    channels: u16,
    samples: &'static [i16],
    wanted: Wanted,
}

/// One sample at 8,000 Hz, on one thread.
const ONE: Row = Row {
    name: "",
    graph: "",
    options: Options::DEFAULT,
    rate: 8000,
    channels: 1,
    samples: &[1],
    wanted: Bytes(&[]),
};

/// A file of the samples 3 and -2 at 44,100 Hz.
const HALVES: &[u8; 48] =
    b"RIFF\x28\0\0\0WAVEfmt \x10\0\0\0\x01\0\x01\0\x44\xAC\0\0\x88\x58\x01\0\x02\0\x10\0data\x04\0\0\0\x03\0\xFE\xFF";

/// A file without samples.
const NOTHING: &[u8; 44] =
    b"RIFF\x24\0\0\0WAVEfmt \x10\0\0\0\x01\0\x01\0\x44\xAC\0\0\x88\x58\x01\0\x02\0\x10\0data\0\0\0\0";

/// Designs that make a sound.
const SOUNDS: &[Row] = &[
    Row {
        name: "halves",
        graph: HALF,
        rate: 44_100,
        samples: &[5, -5],
        wanted: Bytes(HALVES),
        ..ONE
    },
    Row {
        name: "halves of one channel of two",
        graph: HALF,
        rate: 44_100,
        channels: 2,
        samples: &[5, 100, -5, 200],
        wanted: Bytes(HALVES),
        ..ONE
    },
    Row {
        name: "eight channels, for memory that is not asked for",
        graph: TURNED_ORDER,
        channels: 8,
        samples: &[1, 2, 3, 4, 5, 6, 7, 8, 11, 12, 13, 14, 15, 16, 17, 18],
        wanted: Sound(
            8000,
            8,
            &[8, 7, 6, 5, 4, 3, 2, 1, 18, 17, 16, 15, 14, 13, 12, 11],
        ),
        ..ONE
    },
    Row {
        name: "halves of nothing",
        graph: HALF,
        rate: 44_100,
        samples: &[],
        wanted: Bytes(NOTHING),
        ..ONE
    },
    Row {
        name: "the last block is filled up",
        graph: BLOCKS,
        samples: &[1, 2, 3, 4, 5, 6, 7],
        wanted: Sound(8000, 1, &[1, 2, 3, 4, 5, 6, 7, 0, 0, 0, 0, 0]),
        ..ONE
    },
    Row {
        name: "another rate",
        graph: THREE_FOR_TWO,
        rate: 32_000,
        samples: &[10, 20],
        wanted: Sound(48_000, 1, &[10, 10, 20]),
        ..ONE
    },
    Row {
        name: "a loop",
        graph: LOOP,
        samples: &[1, 2, 3],
        wanted: Sound(8000, 1, &[1, 1, 2]),
        ..ONE
    },
    Row {
        name: "samples that stand on a link",
        graph: INITIAL,
        samples: &[1, 2, 3],
        wanted: Sound(8000, 1, &[7, 8, 1]),
        ..ONE
    },
    Row {
        name: "a sum that is too great",
        graph: TWICE,
        samples: &[32_767],
        wanted: Sound(8000, 1, &[32_767]),
        ..ONE
    },
    Row {
        name: "a product that is too great",
        graph: TURNED,
        samples: &[-32_768],
        wanted: Sound(8000, 1, &[32_767]),
        ..ONE
    },
    Row {
        name: "channels swapped",
        graph: SWAP,
        channels: 2,
        samples: &[1, 10, -2, 20, 32_767, -32_768],
        wanted: Sound(8000, 2, &[10, 1, 20, -2, -32_768, 32_767]),
        ..ONE
    },
    Row {
        name: "dealt and gathered one by one",
        graph: SECOND_DOUBLED,
        samples: &[1, 2, 3, 4, 5],
        wanted: Sound(8000, 1, &[1, 4, 3, 8, 5, 0]),
        ..ONE
    },
    Row {
        name: "dealt by twos",
        graph: PAIRS,
        samples: &[1, 2, 3, 4, 5, 6, 7, 8],
        wanted: Sound(8000, 1, &[1, 3, 2, 4, 5, 7, 6, 8]),
        ..ONE
    },
    Row {
        name: "two that wait",
        graph: PAIR,
        samples: &[1, 2, 3],
        wanted: Sound(8000, 1, &[0, 2, 4]),
        ..ONE
    },
];

/// Designs and sounds that end with a fault.
const FAULTS: &[Row] = &[
    Row {
        name: "a rate that is not whole",
        graph: THREE_FOR_TWO,
        rate: 32_001,
        samples: &[10, 20],
        wanted: Ends("4 sdfw: 60 RateNotWhole\n"),
        ..ONE
    },
    Row {
        name: "a rate that is not whole, of one sample",
        graph: THREE_FOR_TWO,
        rate: 32_001,
        wanted: Ends("4 sdfw: 60 RateNotWhole\n"),
        ..ONE
    },
    Row {
        name: "a channel that is not there",
        graph: SECOND,
        wanted: Ends("4 sdfw: 59 ChannelsMissing\n"),
        ..ONE
    },
    Row {
        name: "the same at a rate that is not whole",
        graph: SECOND,
        rate: 32_001,
        wanted: Ends("4 sdfw: 59 ChannelsMissing\n"),
        ..ONE
    },
    Row {
        name: "a deadlock, whose actors have a line each, and their short links",
        graph: STUCK,
        wanted: Ends(
            "3 sdfw: 10 Deadlock\nin 1 of 1\nadd 0 of 1 short link 4\nfork 0 of 1 short link 1\n\
             gain 0 of 1 short link 3\nout 0 of 1 short link 2\n",
        ),
        ..ONE
    },
    Row {
        name: "a delay is no initial sample",
        graph: DELAYED,
        wanted: Ends(
            "3 sdfw: 10 Deadlock\nin 1 of 1\nadd 0 of 1 short link 5\nfork 0 of 1 short link 1\n\
             gain 0 of 1 short link 3\nlate 0 of 1 short link 4\nout 0 of 1 short link 2\n",
        ),
        ..ONE
    },
    Row {
        name: "uneven branches",
        graph: UNEVEN,
        wanted: Ends("3 sdfw: 8 Inconsistent link 3\n"),
        ..ONE
    },
    Row {
        name: "a format that is not there",
        graph: LATER,
        wanted: Ends("3 sdfw: 50 Format top\n"),
        ..ONE
    },
    Row {
        name: "a kind of a later format",
        graph: EARLY,
        wanted: Ends("3 sdfw: 56 UnknownKind actor 1\n"),
        ..ONE
    },
    Row {
        name: "an actor that no worker over rings has alone",
        graph: BLOCKS,
        options: Options {
            runner: Runner::Rings,
            placement: Placement::Hu,
            workers: 2,
            patience: 0,
            ..Options::DEFAULT
        },
        samples: &[1, 2, 3, 4, 5, 6, 7],
        wanted: Ends("3 sdfw: 30 NotHomed\n"),
        ..ONE
    },
];

/// Keys with a line's end or control characters, which must not forge lines or reach the terminal.
const KEYS: &[Row] = &[
    Row {
        name: "a key with a line's end",
        graph: "format = 1\n\"x\\nsdfw: 1 OutOfMemory\" = 1",
        wanted: Ends("3 sdfw: 51 UnknownKey top key x\\u{a}sdfw: 1 OutOfMemory\n"),
        ..ONE
    },
    Row {
        name: "a key with an escape",
        graph: "format = 1\n\"\\u001B[31m\" = 1",
        wanted: Ends("3 sdfw: 51 UnknownKey top key \\u{1b}[31m\n"),
        ..ONE
    },
    Row {
        name: "a key with the first and the last of the upper control characters",
        graph: "format = 1\n\"\\u007F\\u0080\" = 1",
        wanted: Ends("3 sdfw: 51 UnknownKey top key \\u{7f}\\u{80}\n"),
        ..ONE
    },
    Row {
        name: "a key with a letter",
        graph: "format = 1\n\"é\" = 1",
        wanted: Ends("3 sdfw: 51 UnknownKey top key é\n"),
        ..ONE
    },
];

/// Checks that each row has its wanted result.
fn are_made<T: Threads + AllocGlobal + Sync>(rt: &T, rows: &[Row]) -> Result<(), Fail> {
    for row in rows {
        is_made(rt, row)?;
    }
    Ok(())
}

/// Returns the file that a row's design makes of its sound.
fn run_row<T: Threads + AllocGlobal + Sync>(rt: &T, row: &Row) -> Result<Vec<u8>, Fault> {
    let input = file_of(rt.alloc(), row.rate, row.channels, row.samples)?;
    make_file(rt, row.graph, &row.options, &input)
}

fn is_made<T: Threads + AllocGlobal + Sync>(rt: &T, row: &Row) -> Result<(), Fail> {
    match row.wanted {
        Sound(rate, channels, samples) => {
            let wanted = file_of(rt.alloc(), rate, channels, samples)?;
            row_makes(row.name, &row.options, run_row(rt, row), &wanted)
        }
        Bytes(bytes) => row_makes(row.name, &row.options, run_row(rt, row), bytes),
        Ends(end) => row_says(row.name, end_of(rt.alloc(), run_row(rt, row)), end),
    }
}

#[test]
fn what_designs_make(rt: HostRuntime) -> Result<(), Fail> {
    are_made(&rt, SOUNDS)?;
    are_made(&rt, FAULTS)?;
    are_made(&rt, KEYS)
}

/// Returns what `CHAIN` makes of the first `many` samples.
fn converted<T: Threads + AllocGlobal + Sync>(rt: &T, many: usize) -> Result<Wav, Fault> {
    let input = sound(rt.alloc(), 1, Samples::Counted(many))?;
    let output = make_file(rt, CHAIN, &Options::DEFAULT, &input)?;
    Ok(read_wav(rt.alloc(), &mut FromRead::new(output.as_slice()))?)
}

/// Checks whether `part`, which is made of 148 samples, is filled up with zeros. It has the first 160 samples of
/// `whole`, then three times the last sample, 147. Both must have 320 samples.
fn is_filled_up(part: &[i16], whole: &[i16]) -> bool {
    for (i, (cut, kept)) in part.iter().zip(whole).enumerate() {
        let expected = match i {
            0..160 => *kept,
            160..163 => 147,
            _ => 0,
        };
        if *cut != expected {
            return false;
        }
    }
    part.len() == 320 && whole.len() == 320
}

/// Reports the rate, the number and some samples of `whole`, and whether `part` is filled up.
fn sounds_told(alloc: Global, whole: &Wav, part: &Wav) -> Result<String, Fail> {
    let samples = whole.samples();
    let begins = samples.starts_with(&[0, 0, 0, 2, 3, 4, 5, 5, 6, 7]);
    let (middle, next, last) = (samples.get(159), samples.get(160), samples.get(319));
    let filled = is_filled_up(part.samples(), samples);
    format!(in alloc;
        "{} {} {begins} {middle:?} {next:?} {last:?} {filled}",
        whole.rate(),
        samples.len()
    )
    .map_err(Fail::from)
}

/// Runs `CHAIN` on 294 samples and on the first 148, and reports on the outputs.
fn converted_told<T: Threads + AllocGlobal + Sync>(rt: &T) -> Result<String, Fail> {
    let whole = converted(rt, 294)?;
    let part = converted(rt, 148)?;
    sounds_told(rt.alloc(), &whole, &part)
}

#[test]
fn converts_44100_to_48000_and_fills_up(rt: HostRuntime) -> Result<(), Fail> {
    says(
        converted_told(&rt),
        "48000 320 true Some(145) Some(147) Some(292) true",
    )
}
