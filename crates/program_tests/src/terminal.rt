//! Tests of diagnostics at a terminal and by `--why`, over files in memory.

use crate::commands::{
    Around, OPEN, OPEN_AROUND, Row, TERMINAL, expect_rows_around, expect_text, told_around,
};
use crate::shelf::SOUND;
use std::alloc::{AllocError, Global};
use std::test::Fail;
use std::thread::Threads;
use std::time::Clock;

/// Standard error is a terminal, and a sound is on standard input.
const SOUND_AT_TERMINAL: &Around<'static> = &Around {
    stdin: SOUND,
    terminal: true,
    ..OPEN_AROUND
};

/// Diagnostics of designs at a terminal. Refuses a program that prints no more there, ignores `--no-why`, prints more
/// beside JSON, or names a fault for each schedule.
const AT_TERMINAL: &[Row] = &[
    (
        "a design that is not there",
        "check none.toml",
        "5\n--\nsdfw: 47 Read\n  \"none.toml\": entity not found\n  sdfw explain 47 says what to do\n--\n",
    ),
    (
        "a schedule",
        "schedule begun.toml --placement file",
        "3\n--\nsdfw: 19 BadHome actor 0\n  actor 0 is \"in\", an input\n  processor = 1, needs 0..0\n  sdfw explain \
         19 says what to do\n--\n",
    ),
    (
        "an analysis, by its options",
        "analyze far.toml --placement file --workers 2",
        "3\n--\nsdfw: 19 BadHome actor 0\n  actor 0 is \"in\", an input\n  processor = 3, needs 0..1\n  sdfw explain \
         19 says what to do\n--\n",
    ),
    (
        "schedules compared, of which some are refused",
        "analyze begun.toml --compare",
        "0\npolicy …refused 19\n…\n--\n  19 is BadHome: sdfw explain 19 says what to do\n--\n",
    ),
    (
        "the same without more",
        "analyze begun.toml --compare --no-why",
        "0\npolicy …refused 19\n…\n--\n--\n",
    ),
    (
        "the same in JSON",
        "analyze begun.toml --compare --json",
        "0\n[{…\"fault\":19,…}]\n--\n--\n",
    ),
    (
        "schedules compared, refused for another reason",
        "analyze long.toml --compare --blocking 64",
        "0\npolicy …refused 13\n…\n--\n  13 is BlockTooLong: sdfw explain 13 says what to do\n--\n",
    ),
    (
        "a picture, by its options",
        "draw far.toml --placement file --workers 3",
        "3\n--\nsdfw: 19 BadHome actor 0\n  actor 0 is \"in\", an input\n  processor = 3, needs 0..2\n  sdfw explain \
         19 says what to do\n--\n",
    ),
];

/// Diagnostics of sounds and of files at a terminal. Refuses a program that prints no more there, ignores `--no-why`,
/// or prints more beside JSON.
const FILES_AT_TERMINAL: &[Row] = &[
    (
        "a profile of a sound that is not there",
        "profile plain.toml none.wav",
        "5\n--\nsdfw: 47 Read\n  \"none.wav\": entity not found\n  sdfw explain 47 says what to do\n--\n",
    ),
    (
        "a profile of a design",
        "profile plain.toml one.toml",
        "4\n--\nsdfw: 34 NotRiff\n  \"one.toml\": has \"form\" at byte 0, needs \"RIFF\"\n  convert it: ffmpeg -i \
         one.toml -c:a pcm_s16le one.wav\n--\n",
    ),
    (
        "a fault without more",
        "check none.toml --no-why",
        "5\n--\nsdfw: 47 Read\n--\n",
    ),
    (
        "a fault in JSON",
        "check none.toml --json",
        "5\n--\n{\"fault\":47,\"hint\":[\"\\\"none.toml\\\": entity not found\",\"sdfw explain 47 says what to \
         do\"],\"name\":\"Read\",\
         \"path\":\"none.toml\"}\n--\n",
    ),
];

/// Runs and mistakes at a terminal. Refuses a program that prints no more there, or ignores `--no-why`.
const RUNS_AT_TERMINAL: &[Row] = &[
    (
        "a run that ends well",
        "run plain.toml in.wav out.wav",
        "0\n--\noutput 0: 2 frames, peak -76.3 dB, 0 samples at full scale\n--\n<5 -5>",
    ),
    (
        "the same without more",
        "run plain.toml in.wav out.wav --no-why",
        "0\n--\n--\n<5 -5>",
    ),
    (
        "a run in JSON, without other reports",
        "run plain.toml in.wav out.wav --json",
        "0\n{\"outputs\":[{\"frames\":2,\"full_scale\":0,\"peak\":5}]}\n--\n--\n<5 -5>",
    ),
    (
        "a run to standard output",
        "run plain.toml in.wav -",
        "0\n<5 -5>--\noutput 0: 2 frames, peak -76.3 dB, 0 samples at full scale\n--\n",
    ),
    (
        "a run that fails",
        "run plain.toml in.wav else.wav",
        "5\n--\nsdfw: 48 Write\n  \"else.wav\": permission denied\n  sdfw explain 48 says what to do\n--\n",
    ),
    (
        "a design in a folder that can't be made",
        "resample 44100 48000 else",
        "5\n--\nsdfw: 48 Write\n  \"else\": permission denied\n  sdfw explain 48 says what to do\n--\n",
    ),
    (
        "a batch into a folder that can't be made",
        "run plain.toml --into else in.wav",
        "5\n--\nsdfw: 48 Write\n  \"else\": permission denied\n  sdfw explain 48 says what to do\n--\n",
    ),
    (
        "costs into a file that can't be made",
        "profile commented.toml in.wav --write else.toml",
        "5\n--\nsdfw: 48 Write\n  \"else.toml\": permission denied\n  sdfw explain 48 says what to do\n--\n",
    ),
    (
        "a fault of which no more is known",
        "run blocks.toml in.wav out.wav --runner rings --workers 2 --placement hu",
        "3\n--\nsdfw: 30 NotHomed\n  sdfw explain 30 says what to do\n--\n",
    ),
    (
        "a check that ends well",
        "check plain.toml",
        "0\nactors 2\nlinks 1\nperiod 2\nq in 1\nq out 1\ninput 1 output 1\n--\n--\n",
    ),
    (
        "a mistake that is found while running",
        "run plain.toml in.wav in.wav",
        "2\n--\nerror: OUT is the same file as IN\n--\n",
    ),
    (
        "a mistake in the words",
        "explain",
        "2\n--\nerror: …Usage: …",
    ),
];

/// A run of standard input at a terminal.
const RUN_OF_INPUT_AT_TERMINAL: &[Row] = &[(
    "a sound on standard input",
    "run plain.toml - out.wav",
    "0\n--\noutput 0: 2 frames, peak -76.3 dB, 0 samples at full scale\n--\n<5 -5>",
)];

#[test]
fn what_is_told_at_a_terminal(rt: HostRuntime) -> Result<(), Fail> {
    expect_rows_around(&rt, TERMINAL, AT_TERMINAL)?;
    expect_rows_around(&rt, TERMINAL, FILES_AT_TERMINAL)?;
    expect_rows_around(&rt, TERMINAL, RUNS_AT_TERMINAL)?;
    expect_rows_around(&rt, SOUND_AT_TERMINAL, RUN_OF_INPUT_AT_TERMINAL)
}

/// The bytes of a sound on standard input, and the report.
type Sound = (&'static [u8], &'static str);

/// Faults of the first chunks and of the format of the samples. Refuses a program that prints what is at another place
/// of the sound, or that takes the number after a size for the size. Refuses also one thing in the plural.
const FORMATS: &[Sound] = &[
    (
        b"R",
        "4\n--\nsdfw: 43 Truncated\n  \"-\": ends after 1 byte\n  sdfw explain 43 says what to do\n--\n",
    ),
    (
        b"fLaC\0\0\0\x22",
        "4\n--\nsdfw: 34 NotRiff\n  \"-\": has \"fLaC\" at byte 0, needs \"RIFF\"\n  sdfw explain 34 says what to \
         do\n--\n",
    ),
    (
        b"RIFF\x28\0\0\0AVI\0LIST",
        "4\n--\nsdfw: 35 NotWave\n  \"-\": has \"AVI\\x00\" at byte 8, needs \"WAVE\"\n  sdfw explain 35 says what to \
         do\n--\n",
    ),
    (
        b"RIFF\x28\0\0\0WAVEJUNK\x01\0\0\0\0\0data\x04\0\0\0\x05\0\xFB\xFF",
        "4\n--\nsdfw: 36 NoFormat\n  \"-\": has its chunk \"data\" at byte 22, and no chunk \"fmt \" before it\n  sdfw \
         explain 36 says what to do\n--\n",
    ),
    (
        b"RIFF\x28\0\0\0WAVEJUNK\x01\0\0\0\0\0",
        "4\n--\nsdfw: 36 NoFormat\n  \"-\": ends after 22 bytes, without a chunk \"fmt \"\n  sdfw explain 36 says what \
         to do\n--\n",
    ),
    (
        b"RIFF\x28\0\0\0WAVEfmt \x0E\0\0\0\x01\0\x01\0\x44\xAC\0\0\x88\x58\x01\0\x02\0",
        "4\n--\nsdfw: 37 ShortFormat\n  \"-\": has a chunk \"fmt \" of 14 bytes, needs 16\n  sdfw explain 37 says what \
         to do\n--\n",
    ),
    (
        b"RIFF\x28\0\0\0WAVEfmt \x01\0\0\0\x01\0",
        "4\n--\nsdfw: 37 ShortFormat\n  \"-\": has a chunk \"fmt \" of 1 byte, needs 16\n  sdfw explain 37 says what \
         to do\n--\n",
    ),
    (
        b"RIFF\x28\0\0\0WAVEfmt \x10\0\0\0\x01\0\x01\0\x44\xAC\0\0\x88\x58\x01\0\x02\0\x01\0data\0\0\0\0",
        "4\n--\nsdfw: 38 NotPcm16\n  \"-\": has samples of 1 bit in format 1 (PCM), needs 16 bits in format 1\n  sdfw \
         explain 38 says what to do\n--\n",
    ),
    (
        b"RIFF\x28\0\0\0WAVEfmt \x10\0\0\0\x03\0\x01\0\x44\xAC\0\0\x10\xB1\x02\0\x04\0\x20\0data\0\0\0\0",
        "4\n--\nsdfw: 38 NotPcm16\n  \"-\": has samples of 32 bits in format 3 (floating point), needs 16 bits in \
         format 1\n  sdfw explain 38 says what to do\n--\n",
    ),
    (
        b"RIFF\x40\0\0\0WAVEfmt \x28\0\0\0\xFE\xFF\x01\0\x44\xAC\0\0\x88\x58\x01\0\x02\0\x10\0\
         \x16\0\x10\0\x04\0\0\0\x01\0\0\0\x21\x07\xD3\x11\x86\x44\xC8\xC1\xCA\0\0\0data\0\0\0\0",
        "4\n--\nsdfw: 38 NotPcm16\n  \"-\": has samples of 16 bits in an extensible format other than PCM, needs 16 \
         bits in format 1\n  sdfw explain 38 says what to do\n--\n",
    ),
];

/// Faults of channels, rate, frames and data, and an empty sound. Refuses what the faults of `FORMATS` refuse.
const SOUNDS: &[Sound] = &[
    (
        b"RIFF\x28\0\0\0WAVEfmt \x10\0\0\0\x01\0\x09\0\x44\xAC\0\0\x88\x58\x01\0\x12\0\x10\0data\0\0\0\0",
        "4\n--\nsdfw: 39 Channels\n  \"-\": has 44100 samples a second in 9 channels, needs 1 to 8 channels\n  sdfw \
         explain 39 says what to do\n--\n",
    ),
    (
        b"RIFF\x28\0\0\0WAVEfmt \x10\0\0\0\x01\0\x09\0\x01\0\0\0\x88\x58\x01\0\x12\0\x10\0data\0\0\0\0",
        "4\n--\nsdfw: 39 Channels\n  \"-\": has 1 sample a second in 9 channels, needs 1 to 8 channels\n  sdfw explain \
         39 says what to do\n--\n",
    ),
    (
        b"RIFF\x28\0\0\0WAVEfmt \x10\0\0\0\x01\0\x01\0\0\0\0\0\x88\x58\x01\0\x02\0\x10\0data\0\0\0\0",
        "4\n--\nsdfw: 40 RateZero\n  \"-\": has 0 samples a second in 1 channel, needs at least 1 a \
         second\n  sdfw explain 40 says what to do\n--\n",
    ),
    (
        b"RIFF\x28\0\0\0WAVEfmt \x10\0\0\0\x01\0\x01\0\x44\xAC\0\0\x88\x58\x01\0\x03\0\x10\0data\0\0\0\0",
        "4\n--\nsdfw: 41 BadAlign\n  \"-\": has frames of 3 bytes, needs 2 for 1 channel\n  sdfw explain 41 says what \
         to do\n--\n",
    ),
    (
        b"RIFF\x28\0\0\0WAVEfmt \x10\0\0\0\x01\0\x01\0\x44\xAC\0\0\x88\x58\x01\0\x01\0\x10\0data\0\0\0\0",
        "4\n--\nsdfw: 41 BadAlign\n  \"-\": has frames of 1 byte, needs 2 for 1 channel\n  sdfw explain 41 says what \
         to do\n--\n",
    ),
    (
        b"RIFF\x28\0\0\0WAVEfmt \x10\0\0\0\x01\0\x01\0\x44\xAC\0\0\x88\x58\x01\0\x02\0\x10\0",
        "4\n--\nsdfw: 42 NoData\n  \"-\": ends after 36 bytes, without a chunk \"data\"\n  sdfw explain 42 says what \
         to do\n--\n",
    ),
    (
        b"RIFF\x28\0\0\0WAVEfmt \x10\0\0\0\x01\0\x01\0\x44\xAC\0\0\x88\x58\x01\0\x02\0\x10\0data\x04\0\0\0\x05",
        "4\n--\nsdfw: 43 Truncated\n  \"-\": ends after 45 bytes, needs 48; `run --open-ended` reads to the \
         end\n  sdfw explain 43 says what to do\n--\n<5 -5 to come>",
    ),
    (
        b"",
        "4\n--\nsdfw: 43 Truncated\n  \"-\": ends after 0 bytes\n  sdfw explain 43 says what to do\n--\n",
    ),
    (
        b"RIFF\x28\0\0\0WAVEfmt \x10\0\0\0\x01\0\x01\0\x44\xAC\0\0\x88\x58\x01\0\x02\0\x10\0data\x03\0\0\0\x05\0\xFB",
        "4\n--\nsdfw: 44 PartialFrame\n  \"-\": has 3 bytes of samples, needs frames of 2 bytes\n  sdfw explain 44 \
         says what to do\n--\n",
    ),
    (
        b"RIFF\x28\0\0\0WAVEfmt \x10\0\0\0\x01\0\x01\0\x44\xAC\0\0\x88\x58\x01\0\x02\0\x10\0data\x01\0\0\0\x05",
        "4\n--\nsdfw: 44 PartialFrame\n  \"-\": has 1 byte of samples, needs frames of 2 bytes\n  sdfw explain 44 says \
         what to do\n--\n",
    ),
    (
        b"RIFF\x28\0\0\0WAVEfmt \x10\0\0\0\x01\0\x01\0\xFF\xFF\xFF\xFF\x88\x58\x01\0\x02\0\x10\0\
         data\x04\0\0\0\x05\0\xFB\xFF",
        "4\n--\nsdfw: 46 RateTooLarge\n  \"-\": has 4294967295 samples a second in 1 channel, and \
         an output has at most 4294967295 bytes a second\n  sdfw explain 46 says what to do\n--\n",
    ),
    (
        b"RIFF\x28\0\0\0WAVEfmt \x10\0\0\0\x01\0\x01\0\x44\xAC\0\0\x88\x58\x01\0\x02\0\x10\0\
         data\xFC\xFF\xFF\xFF\x05\0\xFB\xFF",
        "4\n--\nsdfw: 45 TooLong\n  \"-\": has 4294967292 bytes of samples, and an output has at most \
         4294967259; `run --open-ended` reads to the end\n  sdfw explain 45 says what to do\n--\n",
    ),
];

/// Returns the front of a sound that has 65,537 chunks before its samples.
fn parted(alloc: Global) -> Result<Vec<u8>, AllocError> {
    let mut sound = Vec::from_slice(alloc, b"RIFF\x28\0\0\0WAVE")?;
    for _ in 0..65_537 {
        sound.extend_from_slice(b"JUNK\0\0\0\0")?;
    }
    Ok(sound)
}

/// Serves `line` with the sound `stdin` on standard input, and returns the result as text.
pub(crate) fn told_of<T: Threads + AllocGlobal + Clock + Clone + Drop + Sync>(
    rt: &T,
    stdin: &[u8],
    line: &str,
) -> Result<String, Fail> {
    let mut around = *OPEN;
    around.stdin = stdin;
    told_around(rt, &around, line)
}

/// A run of standard input, with more said of a fault.
const WHY: &str = "run plain.toml - out.wav --why";

/// Compares what a run prints for each of these sounds with the wanted text.
fn are_told_of<T: Threads + AllocGlobal + Clock + Clone + Drop + Sync>(
    rt: &T,
    sounds: &[Sound],
) -> Result<(), Fail> {
    for (stdin, wanted) in sounds {
        expect_text(wanted, told_of(rt, stdin, WHY), wanted)?;
    }
    Ok(())
}

#[test]
fn what_is_told_of_sounds(rt: HostRuntime) -> Result<(), Fail> {
    are_told_of(&rt, FORMATS)?;
    are_told_of(&rt, SOUNDS)?;
    let parted = parted(rt.alloc())?;
    expect_text(
        "a sound of too many chunks",
        told_of(&rt, &parted, WHY),
        "4\n--\nsdfw: 45 TooLong\n  \"-\": has too many bytes of samples, or over 65,536 chunks before them\n  sdfw \
         explain 45 says what to do\n--\n",
    )
}

/// Sounds whose size is not true, a line, and the report. Refuses a program that believes the size despite
/// `--open-ended`, looks for it at one place, or does not believe it without that option.
const OPEN_ENDED: &[(&[u8], &str, &str)] = &[
    (
        b"RIFF\x28\0\0\0WAVEfmt \x10\0\0\0\x01\0\x01\0\x44\xAC\0\0\x88\x58\x01\0\x02\0\x10\0data\0\0\0\0\x05\0\xFB\xFF",
        "run plain.toml - out.wav --open-ended",
        "0\n--\n--\n<5 -5>",
    ),
    (
        b"RIFF\x28\0\0\0WAVEfmt \x10\0\0\0\x01\0\x01\0\x44\xAC\0\0\x88\x58\x01\0\x02\0\x10\0\
         data\0\xF0\xFF\x7F\x05\0\xFB\xFF",
        "run plain.toml - out.wav --open-ended --runner rings",
        "0\n--\n--\n<5 -5>",
    ),
    (
        b"RIFF\x28\0\0\0WAVEJUNK\x01\0\0\0\0\0fmt \x10\0\0\0\x01\0\x01\0\x44\xAC\0\0\x88\x58\x01\0\x02\0\x10\0\
         data\0\0\0\x80\x05\0\xFB\xFF",
        "run plain.toml - out.wav --open-ended --parallel 2",
        "0\n--\n--\n<5 -5>",
    ),
    (
        b"RIFF\x28\0\0\0WAVEfmt \x10\0\0\0\x01\0\x01\0\x44\xAC\0\0\x88\x58\x01\0\x02\0\x10\0\
         data\0\xF0\xFF\x7F\x05\0\xFB\xFF",
        "run plain.toml - out.wav --why",
        "4\n--\nsdfw: 43 Truncated\n  \"-\": ends after 48 bytes, needs 2147479596; `run --open-ended` reads to the \
         end\n  sdfw explain 43 says what to do\n--\n<another sound>",
    ),
];

#[test]
fn sounds_to_the_end(rt: HostRuntime) -> Result<(), Fail> {
    for (stdin, line, wanted) in OPEN_ENDED {
        expect_text(line, told_of(&rt, stdin, line), wanted)?;
    }
    Ok(())
}

/// Two frames of two channels: 32,767 and -32,768, then 5 and 32,767.
pub(crate) const LOUD: &[u8] =
    b"RIFF\x2C\0\0\0WAVEfmt \x10\0\0\0\x01\0\x02\0\x44\xAC\0\0\x10\xB1\x02\0\x04\0\x10\0\
     data\x08\0\0\0\xFF\x7F\0\x80\x05\0\xFF\x7F";

/// Tests counts of samples at full scale. Refuses a program that counts none, all outputs together, or one sign alone.
#[test]
fn samples_at_full_scale(rt: HostRuntime) -> Result<(), Fail> {
    expect_text(
        "levels",
        told_of(&rt, LOUD, "run both.toml - out.wav --why"),
        "0\n--\noutput 0: 2 frames, peak 0.0 dB, 1 sample at full scale\n\
         output 1: 2 frames, peak 0.0 dB, 2 samples at full scale\n--\n<another sound>",
    )
}
