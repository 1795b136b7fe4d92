//! Tests of standard input and output, of closed streams, and of the length limit of files, over files in memory.

use crate::commands::{
    Around, MUTE, OPEN, OPEN_AROUND, Row, Served, expect_rows, expect_rows_around, expect_text,
    given_of, serve_given, serve_line, told_around,
};
use crate::files::{FILTERED, TAPS};
use crate::shelf::{PADDED, SOUND};
use sdf_cli::arguments::Arguments;
use sdf_io::files::MAX_BYTES;
use sdf_options::WordFault;
use std::alloc::Global;
use std::io::ErrorKind;
use std::test::Fail;
use std::thread::Threads;
use std::time::Clock;

/// A sound on standard input.
const SOUND_ON_INPUT: &Around<'static> = &Around {
    stdin: SOUND,
    ..OPEN_AROUND
};

/// A sound on standard input, with its last byte missing.
const CUT: &Around<'static> = &Around {
    stdin: b"RIFF\x28\0\0\0WAVEfmt \x10\0\0\0\x01\0\x01\0\x44\xAC\0\0\x88\x58\x01\0\x02\0\x10\0\
        data\x04\0\0\0\x05\0\xFB",
    ..OPEN_AROUND
};

/// Standard output is out of memory.
const POOR: &Around<'static> = &Around {
    output: Some(ErrorKind::OutOfMemory),
    ..OPEN_AROUND
};

/// Standard error is closed.
const UNTOLD: &Around<'static> = &Around {
    error: Some(ErrorKind::BrokenPipe),
    ..OPEN_AROUND
};

const UNWRITTEN: &str = "5\n--\nsdfw: 48 Write\n--\n";

const NO_MEMORY: &str = "6\n--\nsdfw: 1 OutOfMemory\n--\n";

/// Runs of a sound on standard input. A sound for standard output is written there and nowhere else, and a sound for a
/// file in the file alone. `./-` is a file.
const FROM_STREAM: &[Row] = &[
    (
        "from stream to stream",
        "run plain.toml - -",
        "0\n<5 -5>--\n--\n",
    ),
    (
        "the same over rings",
        "run plain.toml - - --runner rings",
        "0\n<5 -5>--\n--\n",
    ),
    (
        "from a stream to a file",
        "run plain.toml - out.wav",
        "0\n--\n--\n<5 -5>",
    ),
    (
        "from a stream to the graph file",
        "run plain.toml - plain.toml",
        "2\n--\nerror: OUT is the same file as GRAPH\n…",
    ),
    (
        "to a file that is no stream",
        "run plain.toml - ./-",
        UNWRITTEN,
    ),
    (
        "a profile, for one that reads the file `-`",
        "profile plain.toml -",
        "0\nshare in …--\n--\n",
    ),
];

/// Runs with nothing on standard input. The file `-` is not looked at, but `./-` is.
const FROM_FILE: &[Row] = &[
    (
        "from a file to a stream",
        "run plain.toml in.wav -",
        "0\n<5 -5>--\n--\n",
    ),
    (
        "from a file that is no stream",
        "run plain.toml ./- out.wav",
        "0\n--\n--\n<5 -5>",
    ),
    (
        "nothing to read",
        "run plain.toml - -",
        "4\n--\nsdfw: 43 Truncated\n--\n",
    ),
];

/// A run of a sound on standard input that ends too early. After a fault, standard output has what was written before,
/// and not the fault's line.
const FROM_CUT: &[Row] = &[(
    "a byte too few",
    "run plain.toml - -",
    "4\n<5 -5 to come>--\nsdfw: 43 Truncated\n--\n",
)];

/// Commands whose output is refused, which is a fault.
const NOT_PRINTED: &[Row] = &[
    ("a check that is not printed", "check plain.toml", UNWRITTEN),
    (
        "a schedule that is not printed",
        "schedule plain.toml",
        UNWRITTEN,
    ),
    ("kinds that are not printed", "kinds", UNWRITTEN),
    (
        "kinds in JSON that are not printed",
        "kinds --json",
        "5\n--\n{\"fault\":48,\"hint\":[\"sdfw explain 48 says what to do\"],\"name\":\"Write\"}\n--\n",
    ),
    ("an explanation that is not printed", "explain 5", UNWRITTEN),
    ("help that is not printed", "--help", UNWRITTEN),
    (
        "help of a command that is not printed",
        "run --help",
        UNWRITTEN,
    ),
    ("a version that is not printed", "--version", UNWRITTEN),
    (
        "a filter that is not printed",
        "fir lowpass --rate 8000 --pass 1000 --stop 3000",
        "5\n--\n26 taps: … dB\nsdfw: 48 Write\n--\n",
    ),
    (
        "a sound that is not written",
        "run plain.toml in.wav - --why",
        "5\n--\nsdfw: 48 Write\n  \"-\": broken pipe\n  sdfw explain 48 says what to do\n--\n",
    ),
    (
        "a header that is not written, before a sound that ends too soon",
        "run plain.toml cut.wav -",
        UNWRITTEN,
    ),
    (
        "nothing that is to be written",
        "run plain.toml one.toml -",
        "4\n--\nsdfw: 34 NotRiff\n--\n",
    ),
];

/// Runs to standard output, and the bytes in the first call that writes. Refuses a header that leaves alone, since
/// `sox` reads 256 bytes of a pipe before it looks for one.
const FIRST: &[(&str, usize)] = &[
    ("run plain.toml in.wav -", 48),
    ("run plain.toml silence.wav - --runner rings", 76),
    ("run stretched.toml in.wav -", 256),
    ("run plain.toml cut.wav -", 44),
];

/// Returns the number of bytes that `line` writes first.
fn first_of<T: Threads + AllocGlobal + Clock + Clone + Drop + Sync>(
    rt: &T,
    line: &str,
) -> Result<String, Fail> {
    let served = serve_line(rt, OPEN, line)?;
    format!(in rt.alloc(); "{}", served.first).map_err(Fail::from)
}

/// Compares the first bytes that runs write with the wanted number.
fn are_first<T: Threads + AllocGlobal + Clock + Clone + Drop + Sync>(rt: &T) -> Result<(), Fail> {
    for (line, first) in FIRST {
        let wanted = format!(in rt.alloc(); "{first}")?;
        expect_text(line, first_of(rt, line), wanted.as_str())?;
    }
    Ok(())
}

/// Commands whose output has no memory, which is a fault of its own.
const NOT_STORED: &[Row] = &[
    ("a check without memory", "check plain.toml", NO_MEMORY),
    (
        "a schedule without memory",
        "schedule plain.toml",
        NO_MEMORY,
    ),
    ("kinds without memory", "kinds", NO_MEMORY),
    ("an explanation without memory", "explain 5", NO_MEMORY),
    ("help without memory", "--help", NO_MEMORY),
    ("help of a command without memory", "run --help", NO_MEMORY),
    ("a version without memory", "--version", NO_MEMORY),
];

/// Commands for which standard error is closed. They keep their status.
const NOT_TOLD: &[Row] = &[
    (
        "a filter whose taps can't be told of",
        "fir lowpass --rate 8000 --pass 1000 --stop 3000",
        "5\n--\n--\n",
    ),
    (
        "a converter whose taps can't be told of, of which nothing is left",
        "resample 8000 16000 made --attenuation 40",
        "5\n--\n--\n",
    ),
    (
        "a converter without stages whose files can't be told of",
        "resample 8000 8000 made",
        "5\n--\n--\n",
    ),
    (
        "a run in parallel that can't tell how it goes",
        "run plain.toml in.wav out.wav --parallel 2 --why",
        "0\n--\n--\n<5 -5>",
    ),
    (
        "a mistake that can't be told of, for a program that takes each for help",
        "play",
        "2\n--\n--\n",
    ),
    ("another such mistake", "check", "2\n--\n--\n"),
];

#[test]
fn what_stands_on_which_stream(rt: HostRuntime) -> Result<(), Fail> {
    expect_rows_around(&rt, SOUND_ON_INPUT, FROM_STREAM)?;
    expect_rows(&rt, FROM_FILE)?;
    expect_rows_around(&rt, CUT, FROM_CUT)?;
    expect_rows_around(&rt, MUTE, NOT_PRINTED)?;
    expect_rows_around(&rt, POOR, NOT_STORED)?;
    expect_rows_around(&rt, UNTOLD, NOT_TOLD)?;
    are_first(&rt)
}

/// The report on a check of a design with its coefficient file.
const CHECKED: &str =
    "0\nactors 4\nlinks 3\nperiod 4\nq in 1\nq half 1\nq same 1\nq out 1\ninput 1 output 1\n--\n--\n";

/// The longest file that a line reads, the line, and the report if this file is as long as the limit. Refuses a program
/// that cuts longer files, or looks for coefficient files in the current folder. Refuses also a profile that reads a
/// sound whole, whatever its length is.
const LIMITS: &[(&str, &str, &str)] = &[
    (FILTERED, "check filtered.toml", CHECKED),
    (PADDED, "check padded/filtered.toml", CHECKED),
    (
        FILTERED,
        "profile plain.toml filtered.toml",
        "4\n--\nsdfw: 34 NotRiff\n--\n",
    ),
];

/// Returns the report on `line` if files may have `most` bytes.
fn told_within<T: Threads + AllocGlobal + Clock + Clone + Drop + Sync>(
    rt: &T,
    most: u32,
    line: &str,
) -> Result<String, Fail> {
    let mut around = *OPEN;
    around.most = most;
    told_around(rt, &around, line)
}

/// Checks that `line` reports `wanted` if `longest` is as long as the limit, and `47 Read` if the limit is a byte less.
fn fits<T: Threads + AllocGlobal + Clock + Clone + Drop + Sync>(
    rt: &T,
    longest: &str,
    line: &str,
    wanted: &str,
) -> Result<(), Fail> {
    let most = u32::try_from(longest.len()).unwrap_or(0);
    expect_text(line, told_within(rt, most, line), wanted)?;
    expect_text(
        line,
        told_within(rt, most.saturating_sub(1), line),
        "5\n--\nsdfw: 47 Read\n--\n",
    )
}

/// Reports the exit status, how many bytes are on standard output, and standard error.
fn unread_text(alloc: Global, served: &Served) -> Result<String, Fail> {
    let err = str::from_utf8(&served.err)?;
    format!(in alloc; "{} {} {err}", served.status, served.out.len()).map_err(Fail::from)
}

/// Serves the words `given`. Reports the exit status, how many bytes are on standard output, and standard error.
fn unread_given<T: Threads + AllocGlobal + Clock + Clone + Drop + Sync>(
    rt: &T,
    given: Result<Arguments, WordFault>,
) -> Result<String, Fail> {
    let served = serve_given(rt, OPEN, given)?;
    unread_text(rt.alloc(), &served)
}

/// Serves the words of `line` and a last one that is not UTF-8, and returns the report.
fn without_last<T: Threads + AllocGlobal + Clock + Clone + Drop + Sync>(
    rt: &T,
    line: &str,
) -> Result<String, Fail> {
    let mut given = given_of(rt.alloc(), line, "")?;
    given.unread = Some(given.words.len());
    unread_given(rt, Ok(given))
}

/// Words of which the last is not UTF-8: a name, the words before it, and the report. Refuses a mistake that is not in
/// JSON although another word asks for that.
const UNREAD: &[Row] = &[
    ("not UTF-8", "check", "2 0 error: argument 2 is not UTF-8\n"),
    (
        "not UTF-8, with JSON",
        "check --json",
        "2 0 {\"fault\":0,\"name\":\"Usage\",\"text\":\"error: argument 3 is not UTF-8…\"}\n",
    ),
];

/// Compares what is reported of words that are not read with the wanted text.
fn are_unread<T: Threads + AllocGlobal + Clock + Clone + Drop + Sync>(rt: &T) -> Result<(), Fail> {
    expect_text(
        "words",
        unread_given(rt, Err(WordFault::OutOfMemory)),
        "6 0 sdfw: 1 OutOfMemory\n",
    )?;
    for (name, line, wanted) in UNREAD {
        expect_text(name, without_last(rt, line), wanted)?;
    }
    Ok(())
}

/// Tests files and words that are not read. Refuses a limit other than in `docs/FORMATS.md`, and a program that does
/// nothing if its words can't be read.
#[test]
fn files_and_words_that_are_not_read(rt: HostRuntime) -> Result<(), Fail> {
    assert_eq!(rt; MAX_BYTES, 1_073_741_824);
    assert!(rt; TAPS.len() < FILTERED.len() && FILTERED.len() < PADDED.len());
    are_unread(&rt)?;
    for (longest, line, wanted) in LIMITS {
        fits(&rt, longest, line, wanted)?;
    }
    Ok(())
}
