//! Tests of the notes on a run that ended well, and of the command that helps after a fault.

use crate::commands::{Around, OPEN_AROUND, Row, expect_rows, expect_rows_around, expect_text};
use crate::terminal::{LOUD, told_of};
use std::test::Fail;

/// A sound on standard input, a line, and the report.
type Heard = (&'static [u8], &'static str, &'static str);

/// One frame of three channels.
const TRIPLE: &[u8] =
    b"RIFF\x2A\0\0\0WAVEfmt \x10\0\0\0\x01\0\x03\0\x44\xAC\0\0\x98\x09\x04\0\x06\0\x10\0\
    data\x06\0\0\0\x05\0\xFB\xFF\0\0";

/// Channels that are not read. Refuses a program that notes nothing, notes it without being asked, or counts wrong.
const UNREAD: &[Heard] = &[
    (
        LOUD,
        "run plain.toml - out.wav --why",
        "0\n--\noutput 0: 2 frames, …\nstandard input has 2 channels, but the design reads only channel 0: channel 1 \
         needs an input (resample: --channels 2)\n--\n…",
    ),
    (LOUD, "run plain.toml - out.wav", "0\n--\n--\n…"),
    (
        TRIPLE,
        "run plain.toml - out.wav --why",
        "0\n--\noutput 0: 1 frame, …\nstandard input has 3 channels, but the design reads only channel 0: channels 1 \
         and 2 need inputs (resample: --channels 3)\n--\n…",
    ),
    (
        TRIPLE,
        "run both.toml - out.wav --why",
        "0\n--\noutput 0: 1 frame, …\noutput 1: 1 frame, …\nstandard input has 3 channels, but the design reads only \
         channels 0 and 1: channel 2 needs an input (resample: --channels 3)\n--\n…",
    ),
    (
        b"",
        "run plain.toml loud.wav out.wav --why",
        "0\n--\noutput 0: 2 frames, …\nloud.wav has 2 channels, …",
    ),
];

/// Sounds of another rate than the design's. Refuses a program that notes nothing, that notes equal rates, or that
/// turns the quotient round.
const RATES: &[Heard] = &[
    (
        b"",
        "run rated.toml in.wav out.wav --why",
        "0\n--\noutput 0: 2 frames, …\nthe design is for 48000 Hz, in.wav has 44100: its frequencies are 0.919 times as \
         high\n--\n<5 -5>",
    ),
    (b"", "run rated.toml in.wav out.wav", "0\n--\n--\n<5 -5>"),
];

/// Sounds of a size of 0. Refuses a program that says nothing of bytes behind it, or that takes another chunk for
/// samples.
const EMPTY: &[Heard] = &[
    (
        b"RIFF\x24\0\0\0WAVEfmt \x10\0\0\0\x01\0\x01\0\x44\xAC\0\0\x88\x58\x01\0\x02\0\x10\0data\0\0\0\0\x05\0",
        "run plain.toml - out.wav --why",
        "0\n--\noutput 0: 0 frames, no peak, 0 samples at full scale\nthe header of standard input says 0 bytes of \
         samples, but more follow: --open-ended reads them\n--\n…",
    ),
    (
        b"RIFF\0\0\0\0WAVEfmt \x10\0\0\0\x01\0\x01\0\x44\xAC\0\0\x88\x58\x01\0\x02\0\x10\0data\0\0\0\0\x05\0",
        "run plain.toml - out.wav",
        "0\n--\n--\n…",
    ),
    (
        b"RIFF\x24\0\0\0WAVEfmt \x10\0\0\0\x01\0\x01\0\x44\xAC\0\0\x88\x58\x01\0\x02\0\x10\0data\0\0\0\0",
        "run plain.toml - out.wav --why",
        "0\n--\noutput 0: 0 frames, no peak, 0 samples at full scale\n--\n…",
    ),
    (
        b"RIFF\x2C\0\0\0WAVEfmt \x10\0\0\0\x01\0\x01\0\x44\xAC\0\0\x88\x58\x01\0\x02\0\x10\0data\0\0\0\0LIST\0\0\0\0",
        "run plain.toml - out.wav --why",
        "0\n--\noutput 0: 0 frames, no peak, 0 samples at full scale\n--\n…",
    ),
    (
        b"RIFF\x24\0\0\0WAVEfmt \x10\0\0\0\x01\0\x01\0\x44\xAC\0\0\x88\x58\x01\0\x02\0\x10\0data\0\0\0\0\x05\0\xFB\xFF",
        "run plain.toml - out.wav --why --open-ended",
        "0\n--\noutput 0: 2 frames, peak -76.3 dB, 0 samples at full scale\n--\n<5 -5>",
    ),
];

/// Sounds that are cut off, read to their end. Refuses a program that refuses them, drops a whole frame, or keeps a
/// part of one.
const CUT: &[Heard] = &[
    (
        b"RIFF\x24\0\0\0WAVEfmt \x10\0\0\0\x01\0\x01\0\x44\xAC\0\0\x88\x58\x01\0\x02\0\x10\0\
         data\0\0\0\0\x05\0\xFB\xFF\x07",
        "run plain.toml - out.wav --why --open-ended",
        "0\n--\noutput 0: 2 frames, peak -76.3 dB, 0 samples at full scale\nstandard input ends within a frame: its \
         last byte is left out\n--\n<5 -5>",
    ),
    (
        b"RIFF\x24\0\0\0WAVEfmt \x10\0\0\0\x01\0\x01\0\x44\xAC\0\0\x88\x58\x01\0\x02\0\x10\0\
         data\xFF\xFF\xFF\xFF\x05\0\xFB\xFF\x07",
        "run plain.toml - out.wav --open-ended",
        "0\n--\n--\n<5 -5>",
    ),
    (
        b"RIFF\x24\0\0\0WAVEfmt \x10\0\0\0\x01\0\x02\0\x44\xAC\0\0\x10\xB1\x02\0\x04\0\x10\0\
         data\0\0\0\0\x05\0\x07\0\x07\0\x07",
        "run both.toml - out.wav --why --open-ended",
        "0\n--\noutput 0: 1 frame, …\noutput 1: 1 frame, …\nstandard input ends within a frame: its last 3 bytes are \
         left out\n--\n…",
    ),
    (
        b"RIFF\x24\0\0\0WAVEfmt \x10\0\0\0\x01\0\x02\0\x44\xAC\0\0\x10\xB1\x02\0\x04\0\x10\0data\0\0\0\0\x05\0\x07",
        "run both.toml - out.wav --why --open-ended",
        "0\n--\noutput 0: 0 frames, …\noutput 1: 0 frames, …\nstandard input ends within a frame: its last 3 bytes \
         are left out\n--\n…",
    ),
    (
        b"RIFF\x24\0\0\0WAVEfmt \x10\0\0\0\x01\0\x01\0\x44\xAC\0\0\x88\x58\x01\0\x02\0\x10\0data\0\0\xFF\x7F\x05\0\xFB",
        "run plain.toml - out.wav --why",
        "4\n--\nsdfw: 43 Truncated\n  \"-\": ends after 47 bytes, needs 2147418156; `run --open-ended` reads to the \
         end\n  sdfw explain 43 says what to do\n--\n…",
    ),
    (
        b"RIFF\x24\0\0\0WAVEfmt \x10\0\0\0\x01\0\x01\0\x44\xAC\0\0\x88\x58\x01\0\x02\0\x10\0data\xFF\xFF\xFF\x7F\x05\0",
        "run plain.toml - out.wav --why",
        "4\n--\nsdfw: 44 PartialFrame\n  \"-\": has 2147483647 bytes of samples, needs frames of 2 bytes; \
         `run --open-ended` reads to the end\n  sdfw explain 44 says what to do\n--\n…",
    ),
    (
        b"RIFF\x24\0\0\0WAVEfmt \x10\0\0\0\x01\0\x01\0\x44\xAC\0\0\x88\x58\x01\0\x02\0\x10\0data\xFF\xFF\xFF\xFF\x05",
        "run plain.toml - out.wav --why",
        "4\n--\nsdfw: 44 PartialFrame\n  \"-\": has 1 byte of samples, needs frames of 2 bytes; \
         `run --open-ended` reads to the end\n  sdfw explain 44 says what to do\n--\n…",
    ),
    (
        b"RIFF\x24\0\0\0WAVEfmt \x10\0\0\0\x01\0\x01\0\x44\xAC\0\0\x88\x58\x01\0\x02\0\x10\0data\xF0\xFF\xFF\xFF\x05\0",
        "run plain.toml - out.wav --why",
        "4\n--\nsdfw: 45 TooLong\n  \"-\": has 4294967280 bytes of samples, and an output has at most 4294967259; \
         `run --open-ended` reads to the end\n  sdfw explain 45 says what to do\n--\n…",
    ),
];

#[test]
fn notes_on_runs(rt: HostRuntime) -> Result<(), Fail> {
    for (stdin, line, wanted) in UNREAD {
        expect_text(line, told_of(&rt, stdin, line), wanted)?;
    }
    for (stdin, line, wanted) in RATES {
        expect_text(line, told_of(&rt, stdin, line), wanted)?;
    }
    for (stdin, line, wanted) in EMPTY {
        expect_text(line, told_of(&rt, stdin, line), wanted)?;
    }
    for (stdin, line, wanted) in CUT {
        expect_text(line, told_of(&rt, stdin, line), wanted)?;
    }
    Ok(())
}

/// Faults of sounds that a command converts. Refuses a program that names another file, quotes it wrong for a shell, or
/// lets it pass for an option or a protocol.
const CONVERTED: &[Row] = &[
    (
        "a sound of 8 bits",
        "run plain.toml takes/it's.wav out.wav --why",
        "4\n--\nsdfw: 38 NotPcm16\n  \"takes/it's.wav\": has samples of 8 bits in format 1 (PCM), needs 16 bits in \
         format 1\n  convert it: sox 'takes/it'\\''s.wav' -b 16 -e signed-integer 'takes/it'\\''s-16.wav'\n--\n",
    ),
    (
        "a sound of another form, in a folder with a dash",
        "run plain.toml --why -- -a.b/song out.wav",
        "4\n--\nsdfw: 34 NotRiff\n  \"-a.b/song\": …\n--\n",
    ),
    (
        "a sound with a colon",
        "run plain.toml b:c.mp3 out.wav --why",
        "4\n--\nsdfw: 34 NotRiff\n  \"b:c.mp3\": …\n--\n",
    ),
];

/// The environment asks for more.
const ASKED: &Around<'static> = &Around {
    why: true,
    ..OPEN_AROUND
};

/// What is printed if the environment asks for more. Refuses a program that prints no more, ignores `--no-why`, or
/// shows its progress.
const BY_ENVIRONMENT: &[Row] = &[
    (
        "a fault",
        "check none.toml",
        "5\n--\nsdfw: 47 Read\n  \"none.toml\": entity not found\n  sdfw explain 47 says what to do\n--\n",
    ),
    (
        "no more",
        "check none.toml --no-why",
        "5\n--\nsdfw: 47 Read\n--\n",
    ),
    (
        "a run",
        "run plain.toml in.wav out.wav",
        "0\n--\noutput 0: 2 frames, peak -76.3 dB, 0 samples at full scale\n--\n<5 -5>",
    ),
    (
        "a batch",
        "run plain.toml --into made in.wav",
        "0\nin.wav: done\n--\nin.wav: output 0: 2 frames, peak -76.3 dB, 0 samples at full scale\n--\n<5 -5>",
    ),
    (
        "a design in a folder that can't be made",
        "resample 44100 48000 else",
        "5\n--\nsdfw: 48 Write\n  \"else\": permission denied\n  sdfw explain 48 says what to do\n--\n",
    ),
];

/// Commands that make designs, with and without more. Refuses a program that does not take the option there, or has no
/// use for it.
const MADE: &[Row] = &[
    (
        "more of a design in a folder that can't be made",
        "resample 44100 48000 else --why",
        "5\n--\nsdfw: 48 Write\n  \"else\": permission denied\n  sdfw explain 48 says what to do\n--\n",
    ),
    (
        "no more of it",
        "resample 44100 48000 else --no-why",
        "5\n--\nsdfw: 48 Write\n--\n",
    ),
    (
        "a filter",
        "fir lowpass --rate 8000 --pass 1000 --stop 2000 --why",
        "0\n…",
    ),
];

#[test]
fn commands_that_help(rt: HostRuntime) -> Result<(), Fail> {
    expect_rows(&rt, CONVERTED)?;
    expect_rows(&rt, MADE)?;
    expect_rows_around(&rt, ASKED, BY_ENVIRONMENT)
}
