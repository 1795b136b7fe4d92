//! The commands that make filters and converters: their arguments and help texts.

use super::designs::{NO_WHY, WHY};
use super::{Argument, CommandRow, PLAIN, Syntax, Values};
use sdf_filters::MAX_ATTENUATION;
use sdf_limits::{MAX_CHANNEL, MAX_FACTOR, MAX_SHIFT};

const SHAPE: Argument = Argument {
    name: "SHAPE",
    help: "lowpass, highpass or bandpass",
    more: "The shape of the filter:
- lowpass: passes up to `--pass`, stops from `--stop`
- highpass: stops up to `--stop`, passes from `--pass`
- bandpass: stops up to `--low-stop`, passes from `--low-pass` to `--pass`, stops from `--stop`",
    syntax: Syntax::Place(Values::OneOf(&["lowpass", "highpass", "bandpass"])),
};

const RATE: Argument = Argument {
    name: "rate",
    help: "The sample rate that the filter runs at, in Hz",
    more: "The sample rate that the filter runs at, in Hz: the rate of the actor's input times its `up`",
    syntax: Syntax::Choice("HZ", Values::Unsigned(1, u32::MAX as u64), None),
};

const PASS: Argument = Argument {
    name: "pass",
    help: "Passband edge in Hz",
    more: "Passband edge in Hz (for a high-pass, its lower end)",
    syntax: Syntax::Choice("HZ", Values::Unsigned(0, u32::MAX as u64), None),
};

const STOP: Argument = Argument {
    name: "stop",
    help: "Stopband edge in Hz",
    more: "Stopband edge in Hz (for a high-pass, its upper end)",
    syntax: Syntax::Choice("HZ", Values::Unsigned(0, u32::MAX as u64), None),
};

const LOW_STOP: Argument = Argument {
    name: "low-stop",
    help: "Edge of a band-pass's lower stopband in Hz",
    more: "Edge of a band-pass's lower stopband in Hz. It has no effect on other shapes",
    syntax: Syntax::Choice("HZ", Values::Unsigned(0, u32::MAX as u64), Some("0")),
};

const LOW_PASS: Argument = Argument {
    name: "low-pass",
    help: "Lower edge of a band-pass's passband in Hz",
    more: "Lower edge of a band-pass's passband in Hz. It has no effect on other shapes",
    syntax: Syntax::Choice("HZ", Values::Unsigned(0, u32::MAX as u64), Some("0")),
};

const ATTENUATION: Argument = Argument {
    name: "attenuation",
    help: "Stopband attenuation in dB, at most 200",
    more: "Stopband attenuation in dB, at most 200. Taps of 16 bits limit it: a line on standard error says what a
filter reaches",
    syntax: Syntax::Choice(
        "DB",
        Values::Unsigned(0, MAX_ATTENUATION as u64),
        Some("96"),
    ),
};

const UP: Argument = Argument {
    name: "up",
    help: "The actor's key `up`, 1 to 64",
    more: "The actor's key `up`, 1 to 64: the number of phases of the taps. The taps of each phase of a low-pass sum
to 2^shift, so a constant stays what it is; those of a high-pass and a band-pass sum to 0. The `up` of a
high-pass is 1",
    syntax: Syntax::Choice("U", Values::Unsigned(1, MAX_FACTOR as u64), Some("1")),
};

const SHIFT: Argument = Argument {
    name: "shift",
    help: "The actor's key `shift`, at most 15",
    more: "The actor's key `shift`, at most 15",
    syntax: Syntax::Choice("S", Values::Unsigned(0, MAX_SHIFT as u64), Some("15")),
};

const FROM: Argument = Argument {
    name: "FROM",
    help: "The rate of the input, in Hz",
    more: "The rate of the input, in Hz",
    syntax: Syntax::Place(Values::Unsigned(1, u32::MAX as u64)),
};

const TO: Argument = Argument {
    name: "TO",
    help: "The rate of the output, in Hz",
    more: "The rate of the output, in Hz",
    syntax: Syntax::Place(Values::Unsigned(1, u32::MAX as u64)),
};

const FOLDER: Argument = Argument {
    name: "FOLDER",
    help: "The folder to write the design into",
    more: "The folder to write the design into: graph.toml, and a coefficient file for each stage. It is made if it is
missing, in a folder that exists. It must not have any of these files yet",
    syntax: Syntax::Place(Values::Text),
};

const CHANNELS: Argument = Argument {
    name: "channels",
    help: "Channels, 1 to 8",
    more: "Channels, 1 to 8: each has the same stages",
    syntax: Syntax::Choice("N", Values::Unsigned(1, MAX_CHANNEL as u64 + 1), Some("1")),
};

const FAST: Argument = Argument {
    name: "fast",
    help: "Makes filters of 16-bit taps, which take less time",
    more: "Makes one filter of 16-bit taps for each stage, which takes less time. Noise is at -84 to -89 dBFS, and
frequencies near half the lower rate are folded",
    syntax: PLAIN,
};

const KEPT: Argument = Argument {
    name: "pass",
    help: "Thousandths of half the lower rate that pass, 500 to 950",
    more: "Thousandths of half the lower rate that pass, 500 to 950. Fewer need fewer taps. It has no effect with
`--fast`",
    syntax: Syntax::Choice("PART", Values::Unsigned(500, 950), Some("907")),
};

const REJECTION: Argument = Argument {
    name: "attenuation",
    help: "Stopband attenuation in dB, at most 200",
    more: "Stopband attenuation in dB, at most 200: 110 unless it is given, and 96 with `--fast`, where taps of 16 bits
limit it. A line on standard error says what each stage reaches",
    syntax: Syntax::Free("DB", Values::Unsigned(0, MAX_ATTENUATION as u64)),
};

pub(super) const FIR: CommandRow = CommandRow {
    name: "fir",
    help: "Prints a coefficient file for an actor of kind fir",
    more: "Prints a coefficient file for an actor of kind fir: at most 1024 taps of 16 bits, a sinc under Kaiser's
window. A line on standard error has the number of taps, the ripple of the passband and the attenuation of the
stopband. No frequency may be over half the rate.",
    arguments: &[
        SHAPE,
        RATE,
        PASS,
        STOP,
        LOW_STOP,
        LOW_PASS,
        ATTENUATION,
        UP,
        SHIFT,
        WHY,
        NO_WHY,
    ],
    scheduling: &[],
    examples: "Examples:
  sdfw fir lowpass --rate 44100 --pass 2000 --stop 2900 > taps.toml
  sdfw fir lowpass --rate 336000 --pass 20000 --stop 24000 --up 7 > a.toml",
};

pub(super) const RESAMPLE: CommandRow = CommandRow {
    name: "resample",
    help: "Writes a design that converts between two rates",
    more: "Writes a design that converts between two rates: its graph file and the coefficient files of its stages.
Each stage has two filters of 16-bit taps, which together have taps of 22 bits. What is left beside a sound is
the rounding to 16 bits, and nothing is folded or left as an image above -90 dBFS. Four channels fit where a
conversion has two stages, and two where it has three. With `--fast` each stage has one filter.
The stages are the cheapest by products a second: at most three, unless the ratio needs more. A ratio with a
prime factor over 64 is refused.
The output is late by the delay of the filters, a whole number of frames, and the sound's end is cut off by the
same time. If the end matters, append a little silence to IN first. Lines on standard error have the ripple and
the attenuation of each stage, the delay, the files that were made, and the command that runs the design.",
    arguments: &[
        FROM, TO, FOLDER, CHANNELS, FAST, KEPT, REJECTION, WHY, NO_WHY,
    ],
    scheduling: &[],
    examples: "Examples:
  sdfw resample 44100 48000 converter --channels 2
  sdfw run converter/graph.toml in.wav out.wav
  sdfw resample 44100 96000 to-96000 --fast",
};
