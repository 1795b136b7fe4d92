//! Words that are not kinds, but that users try for one: what they mean by it, and the kind that does it.

ghost use Rattle.std.specs.Prelude.{◌≡◌, bytes_eq, map};
ghost use Rattle.std.specs.List.{list_any};
ghost use Rattle.sdf_why.specs.Synonyms.{words_of, kind_of, advice_of, purposes, has_word, purpose_of};

use sdf_kinds::Kind;

/// What a user wants an actor to do.
#[derive(Clone, Copy, Debug, PartialEq, Eq)]
pub(crate) enum Purpose {
    Filter,
    Converter,
    Volume,
    Mixer,
    Difference,
    Splitter,
    Lag,
    Limiter,
    Bias,
    Shaper,
    Demultiplexer,
    Multiplexer,
    Source,
    Sink,
}

/// The purposes, each once.
pub(crate) const PURPOSES: [Purpose; 14] = [
    Purpose::Filter,
    Purpose::Converter,
    Purpose::Volume,
    Purpose::Mixer,
    Purpose::Difference,
    Purpose::Splitter,
    Purpose::Lag,
    Purpose::Limiter,
    Purpose::Bias,
    Purpose::Shaper,
    Purpose::Demultiplexer,
    Purpose::Multiplexer,
    Purpose::Source,
    Purpose::Sink,
];

/// The words for each purpose. None of them is a kind.
pub(crate) const FILTERS: &[&str] = &[
    "lowpass",
    "low-pass",
    "low_pass",
    "highpass",
    "high-pass",
    "high_pass",
    "bandpass",
    "band-pass",
    "band_pass",
    "filter",
    "eq",
    "equalizer",
    "biquad",
    "iir",
    "convolve",
    "convolution",
    "crossover",
];

pub(crate) const CONVERTERS: &[&str] = &[
    "resample",
    "resampler",
    "upsample",
    "downsample",
    "convert",
    "converter",
    "src",
];

pub(crate) const VOLUMES: &[&str] = &[
    "volume",
    "level",
    "amp",
    "amplify",
    "amplifier",
    "attenuate",
    "attenuator",
    "scale",
    "multiply",
    "mute",
    "invert",
];

pub(crate) const MIXERS: &[&str] = &["mix", "mixer", "sum", "plus", "merge", "combine"];

pub(crate) const DIFFERENCES: &[&str] = &["subtract", "minus", "difference", "diff"];

pub(crate) const SPLITTERS: &[&str] = &["split", "splitter", "copy", "duplicate", "tee", "branch"];

pub(crate) const LAGS: &[&str] = &["wait", "latency", "echo", "lag"];

pub(crate) const LIMITERS: &[&str] = &["limit", "limiter", "clipper", "clamp", "saturate"];

pub(crate) const BIASES: &[&str] = &["dc", "bias", "constant"];

pub(crate) const SHAPERS: &[&str] = &["lookup", "map", "waveshaper", "distortion"];

pub(crate) const DEMULTIPLEXERS: &[&str] = &["demultiplex", "demux", "deinterleave"];

pub(crate) const MULTIPLEXERS: &[&str] = &["multiplex", "mux", "interleave"];

pub(crate) const SOURCES: &[&str] = &["in", "source", "read", "reader"];

pub(crate) const SINKS: &[&str] = &["out", "sink", "write", "writer"];

/// Returns the words that users try for `purpose`.
fn words_of(purpose: Purpose) -> &'static [&'static str]
    ensures { map (λ word. word.now) result.now ≡ words_of purpose }
{
    match purpose {
        Purpose::Filter => FILTERS,
        Purpose::Converter => CONVERTERS,
        Purpose::Volume => VOLUMES,
        Purpose::Mixer => MIXERS,
        Purpose::Difference => DIFFERENCES,
        Purpose::Splitter => SPLITTERS,
        Purpose::Lag => LAGS,
        Purpose::Limiter => LIMITERS,
        Purpose::Bias => BIASES,
        Purpose::Shaper => SHAPERS,
        Purpose::Demultiplexer => DEMULTIPLEXERS,
        Purpose::Multiplexer => MULTIPLEXERS,
        Purpose::Source => SOURCES,
        Purpose::Sink => SINKS,
    }
}

/// Returns the kind that serves `purpose`.
pub(crate) fn kind_of(purpose: Purpose) -> Kind
    ensures { result ≡ kind_of purpose }
{
    match purpose {
        Purpose::Filter | Purpose::Converter => Kind::Fir,
        Purpose::Volume => Kind::Gain,
        Purpose::Mixer | Purpose::Difference => Kind::Add,
        Purpose::Splitter => Kind::Fork,
        Purpose::Lag => Kind::Delay,
        Purpose::Limiter => Kind::Clip,
        Purpose::Bias => Kind::Offset,
        Purpose::Shaper => Kind::Table,
        Purpose::Demultiplexer => Kind::Deal,
        Purpose::Multiplexer => Kind::Gather,
        Purpose::Source => Kind::Input,
        Purpose::Sink => Kind::Output,
    }
}

/// Returns the line about how the kind serves `purpose`, or no text if its name says enough.
pub(crate) fn advice_of(purpose: Purpose) -> &'static str
    ensures { result.now ≡ advice_of purpose }
{
    match purpose {
        Purpose::Filter => "  `sdfw fir` prints the taps of a low-pass, high-pass or band-pass\n",
        Purpose::Converter => "  `sdfw resample` writes a whole converter\n",
        Purpose::Difference => "  one of its inputs comes from a gain of -1\n",
        _ => "",
    }
}

fn is_among(words: &[&str], word: &str) -> bool
    ensures { result ≡ list_any (λ known. bytes_eq word.now known.now) words.now }
{
    words.iter().any(|known| word == *known)
}

fn has_word(purpose: Purpose, word: &str) -> bool
    ensures { result ≡ has_word word.now purpose }
{
    is_among(words_of(purpose), word)
}

/// Returns the purpose that users call by `word`.
pub(crate) fn purpose_of(word: &str) -> Option<Purpose>
    ensures { result ≡ purpose_of word.now }
{
    PURPOSES
        .iter()
        .copied()
        .find(|purpose| has_word(*purpose, word))
}
