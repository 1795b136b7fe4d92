//! Tests of the words for filters and converters, over files in memory: each word means what its name says.

use crate::commands::{Row, expect_rows};
use std::test::Fail;

/// Filters. Refuses a line about the taps on standard output, and a fault with another status.
const FILTERS: &[Row] = &[
    (
        "a high-pass",
        "fir highpass --rate 8000 --stop 1000 --pass 2500 --attenuation 40",
        "0\n# fir up 1 shift 15, high-pass 1000..2500 Hz at 8000 Hz, 40 dB\n…",
    ),
    (
        "a band-pass",
        "fir bandpass --rate 8000 --low-stop 200 --low-pass 1200 --pass 2000 --stop 3000 --attenuation 41",
        "0\n# fir up 1 shift 15, band-pass 200..1200..2000..3000 Hz at 8000 Hz, 41 dB\n…",
    ),
    (
        "keys of the actor",
        "fir lowpass --rate 512000 --pass 100 --stop 4000 --up 64 --shift 14",
        "0\n# fir up 64 shift 14, low-pass 100..4000 Hz at 512000 Hz, 96 dB\n…",
    ),
    (
        "the greatest attenuation",
        "fir lowpass --rate 8000 --pass 100 --stop 3900 --attenuation 200",
        "0\n# fir up 1 shift 15, low-pass 100..3900 Hz at 8000 Hz, 200 dB\n…",
    ),
    (
        "a factor that is too great",
        "fir lowpass --rate 8000 --pass 1000 --stop 2500 --up 65",
        "2\n--\n…",
    ),
    (
        "a low-pass, and what its taps do on standard error",
        "fir lowpass --rate 8000 --pass 1000 --stop 3000",
        "0\n# fir up 1 shift 15, low-pass 1000..3000 Hz…--\n26 taps: …",
    ),
    (
        "a band that ends before it begins",
        "fir lowpass --rate 8000 --pass 3000 --stop 1000",
        "2\n--\nerror: --pass is 3000 Hz and --stop is 1000 Hz: lower --pass or raise --stop\n…",
    ),
];

/// Converters. Refuses a graph file without its coefficient file, swapped texts, and a conversion the other way.
/// Refuses a program that looks in a folder for a graph file alone, or for the first coefficient file alone. Refuses a
/// folder that can't be made, and a design that is written over another or before it is planned. Refuses also the usual
/// attenuation in place of a greater one.
const CONVERTERS: &[Row] = &[
    (
        "channels",
        "resample 8000 8000 made --channels 8",
        "0\n--\nmade made/graph.toml\nrun it: sdfw run made/graph.toml IN.wav OUT.wav\n--\n# from 8000\n# to \
         8000\n# channels 8\n…",
    ),
    (
        "too many channels",
        "resample 8000 8000 made --channels 9",
        "2\n--\n…",
    ),
    (
        "a folder that has a coefficient file",
        "resample 8000 16000 begun --fast",
        "2\n--\nerror: FOLDER already has a file stage1.toml\n…",
    ),
    (
        "a folder that has a second coefficient file",
        "resample 44100 48000 ended --attenuation 40 --fast",
        "2\n--\nerror: FOLDER already has a file stage2.toml\n…",
    ),
    (
        "a design whose period is too long",
        "resample 250047 262144 made --attenuation 9 --fast",
        "3\n--\nsdfw: 9 PeriodTooLong\n--\n",
    ),
    (
        "a graph file alone",
        "resample 8000 8000 made",
        "0\n--\nmade made/graph.toml\nrun it: sdfw run made/graph.toml IN.wav OUT.wav\n--\n# from 8000\n# to \
         8000\n# channels 1\nformat = 1\nrate = 8000\n\n[[actor]]\nname = \"in\"\nkind = \
         \"input\"\nchannel = 0\n\n[[actor]]\nname = \"out\"\nkind = \"output\"\nchannel = 0\n\n[[link]]\nfrom = \
         \"in\"\nto = \"out\"\n",
    ),
    (
        "a stage with too many taps, and no edges of bands to move",
        "resample 5900 6100 made --attenuation 200 --fast",
        "2\n--\nerror: a stage needs … taps, but 1024 is the limit: lower --attenuation\n…",
    ),
    (
        "wide taps, unless fast ones are asked for: two files of a stage, and a line about both",
        "resample 22050 44100 made --channels 2",
        "0\n--\n281 taps: … dB\nlate by 140 frames, which are cut off the end\n\
         made made/graph.toml, high1.toml, low1.toml\nrun it: sdfw run made/graph.toml IN.wav OUT.wav\n--\n\
         format = 1\nvalues = […\n]\nformat = 1\nvalues = […\n]\n# from 22050\n# to 44100\n# channels 2\n…\
         kind = \"delay\"\nlength = …",
    ),
    (
        "more channels of wide taps than fit",
        "resample 44100 48000 made --channels 5",
        "2\n--\nerror: 5 channels need more than 64 actors, and 4 fit: use fewer channels, or --fast\n…",
    ),
    (
        "wide taps that stop more than there are taps for",
        "resample 5900 6100 made --attenuation 200",
        "2\n--\nerror: a stage needs … taps, but 1024 is the limit: lower --attenuation or --pass, or use --fast\n…",
    ),
    (
        "wide taps that pass less, which are fewer",
        "resample 22050 44100 made --pass 800 --attenuation 80",
        "0\n--\n103 taps: … dB\nlate by 51 frames…",
    ),
    (
        "a folder that can't be made",
        "resample 8000 8000 elsewhere",
        "5\n--\nsdfw: 48 Write\n--\n",
    ),
    (
        "a folder that has a graph file",
        "resample 8000 8000 full",
        "2\n--\nerror: FOLDER already has a file graph.toml\n…",
    ),
    (
        "a greater attenuation than the usual one, which has other stages, and a line for each of them",
        "resample 44100 8000 made --attenuation 120 --fast",
        "0\n--\n… taps: … dB\n… taps: … dB\nlate by 47 frames, which are cut off the end\n\
         made made/graph.toml, stage1.toml, stage2.toml\nrun it: sdfw run made/graph.toml IN.wav OUT.wav\n--\n\
         # fir up 16 shift 15, low-pass 3636..10764 Hz at 705600 Hz, 120 dB\n…\n]\n\
         # fir up 5 shift 15, low-pass 3636..4364 Hz at 72000 Hz, 120 dB\n…\n]\n# from 44100\n# to 8000\n…",
    ),
    (
        "a coefficient file, what it does on standard error, and the graph file",
        "resample 8000 16000 made --attenuation 40 --fast",
        "0\n--\n… taps: … dB\nlate by 26 frames, which are cut off the end\nmade made/graph.toml, stage1.toml\n\
         run it: sdfw run made/graph.toml IN.wav OUT.wav\n--\n\
         # fir up 2 shift 15, low-pass 3636..4364 Hz at 16000 Hz, 40 dB\nformat = 1\nvalues = […\n]\n# from 8000\n\
         # to 16000\n# channels 1\n…to = \"out\"\n",
    ),
];

#[test]
fn filters_and_converters_are_those_asked_for(rt: HostRuntime) -> Result<(), Fail> {
    expect_rows(&rt, FILTERS)?;
    expect_rows(&rt, CONVERTERS)
}
