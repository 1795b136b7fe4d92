//! Tests of parallel runs, over files in memory.

use crate::commands::{Row, expect_rows, told};
use std::test::Fail;
use std::thread::{Threads, available_parallelism};
use std::time::Clock;
use test_texts::says;

/// A design in which a sample becomes 4,096 and one again, after a filter that keeps one input.
pub(crate) const RECENT: &str = r#"format = 1
actor = [{ name = "in", kind = "input", channel = 0 }, { name = "newest", kind = "fir", shift = 0, taps = [1, 0] },
    { name = "up", kind = "interpolate", factor = 64 }, { name = "top", kind = "interpolate", factor = 64 },
    { name = "same", kind = "decimate", factor = 64 }, { name = "down", kind = "decimate", factor = 64 },
    { name = "out", kind = "output", channel = 0 }]
link = [{ from = "in", to = "newest" }, { from = "newest", to = "up" }, { from = "up", to = "top" },
    { from = "top", to = "same" }, { from = "same", to = "down" }, { from = "down", to = "out" }]"#;

/// Parallel runs write what one thread writes. A worker runs one period of `stretched` at first, so sixteen periods
/// keep five workers busy. The filter of `kept` keeps five inputs, and the loop of `lasting` may keep its samples for
/// ever.
const PARALLEL: &[Row] = &[
    (
        "heavy parallel 2",
        "run heavy.toml in.wav out.wav --parallel 2",
        "0\n--\n--\n<5 -5>",
    ),
    (
        "heavy parallel 2 why",
        "run heavy.toml in.wav out.wav --parallel 2 --why",
        "0\n--\n2 workers, each on its own part of the sound after 0 periods (0 samples) of warm-up\n\
         output 0: 2 frames, peak -76.3 dB, 0 samples at full scale\n--\n<5 -5>",
    ),
    (
        "wider parallel 16 why",
        "run wider.toml silence.wav out.wav --parallel 16 --why",
        "0\n--\n16 workers, each on its own part of the sound after 0 periods (0 samples) of warm-up\n\
         output 0: 16 frames, no peak, 0 samples at full scale\n--\n<another sound>",
    ),
    (
        "stretched parallel 5 why",
        "run stretched.toml silence.wav out.wav --parallel 5 --why",
        "0\n--\n5 workers, each on its own part of the sound after 0 periods (0 samples) of warm-up\n\
         output 0: 768000 frames, no peak, 0 samples at full scale\n--\n<another sound>",
    ),
    (
        "kept parallel 3 why",
        "run kept.toml in.wav out.wav --parallel 3 --why",
        "0\n--\none thread: the sound is shorter than two parts\n\
         output 0: 2 frames, peak -76.3 dB, 0 samples at full scale\n--\n<5 -5>",
    ),
    (
        "recent parallel 2 why, with one sample of warm-up",
        "run recent.toml silence.wav out.wav --parallel 2 --why",
        "0\n--\n2 workers, each on its own part of the sound after 1 period (1 sample) of warm-up\n\
         output 0: 16 frames, no peak, 0 samples at full scale\n--\n<another sound>",
    ),
    (
        "lasting parallel 4 why",
        "run lasting.toml in.wav out.wav --parallel 4 --why",
        "0\n--\none thread: the loop add -> fork -> none may keep its samples for ever\n\
         output 0: 2 frames, peak -76.3 dB, 0 samples at full scale\n--\n<5 -5>",
    ),
    (
        "heavy parallel 1 why",
        "run heavy.toml in.wav out.wav --parallel 1 --why",
        "0\n--\none thread: there is one worker\n\
         output 0: 2 frames, peak -76.3 dB, 0 samples at full scale\n--\n<5 -5>",
    ),
    (
        "branches parallel 2 why",
        "run branches.toml in.wav out.wav --parallel 2 --why",
        "0\n--\n2 workers, each on its own part of the sound after 0 periods (0 samples) of warm-up\n\
         output 0: 2 frames, peak -76.3 dB, 0 samples at full scale\n--\n<5 -5>",
    ),
    (
        "line parallel 4 why",
        "run line.toml in.wav out.wav --parallel 4 --why",
        "0\n--\n2 workers, each on its own part of the sound after 0 periods (0 samples) of warm-up\n\
         output 0: 2 frames, peak -76.3 dB, 0 samples at full scale\n--\n<5 -5>",
    ),
    (
        "plain parallel",
        "run plain.toml in.wav out.wav --parallel",
        "0\n--\n--\n<5 -5>",
    ),
    (
        "stuck parallel 4",
        "run stuck.toml in.wav out.wav --parallel 4",
        "3\n--\nsdfw: 10 Deadlock\nin 1 of 1\nadd 0 of 1 short link 3\nfork 0 of 1 short link 1\nout 0 of 1 short \
         link 2\n--\n",
    ),
];

/// Options that can't be given with `--parallel`, each with a value that it takes, and numbers of workers out of range.
const REFUSED: &[Row] = &[
    (
        "runner beside it",
        "run plain.toml in.wav out.wav --parallel 2 --runner rings",
        "2\n--\nerror: …",
    ),
    (
        "workers beside it",
        "run plain.toml in.wav out.wav --parallel 2 --workers 2",
        "2\n--\nerror: …",
    ),
    (
        "placement beside it",
        "run plain.toml in.wav out.wav --parallel 2 --placement spread",
        "2\n--\nerror: …",
    ),
    (
        "blocking beside it",
        "run plain.toml in.wav out.wav --parallel 2 --blocking 1",
        "2\n--\nerror: …",
    ),
    (
        "policy beside it",
        "run plain.toml in.wav out.wav --parallel 2 --policy runs",
        "2\n--\nerror: …",
    ),
    (
        "patience beside it",
        "run plain.toml in.wav out.wav --parallel 2 --patience 1000",
        "2\n--\nerror: …",
    ),
    (
        "parallel beside it",
        "run plain.toml in.wav out.wav --parallel 2 --parallel 3",
        "2\n--\nerror: …",
    ),
    (
        "0 workers",
        "run plain.toml in.wav out.wav --parallel 0",
        "2\n--\nerror: …",
    ),
    (
        "17 workers",
        "run plain.toml in.wav out.wav --parallel 17",
        "2\n--\nerror: …",
    ),
    (
        "x workers",
        "run plain.toml in.wav out.wav --parallel x",
        "2\n--\nerror: …",
    ),
];

/// Returns the number of workers of a program that is given none: one for each processor, at most 16.
pub(crate) fn processors<T: Threads>(rt: &T) -> usize {
    match available_parallelism(rt) {
        Ok(processors) => processors.get().min(16),
        Err(_) => 4,
    }
}

/// Serves a parallel run with the number of processors as the number of workers, and returns the report.
fn by_number<T: Threads + AllocGlobal + Clock + Clone + Drop + Sync>(
    rt: &T,
) -> Result<String, Fail> {
    let workers = processors(rt);
    let line = format!(in rt.alloc();
        "run steep.toml silence.wav out.wav --parallel {workers} --why"
    )?;
    told(rt, &line)
}

/// Tests parallel runs. If no number of workers is given, refuses one that is not the number of processors.
#[test]
fn runs_in_parallel(rt: HostRuntime) -> Result<(), Fail> {
    expect_rows(&rt, PARALLEL)?;
    expect_rows(&rt, REFUSED)?;
    let wanted = by_number(&rt)?;
    says(
        told(&rt, "run steep.toml silence.wav out.wav --parallel --why"),
        wanted.as_str(),
    )
}
