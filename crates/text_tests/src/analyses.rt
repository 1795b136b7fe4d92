//! Worked designs: a fork of two ways with three rows of costs, two actors that move blocks, and a block of 1,024
//! periods.

use sdf_analyze::{analyze, compare};
use sdf_file::{Design, read_design};
use sdf_options::{Options, Placement};
use std::alloc::Global;
use std::test::Fail;
use test_texts::says;

/// Returns a design with two ways from the actor `two` to `sum`: over `a`, and over `b` and `c`. The parameters are the
/// costs of `two` and `a`.
fn fork(alloc: Global, two: u32, a: u32) -> Result<Design, Fail> {
    let text = format!(in alloc;
        "format = 1
actor = [{{ name = \"in\", kind = \"input\", channel = 0 }},
    {{ name = \"two\", kind = \"fork\", ways = 2, cost = {two} }},
    {{ name = \"a\", kind = \"gain\", gain = 1, shift = 0, cost = {a} }},
    {{ name = \"b\", kind = \"gain\", gain = 1, shift = 0 }},
    {{ name = \"c\", kind = \"gain\", gain = 1, shift = 0 }},
    {{ name = \"sum\", kind = \"add\", ways = 2 }},
    {{ name = \"out\", kind = \"output\", channel = 0 }}]
link = [{{ from = \"in\", to = \"two\" }}, {{ from = \"two:0\", to = \"a\" }},
    {{ from = \"two:1\", to = \"b\" }}, {{ from = \"a\", to = \"sum:0\" }},
    {{ from = \"b\", to = \"c\" }}, {{ from = \"c\", to = \"sum:1\" }},
    {{ from = \"sum\", to = \"out\" }}]"
    )?;
    Ok(read_design(alloc, text.as_bytes(), &[])?)
}

/// The links of the fork, each of which holds one sample.
const LINKS: &str =
    "samples held 7, 28 bytes\ncapacity in:0 two:0 1, 4 bytes\ncapacity two:0 a:0 1, 4 bytes\n\
    capacity two:1 b:0 1, 4 bytes\ncapacity a:0 sum:0 1, 4 bytes\ncapacity b:0 c:0 1, 4 bytes\n\
    capacity c:0 sum:1 1, 4 bytes\ncapacity sum:0 out:0 1, 4 bytes\n";

/// Returns the analysis of `design` on two workers.
fn analysis(alloc: Global, design: &Design, placement: Placement) -> Result<String, Fail> {
    let options = Options {
        workers: 2,
        placement,
        ..Options::DEFAULT
    };
    Ok(analyze(alloc, design, &options)?)
}

/// Returns the analysis of the fork with these costs, except its links.
fn figures(alloc: Global, two: u32, a: u32) -> Result<String, Fail> {
    let text = analysis(alloc, &fork(alloc, two, a)?, Placement::Homed)?;
    match text.as_str().strip_suffix(LINKS) {
        Some(figures) => Ok(String::from_str(alloc, figures)?),
        None => Ok(text),
    }
}

/// The costs of `two` and `a`, and the figures.
const FORKS: &[(u32, u32, &str)] = &[
    (
        1,
        1,
        "makespan 6\nwork 7\nspan 6\nbound 6\nspeedup 1.16 of 2\nworker 0 66 %\nworker 1 50 %\n",
    ),
    (
        1,
        3,
        "makespan 7\nwork 9\nspan 7\nbound 7\nspeedup 1.28 of 2\nworker 0 71 %\nworker 1 57 %\n",
    ),
    (
        4,
        3,
        "makespan 10\nwork 12\nspan 10\nbound 10\nspeedup 1.20 of 2\nworker 0 60 %\nworker 1 60 %\n",
    ),
];

/// Tests the figures of forks. An `analyze` that always reports refused memory fails here.
#[test]
fn figures_of_forks(rt: HostRuntime) -> Result<(), Fail> {
    for (two, a, wanted) in FORKS {
        says(figures(rt.alloc(), *two, *a), wanted)?;
    }
    Ok(())
}

/// Blocks of two samples go in, and blocks of three come out, on processors of their own.
const BLOCKS: &str = "format = 1
actor = [{ name = \"in\", kind = \"input\", channel = 0, block = 2, processor = 0 },
    { name = \"out\", kind = \"output\", channel = 0, block = 3, processor = 1 }]
link = [{ from = \"in\", to = \"out\" }]";

/// The comparison of the blocks. With four workers there would be three lines for each policy and placement. On one
/// worker `file` has no table. On two it has six samples on the link by the policy `runs`, and four by the others. With
/// `spread` one worker has both actors. A block then has 170 periods, since 6 samples go 170 times into 1,024, and all
/// firings of `in` are first.
const COMPARED: &str =
    "policy placement workers blocking     makespan  speedup    rows        samples
round  hu              1        1            5     1.00       5              6
round  hu              2        1           *4    *1.25      *4              6
round  homed           1        1            5     1.00       5              6
round  homed           2        1           *4    *1.25      *4              6
round  file            1               refused 19
round  file            2        1           *4    *1.25       5             *4
round  spread          1      170         *850     1.00    *850          *1020
round  spread          2      170         *850     1.00    *850          *1020
lean   hu              1        1            5     1.00       5              6
lean   hu              2        1           *4    *1.25      *4              6
lean   homed           1        1            5     1.00       5              6
lean   homed           2        1           *4    *1.25      *4              6
lean   file            1               refused 19
lean   file            2        1           *4    *1.25       5             *4
lean   spread          1      170         *850     1.00    *850          *1020
lean   spread          2      170         *850     1.00    *850          *1020
runs   hu              1        1            5     1.00       5              6
runs   hu              2        1           *4    *1.25      *4              6
runs   homed           1        1            5     1.00       5              6
runs   homed           2        1           *4    *1.25      *4              6
runs   file            1               refused 19
runs   file            2        1           *4    *1.25       5              6
runs   spread          1      170         *850     1.00    *850          *1020
runs   spread          2      170         *850     1.00    *850          *1020
";

/// Returns the comparison of the schedules of the blocks.
fn comparison(alloc: Global) -> Result<String, Fail> {
    let design = read_design(alloc, BLOCKS.as_bytes(), &[])?;
    let options = Options {
        workers: 3,
        placement: Placement::File,
        ..Options::DEFAULT
    };
    Ok(compare(alloc, &design, &options)?)
}

/// Tests the comparison. A `compare` that always reports refused memory fails here.
#[test]
fn blocks_compared(rt: HostRuntime) -> Result<(), Fail> {
    says(comparison(rt.alloc()), COMPARED)
}

/// An input that is linked to an output, one sample at a time.
const CHAIN: &str = "format = 1
actor = [{ name = \"in\", kind = \"input\", channel = 0 }, { name = \"out\", kind = \"output\", channel = 0 }]
link = [{ from = \"in\", to = \"out\" }]";

/// The analysis of a block of 1,024 samples, in which one worker has both actors. In the longest chain each firing
/// waits for the one before: all of `in` and the last of `out`, or the first of `in` and all of `out`.
const LONG: &str =
    "makespan 2048\nwork 2048\nspan 1025\nbound 1025\nspeedup 1.00 of 2\nworker 0 0 %\n\
    worker 1 100 %\nsamples held 1024, 4096 bytes\ncapacity in:0 out:0 1024, 4096 bytes\n";

/// Returns the analysis of the long block.
fn long_block(alloc: Global) -> Result<String, Fail> {
    let design = read_design(alloc, CHAIN.as_bytes(), &[])?;
    analysis(alloc, &design, Placement::Spread)
}

/// Tests the figures of a long block. Code that handles only blocks of at most 64 periods fails here.
#[test]
fn figures_of_a_long_block(rt: HostRuntime) -> Result<(), Fail> {
    says(long_block(rt.alloc()), LONG)
}
