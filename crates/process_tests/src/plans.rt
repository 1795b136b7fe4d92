//! Tests of plans: what runs a design in parallel, also one with the most actors, and what input a run of a plan needs.

ghost use Rattle.sdf_plan.specs.Plans.{Suits};

use crate::designs::CHAIN;
use crate::running::fault_told;
use sdf_file::{Design, read_design};
use sdf_options::Options;
use sdf_plan::parallel::{ParallelPlan, parallel_plan};
use sdf_plan::planning::plan;
use sdf_plan::{Execution, Plan};
use sdf_run::run_one;
use std::alloc::{AllocError, Global};
use std::test::Fail;
use test_texts::row_says;

/// A delay of seven samples beside one of five, and then a filter of four taps that takes two samples at a time.
const KEPT: &str = r#"format = 1
actor = [{ name = "in", kind = "input", channel = 0 }, { name = "fork", kind = "fork", ways = 2 },
    { name = "seven", kind = "delay", length = 7 }, { name = "five", kind = "delay", length = 5 },
    { name = "add", kind = "add", ways = 2 }, { name = "low", kind = "fir", down = 2, shift = 0, taps = [1, 1, 1, 1] },
    { name = "out", kind = "output", channel = 0 }]
link = [{ from = "in", to = "fork" }, { from = "fork:0", to = "seven" }, { from = "fork:1", to = "five" },
    { from = "seven", to = "add:0" }, { from = "five", to = "add:1" }, { from = "add", to = "low" },
    { from = "low", to = "out" }]"#;

/// A loop that keeps what comes in for ever.
const LASTING: &str = r#"format = 1
actor = [{ name = "in", kind = "input", channel = 0 }, { name = "add", kind = "add", ways = 2 },
    { name = "fork", kind = "fork", ways = 2 }, { name = "out", kind = "output", channel = 0 }]
link = [{ from = "in", to = "add:0" }, { from = "add", to = "fork" }, { from = "fork:0", to = "out" },
    { from = "fork:1", to = "add:1", initial = [0] }]"#;

/// Reports what runs a design by its plan, in how many parts at once, and why.
fn paced_told(alloc: Global, paced: &ParallelPlan) -> Result<String, Fail> {
    let pace = paced.pace;
    let told = match paced.plan.way() {
        Execution::One { .. } => format!(in alloc; "one {pace:?}"),
        Execution::Parts { parts, .. } => format!(in alloc; "parts {parts} {pace:?}"),
        Execution::Rows(_) | Execution::Rings(_) => format!(in alloc; "workers {pace:?}"),
    };
    told.map_err(Fail::from)
}

/// Reports what runs `design` in parallel.
fn parallel_told(alloc: Global, design: &Design) -> Result<String, Fail> {
    match parallel_plan(alloc, design, 3) {
        Ok(paced) => paced_told(alloc, &paced),
        Err(fault) => fault_told(alloc, fault),
    }
}

/// Reports what runs the design `text` in parallel.
fn parts_told(alloc: Global, text: &str) -> Result<String, Fail> {
    let design = read_design(alloc, text.as_bytes(), &[])?;
    parallel_told(alloc, &design)
}

/// Returns the fault of a run of two periods of `CHAIN` whose input is one sample short.
fn short_told(alloc: Global, design: &Design, plan: &Plan) -> Result<String, Fail>
    requires { Suits design.now.net plan.now }
{
    let short = vec![in alloc; vec![in alloc; 0i32; 293]?]?;
    match run_one(alloc, design.net(), plan.period(), 2, &short) {
        Ok(_) => Ok(String::new(alloc)),
        Err(fault) => format!(in alloc; "{fault:?}").map_err(Fail::from),
    }
}

fn short_run(alloc: Global, design: &Design) -> Result<String, Fail> {
    let plan = plan(alloc, design, &Options::DEFAULT)?;
    short_told(alloc, design, &plan)
}

fn short_chain(alloc: Global) -> Result<String, Fail> {
    let design = read_design(alloc, CHAIN.as_bytes(), &[])?;
    short_run(alloc, &design)
}

/// A design of the most actors, 64 in a line: the input `a0`, the actors `a1` to `a62`, and the output `a63`. Each
/// feeds the next from its port 0 into port 0. `first`, `middle` and `last` are what `a1`, the actors behind it, and
/// `a62` are. `more` is one more link, or none.
#[derive(Clone, Copy)]
struct Line {
    name: &'static str,
    first: &'static str,
    middle: &'static str,
    last: &'static str,
    more: &'static str,
}

/// Delays in a line.
const DELAYS: Line = Line {
    name: "62 delays of a sample, which forget a sample after 62 periods",
    first: "kind = \"delay\"\nlength = 1",
    middle: "kind = \"delay\"\nlength = 1",
    last: "kind = \"delay\"\nlength = 1",
    more: "",
};

/// Gains in a loop that begins with a sample.
const GAINS: Line = Line {
    name: "60 gains in a loop",
    first: "kind = \"add\"\nways = 2",
    middle: "kind = \"gain\"\ngain = 1\nshift = 0",
    last: "kind = \"fork\"\nways = 2",
    more: "[[link]]\nfrom = \"a62:1\"\nto = \"a1:1\"\ninitial = [0]\n",
};

/// The same loop without a sample.
const STUCK_GAINS: Line = Line {
    name: "60 gains in a loop that begins without a sample",
    more: "[[link]]\nfrom = \"a62:1\"\nto = \"a1:1\"\n",
    ..GAINS
};

/// Returns the text of `line`.
fn line_text(alloc: Global, line: &Line) -> Result<String, AllocError> {
    let mut text = String::from_str(
        alloc,
        "format = 1\n[[actor]]\nname = \"a0\"\nkind = \"input\"\nchannel = 0\n",
    )?;
    for (before, number) in (0..62).zip(1..63) {
        let kind = match number {
            1 => line.first,
            62 => line.last,
            _ => line.middle,
        };
        let actor = format!(in alloc;
            "[[actor]]\nname = \"a{number}\"\n{kind}\n[[link]]\nfrom = \"a{before}:0\"\nto = \"a{number}:0\"\n"
        )?;
        text.push_str(actor.as_str())?;
    }
    text.push_str("[[actor]]\nname = \"a63\"\nkind = \"output\"\nchannel = 0\n")?;
    text.push_str("[[link]]\nfrom = \"a62:0\"\nto = \"a63:0\"\n")?;
    text.push_str(line.more)?;
    Ok(text)
}

/// Reports what runs the design of `line` in parallel.
fn line_told(alloc: Global, line: &Line) -> Result<String, Fail> {
    let text = line_text(alloc, line)?;
    parts_told(alloc, text.as_str())
}

/// Returns the fault of `STUCK_GAINS`. The adder waits for the last link, and each other actor for the link before it.
fn stuck_text(alloc: Global) -> Result<String, Fail> {
    let mut text = String::from_str(
        alloc,
        "3 sdfw: 10 Deadlock\na0 1 of 1\na1 0 of 1 short link 63\n",
    )?;
    for (before, number) in (1..63).zip(2..64) {
        let line = format!(in alloc; "a{number} 0 of 1 short link {before}\n")?;
        text.push_str(line.as_str())?;
    }
    Ok(text)
}

/// Tests plans of designs with the most actors: one that forgets its input, one with a loop, and one with a deadlock.
#[test]
fn plans_of_many_actors(rt: HostRuntime) -> Result<(), Fail> {
    let alloc = rt.alloc();
    row_says(
        DELAYS.name,
        line_told(alloc, &DELAYS),
        "parts 3 Parts { workers: 3, periods: 62, samples: 62 }",
    )?;
    row_says(GAINS.name, line_told(alloc, &GAINS), "one Lasting")?;
    let stuck = stuck_text(alloc)?;
    row_says(
        STUCK_GAINS.name,
        line_told(alloc, &STUCK_GAINS),
        stuck.as_str(),
    )
}

/// Tests plans. Refuses a warm-up other than the least: seven samples of the sum come from before, and the first four
/// firings of the filter take these. Two firings later, after six periods, the filter has forgotten them. Refuses also
/// a loop that is cut.
#[test]
fn plans_and_what_they_want(rt: HostRuntime) -> Result<(), Fail> {
    let alloc = rt.alloc();
    row_says(
        "parts begin warm",
        parts_told(alloc, KEPT),
        "parts 3 Parts { workers: 3, periods: 6, samples: 12 }",
    )?;
    row_says(
        "a loop keeps its samples",
        parts_told(alloc, LASTING),
        "one Lasting",
    )?;
    row_says(
        "a chain that keeps no sample is warm at once",
        parts_told(alloc, CHAIN),
        "parts 3 Parts { workers: 3, periods: 0, samples: 0 }",
    )?;
    row_says("runs want whole periods", short_chain(alloc), "InputLength")
}
