//! Schedules, analyses and pictures of designs whose periods have many firings.

ghost use Rattle.sdf_plan.specs.Plans.{AreSizes};

use crate::files::design_of;
use crate::making::converter_design;
use anyhow::Result;
use bench_inputs::graphs::Graph;
use bench_inputs::numbers::{Numbers, show};
use sdf_analyze::{analyze, compare};
use sdf_draw::svg;
use sdf_file::Design;
use sdf_filters::converter_texts;
use sdf_json::schedule_json;
use sdf_options::{Options, Placement, Policy};
use sdf_texts::schedule::schedule;
use std::alloc::Global;

/// A design that a seed makes.
#[derive(Clone, Copy)]
enum Input {
    /// Stages whose period has about `firings` firings.
    Staged { firings: u32 },
    /// A converter between two common rates.
    Converter { attenuation: u32 },
}

impl Input {
    /// Returns the design.
    fn design(self, alloc: Global, numbers: &mut Numbers) -> Result<Design> {
        match self {
            Input::Staged { firings } => design_of(alloc, Graph::Staged { firings }, numbers),
            Input::Converter { attenuation } => converter(alloc, attenuation),
        }
    }
}

fn converter(alloc: Global, attenuation: u32) -> Result<Design> {
    let texts = converter_texts(alloc, 44_100, 48_000, 1, attenuation)?;
    converter_design(alloc, &texts)
}

/// What is printed of a schedule.
#[derive(Clone, Copy)]
enum Report {
    Schedule,
    Json,
    Analysis,
    Comparison,
    /// A comparison of blocks of several periods.
    Blocks,
    Picture,
}

impl Report {
    /// Returns the text of a report on the schedule that `options` give a design.
    fn text(self, alloc: Global, design: &Design, options: &Options) -> Result<String> {
        let text = match self {
            Report::Schedule => schedule(alloc, design, options),
            Report::Json => schedule_json(alloc, design, options),
            Report::Analysis => analyze(alloc, design, options),
            Report::Comparison => compare(alloc, design, &widest(options)),
            Report::Blocks => compare(alloc, design, &in_blocks(options)),
            Report::Picture => svg(alloc, design, options),
        };
        Ok(text?)
    }
}

/// Returns the options with 16 workers and blocks of one period.
fn widest(options: &Options) -> Options
    ensures { AreSizes result }
{
    Options {
        workers: 16,
        blocking: 1,
        ..*options
    }
}

/// Returns the options with 4 workers and blocks of 4 periods.
fn in_blocks(options: &Options) -> Options
    ensures { AreSizes result }
{
    Options {
        workers: 4,
        blocking: 4,
        ..*options
    }
}

/// A report on the schedule of a design whose period has the firings that are asked for, divided by `part`.
#[derive(Clone, Copy)]
struct Question {
    name: &'static str,
    report: Report,
    policy: Policy,
    placement: Placement,
    workers: usize,
    part: u32,
}

const QUESTIONS: [Question; 8] = [
    Question {
        name: "schedule, hu",
        report: Report::Schedule,
        policy: Policy::Round,
        placement: Placement::Hu,
        workers: 16,
        part: 1,
    },
    Question {
        name: "schedule, lean",
        report: Report::Schedule,
        policy: Policy::Lean,
        placement: Placement::Homed,
        workers: 4,
        part: 1,
    },
    Question {
        name: "schedule, runs",
        report: Report::Schedule,
        policy: Policy::Runs,
        placement: Placement::Spread,
        workers: 4,
        part: 1,
    },
    Question {
        name: "schedule as JSON",
        report: Report::Json,
        policy: Policy::Round,
        placement: Placement::Homed,
        workers: 4,
        part: 4,
    },
    Question {
        name: "analysis",
        report: Report::Analysis,
        policy: Policy::Round,
        placement: Placement::Homed,
        workers: 1,
        part: 1,
    },
    Question {
        name: "analysis, spread",
        report: Report::Analysis,
        policy: Policy::Runs,
        placement: Placement::Spread,
        workers: 16,
        part: 1,
    },
    Question {
        name: "picture",
        report: Report::Picture,
        policy: Policy::Round,
        placement: Placement::Homed,
        workers: 4,
        part: 8,
    },
    Question {
        name: "comparison",
        report: Report::Comparison,
        policy: Policy::Round,
        placement: Placement::Homed,
        workers: 16,
        part: 20,
    },
];

impl Question {
    /// Returns the options of the schedule.
    fn options(&self) -> Options {
        Options {
            workers: self.workers,
            policy: self.policy,
            placement: self.placement,
            ..Options::DEFAULT
        }
    }
}

const CONVERTED: Question = Question {
    name: "comparison of a converter",
    report: Report::Blocks,
    policy: Policy::Round,
    placement: Placement::Homed,
    workers: 4,
    part: 1,
};

/// Prints a digest of each report, on new designs whose periods have about `firings` firings, and on a converter.
pub(crate) fn print_reports<R: AllocGlobal + Print>(
    rt: &R,
    numbers: &mut Numbers,
    firings: u32,
) -> Result<()> {
    for question in &QUESTIONS {
        let firings = firings.checked_div(question.part).unwrap_or(0);
        print_report(rt, numbers, question, Input::Staged { firings })?;
    }
    let attenuation = numbers.between(60, 100);
    print_report(rt, numbers, &CONVERTED, Input::Converter { attenuation })
}

/// Prints a digest of a report on a new design.
fn print_report<R: AllocGlobal + Print>(
    rt: &R,
    numbers: &mut Numbers,
    question: &Question,
    input: Input,
) -> Result<()> {
    let design = input.design(rt.alloc(), numbers)?;
    answer(rt, question, &design)
}

/// Prints a digest of a report on a design.
fn answer<R: AllocGlobal + Print>(rt: &R, question: &Question, design: &Design) -> Result<()> {
    let options = question.options();
    let text = question.report.text(rt.alloc(), design, &options)?;
    Ok(show(rt, question.name, text.as_bytes())?)
}
