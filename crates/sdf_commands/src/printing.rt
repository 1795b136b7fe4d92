//! The commands that print a text.

ghost use Rattle.sdf_options.specs.Limits.{AreWithinLimits};

use sdf_analyze::analyze;
use sdf_cli::{Format, OVERVIEW, Picture, explanation};
use sdf_draw::{dot, svg};
use sdf_faults::Fault;
use sdf_file::Design;
use sdf_io::files::put;
use sdf_json::{analysis_json, check_json, kinds_json, schedule_json};
use sdf_kinds::kinds_text;
use sdf_options::Options;
use sdf_plan::planning::plan;
use sdf_texts::check_text;
use sdf_texts::schedule::schedule;
use std::alloc::{AllocError, Global};
use std::io::Write;

/// Prints `answer`.
pub fn show<O: Write>(out: &mut O, answer: &str) -> Result<(), Fault> {
    put(out, answer.as_bytes())
}

/// Checks that `design` can be scheduled.
pub(crate) fn test_plan(alloc: Global, design: &Design) -> Result<(), Fault> {
    plan(alloc, design, &Options::DEFAULT)?;
    Ok(())
}

/// Prints a description of `design`, if it can be scheduled.
pub fn print_check<O: Write>(
    alloc: Global,
    out: &mut O,
    design: &Design,
    format: Format,
) -> Result<(), Fault> {
    test_plan(alloc, design)?;
    let text = match format {
        Format::Text => check_text(alloc, design)?,
        Format::Json => check_json(alloc, design)?,
    };
    show(out, text.as_str())
}

/// Prints the schedule of `design`.
pub fn print_schedule<O: Write>(
    alloc: Global,
    out: &mut O,
    design: &Design,
    options: &Options,
    format: Format,
) -> Result<(), Fault> {
    let text = match format {
        Format::Text => schedule(alloc, design, options)?,
        Format::Json => schedule_json(alloc, design, options)?,
    };
    show(out, text.as_str())
}

/// Prints the figures of the schedule of `design`.
pub fn print_analysis<O: Write>(
    alloc: Global,
    out: &mut O,
    design: &Design,
    options: &Options,
    format: Format,
) -> Result<(), Fault>
    requires { AreWithinLimits options.now }
{
    let text = match format {
        Format::Text => analyze(alloc, design, options)?,
        Format::Json => analysis_json(alloc, design, options)?,
    };
    show(out, text.as_str())
}

/// Prints the `picture` of `design`.
pub fn print_picture<O: Write>(
    alloc: Global,
    out: &mut O,
    design: &Design,
    options: &Options,
    picture: Picture,
) -> Result<(), Fault> {
    let text = match picture {
        Picture::Svg => svg(alloc, design, options)?,
        Picture::Dot => dot(alloc, design)?,
    };
    show(out, text.as_str())
}

/// Returns the table of kinds.
fn kinds_listing(alloc: Global, format: Format) -> Result<String, AllocError> {
    match format {
        Format::Text => kinds_text(alloc),
        Format::Json => kinds_json(alloc),
    }
}

/// Prints the table of kinds.
pub fn print_kinds<O: Write>(alloc: Global, out: &mut O, format: Format) -> Result<(), Fault> {
    show(out, kinds_listing(alloc, format)?.as_str())
}

/// Prints the explanation of the fault of this `number`.
pub fn print_meaning<O: Write>(alloc: Global, out: &mut O, number: u32) -> Result<(), Fault> {
    show(out, explanation(alloc, number)?.as_str())
}

/// Prints the overview of all commands.
pub fn print_overview<O: Write>(out: &mut O) -> Result<(), Fault> {
    show(out, OVERVIEW)
}
