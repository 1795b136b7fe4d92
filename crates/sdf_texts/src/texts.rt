//! The texts of designs.
ghost use Rattle.std.specs.Prelude.{◌≡◌, ◌++◌, IfOk, OnOk, length, string_bytes};
ghost use Rattle.sdf_texts.specs.Texts.{q_line, q_lines, period_text, rate_line, check_text, IsCheckText};
ghost use Rattle.sdf_graph.specs.Rates.{rates};
ghost use Rattle.sdf_graph.specs.Periods.{IsLeastPeriod};
ghost use Rattle.sdf_actor.specs.Graphs.{graph_of};
ghost use Rattle.sdf_kit.specs.Kit.{kit_steps};

use sdf_file::Design;
use sdf_graph::Repetitions;
use std::alloc::{AllocError, Global};

fn push_q_line(text: &mut String, name: &str, count: u32) -> Result<(), AllocError>
    ensures { OnOk result (string_bytes text.new ≡ string_bytes text.old ++ q_line name.now count) }
{
    writeln!(text, "q {name} {count}")?;
    Ok(())
}

/// Adds a line for each actor, with its name and its number of firings in a period.
fn push_q_lines(
    text: &mut String,
    design: &Design,
    repetitions: &Repetitions,
) -> Result<(), AllocError>
    requires { length repetitions.now ≡ length design.now.net.nodes }
    ensures { OnOk result (string_bytes text.new ≡
        string_bytes text.old ++ q_lines design.now repetitions.now (length design.now.net.nodes)) }
{
    for actor in 0..design.net().len() {
        push_q_line(text, design.name(actor), repetitions.of(actor))?;
    }
    Ok(())
}

/// Adds the number of firings in a period, and the firings of each actor, which are the repetition vector.
pub(crate) fn push_period(
    text: &mut String,
    design: &Design,
    repetitions: &Repetitions,
) -> Result<(), AllocError>
    requires { length repetitions.now ≡ length design.now.net.nodes }
    ensures { OnOk result (string_bytes text.new ≡ string_bytes text.old ++ period_text design.now repetitions.now) }
{
    let period = repetitions.period();
    writeln!(text, "period {period}")?;
    push_q_lines(text, design, repetitions)
}

/// Adds the line of the rate in Hz that a design is made for, if it has one.
fn push_rate(text: &mut String, rate: Option<u32>) -> Result<(), AllocError>
    ensures { OnOk result (string_bytes text.new ≡ string_bytes text.old ++ rate_line rate) }
{
    match rate {
        Some(rate) => writeln!(text, "rate {rate}"),
        None => Ok(()),
    }
}

fn text_with(
    alloc: Global,
    design: &Design,
    repetitions: &Repetitions,
) -> Result<String, AllocError>
    requires { IsLeastPeriod (rates (graph_of kit_steps design.now.net)) repetitions.now }
    ensures { IfOk result (λ s. string_bytes s ≡ check_text design.now repetitions.now) }
{
    let net = design.net();
    let actors = net.len();
    let links = net.channels();
    let input = net.samples_in();
    let output = net.samples_out();
    let mut text = format!(in alloc; "actors {actors}\nlinks {links}\n")?;
    push_period(&mut text, design, repetitions)?;
    writeln!(text, "input {input} output {output}")?;
    push_rate(&mut text, design.rate())?;
    Ok(text)
}

/// Returns the text of a design: the numbers of its actors and links, and the repetition vector with its sum.
///
/// Then it has the samples that each input puts and each output takes in a period, and last the rate that the design is
/// made for, if it has one.
pub fn check_text(alloc: Global, design: &Design) -> Result<String, AllocError>
    ensures { IfOk result (λ s. IsCheckText design.now (string_bytes s)) }
{
    let repetitions = design.net().repetitions();
    Ok(text_with(alloc, design, repetitions)?)
}
