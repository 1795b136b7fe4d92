//! The lines of a profile.

ghost use Rattle.std.specs.Prelude.{◌≡◌, ◌≤◌, ◌++◌, length, IfOk, OnOk, string_bytes};
ghost use Rattle.sdf_profile.specs.Times.{whole, percent, time_text, firings_text, share_line, cost_line};
ghost use Rattle.sdf_profile.specs.Times.{shares_to, costs_to, profile_text};

use crate::costs::{quotient, time_of};
use crate::stopwatch::Spent;
use sdf_file::Design;
use std::alloc::{AllocError, Global};

/// Returns the nanoseconds of all firings.
fn whole(spent: &[Spent]) -> u64
    ensures { result ≡ whole spent.now }
{
    let mut whole = 0u64;
    for one in spent {
        whole = whole.saturating_add(one.nanoseconds);
    }
    whole
}

/// Adds the share of `part` in `whole`, in percent, rounded down to hundredths.
fn push_share(text: &mut String, part: u64, whole: u64) -> Result<(), AllocError>
    ensures { OnOk result (string_bytes text.new ≡ string_bytes text.old ++ percent part whole) }
{
    let share = quotient(u128::from(part) * 10_000, whole);
    let ones = share / 100;
    let tenths = share / 10 % 10;
    let rest = share % 10;
    write!(text, " {ones}.{tenths}{rest} %")?;
    Ok(())
}

/// Adds `time`, in picoseconds, as a text in nanoseconds with tenths.
fn push_time(text: &mut String, time: u64) -> Result<(), AllocError>
    ensures { OnOk result (string_bytes text.new ≡ string_bytes text.old ++ time_text time) }
{
    let nanoseconds = time / 1000;
    let tenths = time / 100 % 10;
    write!(text, "{nanoseconds}.{tenths} ns")?;
    Ok(())
}

/// Adds the number of an actor's `firings`.
fn push_firings(text: &mut String, firings: u64) -> Result<(), AllocError>
    ensures { OnOk result (string_bytes text.new ≡ string_bytes text.old ++ firings_text firings) }
{
    match firings {
        1 => text.push_str(", 1 firing of "),
        _ => write!(text, ", {firings} firings of "),
    }
}

/// Adds the line of an actor's share.
#[tactic(auto, unfolding(crate::specs::Times::share_line))]
fn push_actor(text: &mut String, name: &str, whole: u64, spent: Spent) -> Result<(), AllocError>
    ensures { OnOk result (string_bytes text.new ≡ string_bytes text.old ++ share_line name.now whole spent) }
{
    write!(text, "share {name}")?;
    push_share(text, spent.nanoseconds, whole)?;
    push_firings(text, spent.firings)?;
    push_time(text, time_of(spent))?;
    text.push_str("\n")
}

/// Adds the line of each actor's share, in file order.
#[tactic(auto, unfolding(crate::specs::Times::shares_to))]
fn push_shares(text: &mut String, design: &Design, spent: &[Spent]) -> Result<(), AllocError>
    ensures { OnOk result (string_bytes text.new ≡
        string_bytes text.old ++ shares_to design.now.names spent.now (length spent.now)) }
{
    let whole = whole(spent);
    for actor in 0..spent.len() {
        push_actor(text, design.name(actor), whole, spent[actor])?;
    }
    Ok(())
}

/// Adds the line of the cost of an actor's firing.
#[tactic(auto, unfolding(crate::specs::Times::cost_line))]
fn push_cost(text: &mut String, name: &str, cost: u32) -> Result<(), AllocError>
    ensures { OnOk result (string_bytes text.new ≡ string_bytes text.old ++ cost_line name.now cost) }
{
    writeln!(text, "cost {name} {cost}")?;
    Ok(())
}

/// Adds the line of the cost of each actor's firing, in file order.
#[tactic(auto, unfolding(crate::specs::Times::costs_to))]
fn push_costs(text: &mut String, design: &Design, costs: &[u32]) -> Result<(), AllocError>
    ensures { OnOk result (string_bytes text.new ≡
        string_bytes text.old ++ costs_to design.now.names costs.now (length costs.now)) }
{
    for actor in 0..costs.len() {
        push_cost(text, design.name(actor), costs[actor])?;
    }
    Ok(())
}

/// Returns the text of a profile: the shares, then the costs.
pub(crate) fn profile_text(
    alloc: Global,
    design: &Design,
    spent: &[Spent],
    costs: &[u32],
) -> Result<String, AllocError>
    ensures { IfOk result (λ text. string_bytes text ≡ profile_text design.now.names spent.now costs.now) }
{
    let mut text = String::new(alloc);
    push_shares(&mut text, design, spent)?;
    push_costs(&mut text, design, costs)?;
    Ok(text)
}
