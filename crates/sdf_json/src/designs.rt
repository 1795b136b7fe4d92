//! Designs as lines.

ghost use Rattle.std.specs.Prelude.{◌≡◌, ◌<◌, ◌∷◌, [], IfOk, OnOk, length, map, string_bytes, slice_index};
ghost use Rattle.serde_json.specs.Data.{no_members};
ghost use Rattle.serde_json.specs.View.{view, members_view};
ghost use Rattle.sdf_graph.specs.Rates.{rates};
ghost use Rattle.sdf_graph.specs.Periods.{IsLeastPeriod};
ghost use Rattle.sdf_actor.specs.Graphs.{graph_of};
ghost use Rattle.sdf_kit.specs.Kit.{kit_steps};
ghost use Rattle.sdf_json.specs.Values.{with, each_to};
ghost use Rattle.sdf_json.specs.Designs.{actor_value, end_value, ends_of, link_value, rate_member, check_value};
ghost use Rattle.sdf_json.specs.Designs.{IsCheckJson};

use crate::values::{Members, line_of, put_number, put_text};
use sdf_file::Design;
use sdf_graph::Repetitions;
use serde_json::{Map, Value, put};
use std::alloc::{AllocError, Global};

fn actor_value(
    alloc: Global,
    design: &Design,
    repetitions: &Repetitions,
    actor: usize,
) -> Result<Value, AllocError>
    requires { actor < length repetitions.now }
    ensures { IfOk result (λ v. view v ≡ actor_value design.now repetitions.now actor) }
{
    let mut members = Map::new(alloc);
    put_text(&mut members, alloc, "name", design.name(actor))?;
    put_number(
        &mut members,
        alloc,
        "firings",
        u64::from(repetitions.of(actor)),
    )?;
    Ok(Value::Object(members))
}

/// Returns the values of the actors, in file order.
fn actors(
    alloc: Global,
    design: &Design,
    repetitions: &Repetitions,
) -> Result<Vec<Value>, AllocError>
    requires { length repetitions.now ≡ length design.now.net.nodes }
    ensures { IfOk result (λ list. map view list.items ≡
        each_to (actor_value design.now repetitions.now) (length design.now.net.nodes)) }
{
    let mut list = Vec::new(alloc);
    for actor in 0..design.net().len() {
        list.push(actor_value(alloc, design, repetitions, actor)?)?;
    }
    Ok(list)
}

fn end_value(alloc: Global, design: &Design, end: (usize, usize)) -> Result<Value, AllocError>
    ensures { IfOk result (λ v. view v ≡ end_value design.now end) }
{
    let (actor, port) = end;
    let mut members = Map::new(alloc);
    put_text(&mut members, alloc, "actor", design.name(actor))?;
    put_number(&mut members, alloc, "port", port as u64)?;
    Ok(Value::Object(members))
}

/// Returns the members of the ends of `link`.
pub(crate) fn ends_of(alloc: Global, design: &Design, link: usize) -> Result<Members, AllocError>
    requires { link < length design.now.net.wires }
    ensures { IfOk result (λ m. members_view m.entries ≡ with no_members (ends_of design.now link)) }
{
    let link = design.net().link(link);
    let from = end_value(alloc, design, link.from)?;
    let to = end_value(alloc, design, link.to)?;
    let mut members = Map::new(alloc);
    put(&mut members, alloc, "from", from)?;
    put(&mut members, alloc, "to", to)?;
    Ok(members)
}

fn link_value(alloc: Global, design: &Design, link: usize) -> Result<Value, AllocError>
    requires { link < length design.now.net.wires }
    ensures { IfOk result (λ v. view v ≡ link_value design.now link) }
{
    Ok(Value::Object(ends_of(alloc, design, link)?))
}

/// Returns the values of the links, in file order.
fn links(alloc: Global, design: &Design) -> Result<Vec<Value>, AllocError>
    ensures { IfOk result (λ list. map view list.items ≡
        each_to (link_value design.now) (length design.now.net.wires)) }
{
    let mut list = Vec::new(alloc);
    for link in 0..design.net().channels() {
        list.push(link_value(alloc, design, link)?)?;
    }
    Ok(list)
}

/// Adds the rate in Hz that a design is made for, if it has one.
fn put_rate(members: &mut Members, alloc: Global, rate: Option<u32>) -> Result<(), AllocError>
    ensures { OnOk result (members_view members.new.entries ≡
        with (members_view members.old.entries) (rate_member rate)) }
{
    match rate {
        Some(rate) => put_number(members, alloc, "rate", u64::from(rate)),
        None => Ok(()),
    }
}

fn check_value(
    alloc: Global,
    design: &Design,
    repetitions: &Repetitions,
) -> Result<Value, AllocError>
    requires { IsLeastPeriod (rates (graph_of kit_steps design.now.net)) repetitions.now }
    ensures { IfOk result (λ v. view v ≡ check_value design.now repetitions.now) }
{
    let actors = actors(alloc, design, repetitions)?;
    let links = links(alloc, design)?;
    let net = design.net();
    let mut members = Map::new(alloc);
    put(&mut members, alloc, "actors", Value::Array(actors))?;
    put(&mut members, alloc, "links", Value::Array(links))?;
    put_number(
        &mut members,
        alloc,
        "period",
        u64::from(repetitions.period()),
    )?;
    put_number(&mut members, alloc, "input", net.samples_in() as u64)?;
    put_number(&mut members, alloc, "output", net.samples_out() as u64)?;
    put_rate(&mut members, alloc, design.rate())?;
    Ok(Value::Object(members))
}

/// Returns `design` as a line of JSON: its actors with their firings in a period, its links, and the firings of a
/// period. Then come the samples that each input puts and each output takes in a period, and the rate in Hz that it is
/// made for, if it has one.
pub fn check_json(alloc: Global, design: &Design) -> Result<String, AllocError>
    ensures { IfOk result (λ text. IsCheckJson design.now (string_bytes text)) }
{
    let value = check_value(alloc, design, design.net().repetitions())?;
    line_of(alloc, &value)
}
