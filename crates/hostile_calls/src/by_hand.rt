//! Rounds by hand over prepared rings. Their calls do not allocate memory.

ghost use Rattle.sdf_graph.specs.Rates.{rates};
ghost use Rattle.sdf_actor.specs.Graphs.{graph_of};
ghost use Rattle.sdf_kit.specs.Kit.{kit_steps};
ghost use Rattle.sdf_prec.specs.BlockTables.{IsBlockTableOf};
ghost use Rattle.sdf_rings.specs.Rests.{HaveMet};

use crate::runs::{BLOCKS, inputs_of};
use crate::{TURNS, print_turn};
use anyhow::Result;
use sdf_actor::Net;
use sdf_kit::Kit;
use sdf_prec::BlockTable;
use sdf_rings::Rings;
use sdf_run::NoGate;
use std::io;

/// Runs a round of all seats for each firing that is left, and ends each round. Returns the output lists if nothing is
/// left then.
fn finish(mut rings: Rings<'_, Kit>) -> Option<Vec<Vec<i32>>> {
    for _ in 0..rings.left() {
        for seat in 0..rings.seats() {
            if seat < rings.seats() {
                rings.work_one(seat, 0, &NoGate);
            }
        }
        rings.meet().ok()?;
    }
    rings.meet().ok()?;
    if rings.left() > 0 {
        return None;
    }
    Some(rings.finish())
}

fn show_lists(rt: &impl Print, answer: Option<Vec<Vec<i32>>>) -> io::Result<()> {
    match answer {
        Some(lists) => println!(rt; "made {lists:?}"),
        None => println!(rt; "something is left"),
    }
}

/// Runs the rounds of a run over rings, twice. Each time the rings are prepared before the line is printed.
pub(crate) fn finish_twice<R: AllocGlobal + Print>(
    rt: &R,
    net: &Net<Kit>,
    table: &BlockTable,
) -> Result<()>
    requires fits { IsBlockTableOf (rates (graph_of kit_steps net.now)) table.now }
{
    let inputs = inputs_of(rt.alloc(), net, BLOCKS.saturating_mul(table.blocking))?;
    for turn in TURNS {
        let rings = Rings::prepare(rt.alloc(), net, table, BLOCKS, &inputs)?;
        print_turn(rt, turn)?;
        show_lists(rt, finish(rings))?;
    }
    Ok(())
}
