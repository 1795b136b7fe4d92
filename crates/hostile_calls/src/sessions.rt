//! Calls of sessions.

ghost use Rattle.sdf_graph.specs.Rates.{rates};
ghost use Rattle.sdf_actor.specs.Graphs.{graph_of};
ghost use Rattle.sdf_kit.specs.Kit.{kit_steps};
ghost use Rattle.sdf_prec.specs.BlockTables.{IsBlockTableOf};

use crate::runs::{BLOCKS, inputs_of, patience_of, show_ran};
use crate::{TURNS, print_turn};
use anyhow::Result;
use sdf_actor::Net;
use sdf_kit::Kit;
use sdf_plan::Plan;
use sdf_prec::BlockTable;
use sdf_run::{Mode, NoGate, RunFault, Session};
use std::alloc::Global;
use std::io;
use std::thread::Threads;

/// Opens a session of the plan's runner.
fn open<'a>(
    alloc: Global,
    net: &'a Net<Kit>,
    plan: &Plan,
    table: &'a BlockTable,
) -> Result<Session<'a, Kit>, RunFault>
    requires fits { IsBlockTableOf (rates (graph_of kit_steps net.now)) table.now }
{
    let mode = match patience_of(plan) {
        Some(patience) => Mode::Rings { patience },
        None => Mode::Rows,
    };
    Session::open(alloc, net, table, mode)
}

fn show_session(rt: &impl Print, answer: Result<Session<'_, Kit>, RunFault>) -> io::Result<()> {
    match answer {
        Ok(_) => println!(rt; "session"),
        Err(fault) => println!(rt; "{fault}"),
    }
}

fn show_closed(rt: &impl Print, session: Session<'_, Kit>) -> io::Result<()> {
    match session.close() {
        Ok(closed) => {
            let blocks = closed.blocks;
            println!(rt; "closed, {blocks} blocks")
        }
        Err(fault) => println!(rt; "{fault}"),
    }
}

/// Opens a session, twice.
pub(crate) fn open_twice<R: AllocGlobal + Print>(
    rt: &R,
    net: &Net<Kit>,
    plan: &Plan,
    table: &BlockTable,
) -> Result<()>
    requires fits { IsBlockTableOf (rates (graph_of kit_steps net.now)) table.now }
{
    for turn in TURNS {
        print_turn(rt, turn)?;
        show_session(rt, open(rt.alloc(), net, plan, table))?;
    }
    Ok(())
}

/// Feeds `session` with `inputs` twice, and then with `none`.
fn feed<R: AllocGlobal + Print + Sync + Threads>(
    rt: &R,
    session: &mut Session<'_, Kit>,
    inputs: &[Vec<i32>],
    none: &[Vec<i32>],
) -> io::Result<()> {
    show_ran(rt, session.feed(rt, inputs, &NoGate))?;
    show_ran(rt, session.feed(rt, inputs, &NoGate))?;
    show_ran(rt, session.feed(rt, none, &NoGate))
}

/// Opens a session before the line, and then feeds it: the same samples twice, and then none. Closes it, and does all
/// this twice.
pub(crate) fn feed_twice<R: AllocGlobal + Print + Sync + Threads>(
    rt: &R,
    net: &Net<Kit>,
    plan: &Plan,
    table: &BlockTable,
) -> Result<()>
    requires fits { IsBlockTableOf (rates (graph_of kit_steps net.now)) table.now }
{
    let inputs = inputs_of(rt.alloc(), net, BLOCKS.saturating_mul(table.blocking))?;
    let none = inputs_of(rt.alloc(), net, 0)?;
    for turn in TURNS {
        let mut session = open(rt.alloc(), net, plan, table)?;
        print_turn(rt, turn)?;
        feed(rt, &mut session, &inputs, &none)?;
        show_closed(rt, session)?;
    }
    Ok(())
}
