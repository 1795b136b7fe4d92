//! Preparation of the seats of a run.

ghost use Rattle.std.specs.Prelude.{◌≡◌, ◌*◌, ◌≤◌, ◌<◌, ℕ, length, slice_index, vec_len, IfOk, MatchResult};
ghost use Rattle.sdf_graph.specs.Rates.{rates};
ghost use Rattle.sdf_prec.specs.Tables.{row, IsHomed};
ghost use Rattle.sdf_actor.specs.declared.sides.Lists.TheVariants.{Inputs};
ghost use Rattle.sdf_actor.specs.Graphs.{graph_of};
ghost use Rattle.sdf_actor.specs.Sides.{period_samples};
ghost use Rattle.sdf_actor.specs.Wires.{lists};
ghost use Rattle.sdf_queues.specs.RunResults.{HasInputs};
ghost use Rattle.sdf_prec.specs.BlockTables.{IsBlockTableOf};
ghost use Rattle.sdf_rings.specs.Begun.{IsStart};
ghost use Rattle.sdf_rings.specs.Prepared.{IsPrepared, IsAsked, IsPrepareFault};

use crate::rings::Rings;
use crate::setup::assignment::Assignment;
use crate::setup::firing_counts::asked;
use crate::setup::openings::open_rings;
use crate::setup::places::places;
use crate::setup::ring_nodes::Start;
use crate::setup::seats::seats;
use sdf_actor::{Actor, Net};
use sdf_prec::{BlockTable, Table};
use sdf_queues::inputs::{are_inputs, first_sample};
use sdf_queues::outputs::make_outputs;
use sdf_queues::sizes::samples_of_blocks;
use sdf_queues::{RunFault, Sizes};
use std::alloc::{AllocError, Global};

/// Returns the seats of a run of `blocks` blocks of `table`.
fn build_rings<'a, A: Actor>(
    alloc: Global,
    start: &Start<'a, A>,
    table: &Table,
    blocks: u32,
) -> Result<Rings<'a, A>, AllocError>
    requires start { IsStart A.steps start.now }
    requires plan { IsAsked A.steps start.now.net.now table.now blocks (slice_index start.now.asked.items) }
    requires homed { IsHomed table.now }
    ensures { IfOk result (IsPrepared A.steps start.now.net.now (lists start.now.inputs.now) table.now blocks) }
{
    let places = places(alloc, table, start.net.len())?;
    let mut ends = open_rings(alloc, start.net, table)?;
    let assigned = Assignment {
        places: &places,
        order: table.order(),
        blocks,
    };
    let seats = seats(alloc, start, &assigned, &mut ends, table.columns())?;
    let outputs = make_outputs(alloc, start.net.outputs(), 0)?;
    Ok(Rings::new(alloc, start.net, start.inputs, seats, places, outputs))
}

/// Returns the seats of a run. Each actor must have a home in `table`, and `inputs` must fit the run.
fn prepare_homed<'a, A: Actor>(
    alloc: Global,
    net: &'a Net<A>,
    table: &BlockTable,
    blocks: u32,
    inputs: &'a [Vec<A::Token>],
) -> Result<Rings<'a, A>, AllocError>
    requires fits { IsBlockTableOf (rates (graph_of A.steps net.now)) table.now }
    requires homed { IsHomed table.now.table }
    requires inputs { let t = table.now in
        HasInputs net.now t.period.repetitions (blocks * t.blocking) (lists inputs.now) }
    requires some { 0 < period_samples net.now.nodes Inputs table.now.period.repetitions }
    ensures { IfOk result (IsPrepared A.steps net.now (lists inputs.now) table.now.table blocks) }
{
    let start = Start {
        net,
        inputs,
        sizes: Sizes::new(alloc, net)?,
        asked: asked(alloc, table.period.repetitions(), table.blocking, blocks)?,
        room: samples_of_blocks(blocks, table.blocking, net.samples_out()),
        filler: first_sample(inputs),
    };
    build_rings(alloc, &start, &table.table, blocks)
}

impl<'a, A: Actor> Rings<'a, A> {
    /// Returns the seats of a run of `blocks` blocks before its first round. Each processor of `table` has a seat with
    /// the actors at home there and their firing list. Each channel has a ring of the table's capacity with its initial
    /// samples. A ring from an actor to itself has room for one more block. Fails with 30 NotHomed, tested first, or 29
    /// InputLength.
    pub fn prepare(
        alloc: Global,
        net: &'a Net<A>,
        table: &BlockTable,
        blocks: u32,
        inputs: &'a [Vec<A::Token>],
    ) -> Result<Rings<'a, A>, RunFault>
        requires fits { IsBlockTableOf (rates (graph_of A.steps net.now)) table.now }
        ensures { let t = table.now in let q = t.period.repetitions in let j = t.blocking in MatchResult result
            (λ r. IsHomed t.table × HasInputs net.now q (blocks * j) (lists inputs.now)
            × IsPrepared A.steps net.now (lists inputs.now) t.table blocks r)
            (IsPrepareFault net.now q (blocks * j) (lists inputs.now) t.table) }
    {
        if !table.table.homed() {
            return Err(RunFault::NotHomed);
        }
        let least = samples_of_blocks(blocks, table.blocking, net.samples_in());
        if !are_inputs(inputs, net.inputs(), least) {
            return Err(RunFault::InputLength);
        }
        Ok(prepare_homed(alloc, net, table, blocks, inputs)?)
    }
}
