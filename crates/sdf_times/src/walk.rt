//! A walk over the cells of a table, row by row. Each firing starts when its column is idle and all firings that it
//! waits for have ended.

ghost use Rattle.std.specs.Prelude.{◌≡◌, ℕ, ◌+◌, ◌<◌, ◌^◌, length, slice_index, IfOk};
ghost use Rattle.sdf_graph.specs.Rates.{rates};
ghost use Rattle.sdf_prec.specs.Costs.{AreCosts};
ghost use Rattle.sdf_prec.specs.Tables.{IsTable};
ghost use Rattle.sdf_times.specs.Walks.{IsPast, IsWalk, IsPrepared, IsFired};

use crate::needs::ready_time;
use crate::starts::Starts;
use sdf_graph::Graph;
use sdf_limits::MAX_BLOCK;
use sdf_prec::{Costs, Firing, Table};
use std::alloc::AllocError;

/// Starts `firing` in `column`.
fn fire(
    graph: &Graph,
    costs: &Costs,
    firing: Firing,
    column: usize,
    starts: &mut Vec<Starts>,
    until: &mut Vec<u64>,
) -> Result<(), AllocError>
    requires costs { AreCosts graph.now.actors costs.now }
    requires prepared { IsPrepared (rates graph.now) (slice_index costs.now) starts.old.items firing }
    requires column { column < length until.old.items }
    requires small { slice_index until.old.items column < 2 ^ 40 }
    ensures { IfOk result (λ _. IsFired (rates graph.now) (slice_index costs.now) firing column starts.old.items
        until.old.items starts.new.items until.new.items) }
{
    let start = until[column].max(ready_time(graph, starts, costs, firing));
    until[column] = start + u64::from(costs.of(firing.actor));
    starts[firing.actor].push(start)?;
    Ok(())
}

/// Starts the firings of row `i`.
pub(crate) fn fire_row(
    graph: &Graph,
    costs: &Costs,
    table: &Table,
    i: usize,
    starts: &mut Vec<Starts>,
    until: &mut Vec<u64>,
) -> Result<(), AllocError>
    requires costs { AreCosts graph.now.actors costs.now }
    requires table { (n : ℕ → ℕ) × IsTable (rates graph.now) n (length until.old.items) table.now }
    requires within { i < length table.now.rows }
    requires short { i < MAX_BLOCK }
    requires walk { IsWalk (rates graph.now) (slice_index costs.now) table.now.rows (IsPast i 0) starts.old.items
        until.old.items }
    ensures walk { IfOk result (λ _. IsWalk (rates graph.now) (slice_index costs.now) table.now.rows (IsPast (i + 1) 0)
        starts.new.items until.new.items) }
    ensures wide { IfOk result (λ _. length until.new.items ≡ length until.old.items) }
{
    for (column, cell) in table.row(i).iter().enumerate() {
        if let Some(firing) = cell {
            fire(graph, costs, *firing, column, starts, until)?;
        }
    }
    Ok(())
}
