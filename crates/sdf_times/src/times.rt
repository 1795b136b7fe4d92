//! The times of a table.

ghost use Rattle.std.specs.Prelude.{◌≡◌, ℕ, ◌≤◌, ◌<◌, length, slice_index, IfOk};
ghost use Rattle.sdf_graph.specs.Rates.{rates};
ghost use Rattle.sdf_prec.specs.declared.firing.Firing.{Firing};
ghost use Rattle.sdf_prec.specs.Costs.{AreCosts};
ghost use Rattle.sdf_times.specs.Times.{IsGreatest, IsInTable, AreStarts, IsMakespan, IsBlockTable, load_of, start_in};
ghost use Rattle.sdf_times.specs.Times.{HasStart};

use crate::loads::loads;
use crate::starts::{Starts, no_starts};
use crate::walk::fire_row;
use sdf_graph::Graph;
use sdf_prec::{Costs, Firing, Table};
use std::alloc::{AllocError, Global};
use std::marker::Model;

/// The start times of a table's firings, the time at which the last one ends, and the loads of its columns.
#[derive(Drop)]
pub struct Times {
    starts: Vec<Starts>,
    makespan: u64,
    loads: Vec<u64>,
}

impl Model for Times {
    ghost use Rattle.sdf_times.specs.Times.{TimesValue};

    ghost Value = { TimesValue };

    ghost view = { λ t. record { starts = t.starts.items; makespan = t.makespan; loads = t.loads.items } };
}

/// Returns the greatest of `times`, or 0 if there are none.
fn greatest(times: &[u64]) -> u64
    ensures { IsGreatest (λ u. (j : ℕ) × (j < length times.now) × (slice_index times.now j ≡ u)) result }
{
    let mut most = 0u64;
    for time in times {
        most = most.max(*time);
    }
    most
}

impl Times {
    /// Finds the times of a table with `m` columns. Each firing starts when the firing before it in its column and all
    /// firings that it waits for have ended. It ends its cost later, so times are in units of cost.
    ///
    /// The time taken is linear in the cells and in the firings, and for each firing in the links into its actor.
    pub fn of(
        alloc: Global,
        graph: &Graph,
        table: &Table,
        m: usize,
        costs: &Costs,
    ) -> Result<Times, AllocError>
        requires costs { AreCosts graph.now.actors costs.now }
        requires table { IsBlockTable (rates graph.now) m table.now }
        ensures starts { IfOk result (λ t. AreStarts (rates graph.now) (slice_index costs.now) table.now.rows
            (start_in t.starts)) }
        ensures has { IfOk result (λ t. (f : Firing) → IsInTable table.now.rows f → HasStart t.starts f) }
        ensures makespan { IfOk result (λ t. IsMakespan (slice_index costs.now) table.now.rows
            (start_in t.starts) t.makespan) }
        ensures columns { IfOk result (λ t. length t.loads ≡ m) }
        ensures loads { IfOk result (λ t. (j : ℕ) → j < m →
            slice_index t.loads j ≡ load_of (slice_index costs.now) table.now.rows j) }
    {
        let mut starts = no_starts(alloc, graph.actors())?;
        let mut until = vec![in alloc; 0u64; m]?;
        for i in 0..table.rows() {
            fire_row(graph, costs, table, i, &mut starts, &mut until)?;
        }
        let makespan = greatest(&until);
        let loads = loads(alloc, table, costs, m)?;
        Ok(Times {
            starts,
            makespan,
            loads,
        })
    }

    /// Returns when `firing` starts.
    pub fn start(&self, firing: Firing) -> u64
        requires { HasStart self.now.starts firing }
        ensures { result ≡ start_in self.now.starts firing }
    {
        self.starts[firing.actor].of(firing.number as usize)
    }

    /// Returns when the last firing ends.
    pub fn makespan(&self) -> u64
        ensures { result ≡ self.now.makespan }
    {
        self.makespan
    }

    /// Returns the cost of all firings in `column`, which one worker does.
    pub fn load(&self, column: usize) -> u64
        requires { column < length self.now.loads }
        ensures { result ≡ slice_index self.now.loads column }
    {
        self.loads[column]
    }
}
