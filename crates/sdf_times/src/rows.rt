//! The time of a block whose rows are done one after another.

ghost use Rattle.std.specs.Prelude.{◌≡◌, ℕ, ◌≤◌, ◌<◌, length, slice_index, Option, Some};
ghost use Rattle.sdf_graph.specs.Rates.{rates};
ghost use Rattle.sdf_prec.specs.declared.firing.Firing.{Firing};
ghost use Rattle.sdf_prec.specs.Costs.{AreCosts};
ghost use Rattle.sdf_prec.specs.Tables.{cell_of};
ghost use Rattle.sdf_times.specs.Times.{IsBlockTable, cost_in};
ghost use Rattle.sdf_times.specs.ByRows.{greatest_to, time_by_rows};

use crate::loads::cost_at;
use sdf_graph::Graph;
use sdf_limits::MAX_COST;
use sdf_prec::{Costs, Firing, Table};

/// Returns the greatest cost of the firings in `cells`, or 0 if there are none.
fn greatest_cost(costs: &Costs, cells: &[Option<Firing>]) -> u64
    requires { (j : ℕ) (f : Firing) → cell_of cells.now j ≡ Some f → f.actor < length costs.now }
    ensures is { result ≡ greatest_to (λ j. cost_in (slice_index costs.now) (cell_of cells.now j)) (length cells.now) }
    ensures small { result ≤ MAX_COST }
{
    let mut most = 0u64;
    for cell in cells {
        most = most.max(cost_at(costs, *cell));
    }
    most
}

/// Returns what the block of `table` takes if each row starts when all firings of the row before have ended: the sum of
/// each row's greatest cost. No table ends later than that (`laws::rows_take_longer`).
pub fn by_rows(graph: &Graph, table: &Table, costs: &Costs) -> u64
    requires costs { AreCosts graph.now.actors costs.now }
    requires table { (m : ℕ) × IsBlockTable (rates graph.now) m table.now }
    ensures { result ≡ time_by_rows (slice_index costs.now) table.now.rows }
{
    let mut time = 0;
    for i in 0..table.rows() {
        time += greatest_cost(costs, table.row(i));
    }
    time
}
