//! The total capacity of a table's channels.

ghost use Rattle.std.specs.Prelude.{◌≡◌, ℕ, sum};
ghost use Rattle.sdf_graph.specs.Rates.{rates};
ghost use Rattle.sdf_times.specs.Times.{IsBlockTable};

use sdf_graph::Graph;
use sdf_prec::Table;

/// Returns the sum of the capacities of a table's channels, in samples.
pub fn held(graph: &Graph, table: &Table) -> u64
    requires { (m : ℕ) × IsBlockTable (rates graph.now) m table.now }
    ensures { result ≡ sum table.now.caps }
{
    let mut held = 0;
    for channel in 0..graph.channels().len() {
        held += table.cap(channel);
    }
    held
}
