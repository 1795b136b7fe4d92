//! Ports by the row of a kind.

ghost use Rattle.std.specs.Prelude.{◌≡◌};
ghost use Rattle.sdf_kit.specs.PortRows.{side_of, ports_of};

use crate::ports::{PortRates, Ports};
use sdf_kinds::ports::{PortRow, SideRow};

fn side_of(row: SideRow<u32>) -> PortRates
    ensures { result ≡ side_of row }
{
    match row {
        SideRow::Every { ports, samples } => PortRates::Every {
            ports: ports as usize,
            rate: samples,
        },
        SideRow::InTurn { ports, samples } => PortRates::InTurn {
            ports: ports as usize,
            rate: samples,
        },
    }
}

impl Ports {
    /// Returns the ports of `row`, which has the values of a kind's keys.
    pub fn of_row(row: PortRow<u32>) -> Ports
        ensures { result ≡ ports_of row }
    {
        Ports {
            cycle: row.cycle,
            inputs: side_of(row.inputs),
            outputs: side_of(row.outputs),
        }
    }
}
