//! The ports of each kind by the names of its keys, and the law that a kind has these ports.

ghost use Rattle.std.specs.Prelude.{◌≡◌};
ghost use Rattle.sdf_json.specs.Ports.{ports_of, KindsHaveTheirPorts};

use sdf_kinds::ports::PortRow;
use sdf_kinds::{Kind, ports as rows};

/// A number of ports, samples or firings: none, one, or the value of the key that it is named for.
#[derive(Clone, Copy, Debug, PartialEq, Eq)]
pub enum Amount {
    Zero,
    One,
    Block,
    Up,
    Down,
    Factor,
    Ways,
    Run,
}

/// Returns the ports of `kind`.
pub(crate) fn ports_of(kind: Kind) -> PortRow<Amount>
    ensures { result ≡ ports_of kind }
{
    let one = Amount::One;
    match kind {
        Kind::Input => rows::input(Amount::Block, Amount::Zero, one),
        Kind::Output => rows::output(Amount::Block, Amount::Zero, one),
        Kind::Fir => rows::fir(Amount::Up, Amount::Down, one),
        Kind::Decimate => rows::decimate(Amount::Factor, one),
        Kind::Interpolate => rows::interpolate(Amount::Factor, one),
        Kind::Add => rows::add(Amount::Ways, one),
        Kind::Fork => rows::fork(Amount::Ways, one),
        Kind::Deal => rows::deal(Amount::Ways, Amount::Run, one),
        Kind::Gather => rows::gather(Amount::Ways, Amount::Run, one),
        Kind::Gain | Kind::Delay | Kind::Table | Kind::Clip | Kind::Offset => rows::pointwise(one),
    }
}

/// States that the node of each kind has the ports of its row, by the values of its keys.
pub fn kinds_have_their_ports()
    ensures { KindsHaveTheirPorts }
{}
