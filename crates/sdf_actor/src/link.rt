//! Links.

ghost use Rattle.std.specs.Prelude.{◌≡◌};
ghost use Rattle.sdf_actor.specs.Sides.{end_of};
ghost use Rattle.sdf_actor.specs.Wires.{wire_of};

use crate::sides::Side;

/// A channel from an output port to an input port, with its initial samples. An end is a node and one of its ports.
#[derive(Drop)]
pub struct Link<T> {
    pub from: (usize, usize),
    pub to: (usize, usize),
    pub initial: Vec<T>,
}

impl<T> Link<T> {
    /// Returns its end at the input port or at the output port, as `side` says.
    pub(crate) fn end(&self, side: Side) -> (usize, usize)
        ensures { result ≡ end_of side (wire_of self.now) }
    {
        match side {
            Side::Input => self.to,
            Side::Output => self.from,
        }
    }
}
