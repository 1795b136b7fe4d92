//! Steps of a chain of firings, each of which waits for the one before.

use sdf_prec::Firing;

/// Why a firing waits for another.
#[derive(Debug, Clone, Copy, PartialEq, Eq)]
pub enum Hold {
    /// Both stand in one column: the other in row `from`, and it in row `to`.
    Worker {
        column: usize,
        from: usize,
        to: usize,
    },
    /// It needs what the other puts on a channel.
    Samples {
        channel: usize,
    },
    /// It needs the room of what the other takes from a channel.
    Room {
        channel: usize,
    },
}

/// A step of a chain: a firing, how many blocks it is after the firing before in the chain, and why it waits for that.
#[derive(Debug, Clone, Copy, PartialEq, Eq)]
pub struct Step {
    pub firing: Firing,
    pub blocks: u32,
    pub hold: Hold,
}
