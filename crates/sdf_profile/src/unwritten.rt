//! Faults of writing costs into a graph file's text.

ghost use Rattle.std.specs.Prelude.{◌≡◌};
ghost use Rattle.sdf_profile.specs.declared.unwritten.Unwritten.TheVariants.{OutOfMemory};

use std::alloc::{AllocError, AllocFailed};
use thiserror::Error;

/// The reason why costs can't be written into a graph file's text.
#[derive(Clone, Copy, Debug, PartialEq, Eq, Error)]
pub enum Unwritten {
    #[error("memory was refused")]
    OutOfMemory,
    /// The number of lines `[[actor]]`, if it is not the number of costs.
    #[error("{0} tables [[actor]], not one for each cost")]
    Tables(usize),
    /// The number of an actor whose cost is written in another form than `cost = 12`.
    #[error("the cost of actor {0} is not on a line of its own")]
    Cost(usize),
    /// The text with the costs would be another design, or would not be a design.
    #[error("new costs would change more than costs")]
    Reading,
}

impl From<AllocError> for Unwritten {
    ghost from_gives = { λ _ e. e ≡ OutOfMemory };

    fn from(_e: AllocError) -> Unwritten {
        Unwritten::OutOfMemory
    }
}

impl<T: Drop> From<AllocFailed<T>> for Unwritten {
    ghost from_gives = { λ _ e. e ≡ OutOfMemory };

    fn from(_e: AllocFailed<T>) -> Unwritten {
        Unwritten::OutOfMemory
    }
}
