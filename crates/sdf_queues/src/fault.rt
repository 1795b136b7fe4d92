//! Faults of runs.

ghost use Rattle.std.specs.Prelude.{◌≡◌};

use std::alloc::AllocError;
use thiserror::Error;

/// The reason why there was no run.
#[derive(Debug, Clone, Copy, PartialEq, Eq, Error)]
pub enum RunFault {
    /// An allocation was refused.
    #[error("1 OutOfMemory")]
    OutOfMemory,
    /// There are more or fewer input lists than the net reads, or they differ in length, or are too short. In a session
    /// they must also be whole blocks.
    #[error("29 InputLength")]
    InputLength,
    /// The table has an actor in two columns.
    #[error("30 NotHomed")]
    NotHomed,
    /// The spin limit is out of range.
    #[error("31 Patience")]
    Patience,
    /// A worker could not be started. No runner returns this: the workers run one after another instead.
    #[error("32 NoWorker")]
    NoWorker,
    /// A session is used again after memory was refused in it.
    #[error("33 SessionFailed")]
    SessionFailed,
}

impl From<AllocError> for RunFault {
    ghost use Rattle.sdf_queues.specs.declared.fault.RunFault.TheVariants.{OutOfMemory};

    ghost from_gives = { λ _ e. e ≡ OutOfMemory };

    fn from(_: AllocError) -> RunFault {
        RunFault::OutOfMemory
    }
}
