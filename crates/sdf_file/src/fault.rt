//! Faults of reading a design.
ghost use Rattle.std.specs.Prelude.{◌≡◌};

use sdf_actor::NetFault;
use sdf_document::{DocumentFault, ReadFault};
use std::alloc::{AllocError, AllocFailed};
use thiserror::Error;

/// The reason why files do not give a design. It prints its number and its name, then its place if it has one.
#[derive(Debug, Drop, Error)]
pub enum FileFault {
    /// An allocation was refused.
    #[error("1 OutOfMemory")]
    OutOfMemory,
    /// The first test that the graph file or one of its coefficient files fails.
    #[error(transparent)]
    Document(DocumentFault),
    /// The first test that the net of its actors and links fails. It is never `OutOfMemory`.
    #[error(transparent)]
    Net(NetFault),
}

impl From<AllocError> for FileFault {
    ghost use Rattle.sdf_file.specs.declared.fault.FileFault.TheVariants.{OutOfMemory};

    ghost from_gives = { λ _ f. f ≡ OutOfMemory };

    fn from(_: AllocError) -> FileFault {
        FileFault::OutOfMemory
    }
}

impl<T: Drop> From<AllocFailed<T>> for FileFault {
    ghost use Rattle.sdf_file.specs.declared.fault.FileFault.TheVariants.{OutOfMemory};

    ghost from_gives = { λ _ f. f ≡ OutOfMemory };

    fn from(_: AllocFailed<T>) -> FileFault {
        FileFault::OutOfMemory
    }
}

impl From<ReadFault> for FileFault {
    ghost use Rattle.sdf_file.specs.Faults.{of_read};

    ghost from_gives = { λ e f. f ≡ of_read e };

    fn from(fault: ReadFault) -> FileFault {
        match fault {
            ReadFault::OutOfMemory => FileFault::OutOfMemory,
            ReadFault::Document(fault) => FileFault::Document(fault),
        }
    }
}

impl From<NetFault> for FileFault {
    ghost use Rattle.sdf_file.specs.Faults.{of_net};

    ghost from_gives = { λ e f. f ≡ of_net e };

    fn from(fault: NetFault) -> FileFault {
        match fault {
            NetFault::OutOfMemory => FileFault::OutOfMemory,
            other => FileFault::Net(other),
        }
    }
}
