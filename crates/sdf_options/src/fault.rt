//! Faults of reading a command line.

ghost use Rattle.std.specs.Prelude.{◌≡◌};
ghost use Rattle.sdf_options.specs.Limits.{IsUsage};
ghost use Rattle.sdf_options.specs.declared.fault.WordFault.TheVariants as fault;

use clap::Command;
use clap::error::ErrorKind;
use std::alloc::{AllocError, AllocFailed, Global};
use thiserror::Error;

/// The reason why a command line was not read.
#[derive(Debug, Drop, Error)]
pub enum WordFault {
    #[error("1 OutOfMemory")]
    OutOfMemory,
    /// A mistake in the words, or a request for help or the version, with the text for the user.
    #[error(transparent)]
    Usage(clap::Error),
}

impl From<AllocError> for WordFault {
    ghost from_gives = { λ _ e. e ≡ fault.OutOfMemory };

    fn from(_error: AllocError) -> WordFault {
        WordFault::OutOfMemory
    }
}

impl<T: Drop> From<AllocFailed<T>> for WordFault {
    ghost from_gives = { λ _ e. e ≡ fault.OutOfMemory };

    fn from(_error: AllocFailed<T>) -> WordFault {
        WordFault::OutOfMemory
    }
}

impl From<clap::Error> for WordFault {
    ghost use Rattle.sdf_options.specs.Faults.{of_clap};

    ghost from_gives = { λ error e. e ≡ of_clap error };

    fn from(error: clap::Error) -> WordFault {
        match error.kind() {
            ErrorKind::OutOfMemory => WordFault::OutOfMemory,
            _ => WordFault::Usage(error),
        }
    }
}

/// Returns the usage error with the message `text`.
pub fn usage_error(alloc: Global, text: &str) -> WordFault
    ensures { IsUsage result }
{
    let mut command = Command::new(alloc, "sdfw").override_usage("sdfw <COMMAND>");
    match command.error(ErrorKind::InvalidValue, text) {
        Ok(error) => WordFault::from(error),
        Err(_) => WordFault::OutOfMemory,
    }
}
