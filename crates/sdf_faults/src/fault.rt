//! The faults of the program: their numbers, texts and exit statuses.

ghost use Rattle.std.specs.Prelude.{◌≡◌, IfOk, string_bytes};
ghost use Rattle.sdf_faults.specs.declared.fault.Fault.TheVariants.{OutOfMemory};
ghost use Rattle.sdf_faults.specs.Faults.{IsFaultText};
ghost use Rattle.sdf_faults.specs.Statuses.{status_of};

use clap::error::ErrorKind;
use sdf_file::FileFault;
use sdf_options::WordFault;
use sdf_options::printable::{printable, printable_lines};
use sdf_prec::PrecFault;
use sdf_queues::RunFault;
use sdf_wav::{FormatFault, WavFault};
use std::alloc::{AllocError, AllocFailed, Global};
use std::fmt;
use thiserror::Error;

/// The progress of an actor of a deadlocked design: `done` of its `of` firings in a period. If it is unfinished,
/// `short` is its first link that holds too few tokens.
#[derive(Debug, Drop)]
pub struct Progress {
    pub name: String,
    pub done: u32,
    pub of: u32,
    pub short: Option<usize>,
}

impl fmt::Display for Progress {
    fn fmt<W: fmt::Write>(&self, f: &mut fmt::Formatter<W>) -> fmt::Result {
        let name = self.name.as_str();
        let done = self.done;
        let of = self.of;
        write!(f, "{name} {done} of {of}")?;
        match self.short {
            Some(link) => write!(f, " short link {link}"),
            None => Ok(()),
        }
    }
}

/// The actors of a deadlocked design, in file order. Each prints as a line of its own.
#[derive(Debug, Drop)]
pub struct Stalled {
    pub actors: Vec<Progress>,
}

impl fmt::Display for Stalled {
    fn fmt<W: fmt::Write>(&self, f: &mut fmt::Formatter<W>) -> fmt::Result {
        for actor in &self.actors {
            write!(f, "\n{actor}")?;
        }
        Ok(())
    }
}

/// The reason why a command was not carried out. It prints its number and its name, then its place if it has one.
#[derive(Debug, Error)]
pub enum Fault {
    #[error("1 OutOfMemory")]
    OutOfMemory,
    /// A mistake on the command line, or a request for help or the version. `fault_text` prints
    /// the parser's text, without the usage if only a value is wrong.
    #[error(transparent)]
    Words(WordFault),
    /// The fault of the design: 2, 3, 6 to 9, 20 to 28, 49 to 58. It is never `OutOfMemory`.
    #[error(transparent)]
    File(FileFault),
    /// No sequence of enabled firings completes a period.
    #[error("10 Deadlock{0}")]
    Deadlock(Stalled),
    #[error("11 BlockingFactor")]
    BlockingFactor,
    #[error("12 WorkerCount")]
    WorkerCount,
    /// The fault of a table that is refused: 13 `BlockTooLong` or 19 `BadHome`. It is never `OutOfMemory`.
    #[error(transparent)]
    Table(PrecFault),
    /// Input lists that are too short. The program never makes them.
    #[error("29 InputLength")]
    InputLength,
    /// An actor of the table is on two processors, so no worker has all its firings.
    #[error("30 NotHomed")]
    NotHomed,
    /// A spin limit above the greatest one: more repeated tests in a round than a worker may do.
    #[error("31 Patience")]
    Patience,
    /// A worker could not be started. No runner returns this today.
    #[error("32 NoWorker")]
    NoWorker,
    /// A session was used again after memory was refused. The program never does so.
    #[error("33 SessionFailed")]
    SessionFailed,
    /// The fault of a WAV file, read or to be written: 34 to 46.
    #[error(transparent)]
    Wav(FormatFault),
    /// A file can't be opened, or its reader failed.
    #[error("47 Read")]
    Read,
    /// A file can't be made, or its writer failed.
    #[error("48 Write")]
    Write,
    /// The design reads a channel that the WAV file does not have.
    #[error("59 ChannelsMissing")]
    ChannelsMissing,
    /// The output's rate would not be a whole number.
    #[error("60 RateNotWhole")]
    RateNotWhole,
}

/// Not derived: a derived drop is expanded, with all that each fault holds, wherever a fault may be dropped.
impl Drop for Fault {
    fn drop(self) {
        match self {
            Fault::Words(_)
            | Fault::File(_)
            | Fault::Deadlock(_)
            | Fault::Table(_)
            | Fault::Wav(_) => {}
            Fault::OutOfMemory
            | Fault::BlockingFactor
            | Fault::WorkerCount
            | Fault::InputLength
            | Fault::NotHomed
            | Fault::Patience
            | Fault::NoWorker
            | Fault::SessionFailed
            | Fault::Read
            | Fault::Write
            | Fault::ChannelsMissing
            | Fault::RateNotWhole => {}
        }
    }
}

impl From<AllocError> for Fault {
    ghost from_gives = { λ _ f. f ≡ OutOfMemory };

    fn from(_: AllocError) -> Fault {
        Fault::OutOfMemory
    }
}

impl<T: Drop> From<AllocFailed<T>> for Fault {
    ghost from_gives = { λ _ f. f ≡ OutOfMemory };

    fn from(_: AllocFailed<T>) -> Fault {
        Fault::OutOfMemory
    }
}

impl From<WordFault> for Fault {
    ghost use Rattle.sdf_faults.specs.Faults.{of_words};

    ghost from_gives = { λ e f. f ≡ of_words e };

    fn from(fault: WordFault) -> Fault {
        match fault {
            WordFault::OutOfMemory => Fault::OutOfMemory,
            usage => Fault::Words(usage),
        }
    }
}

impl From<PrecFault> for Fault {
    ghost use Rattle.sdf_faults.specs.Faults.{of_prec};

    ghost from_gives = { λ e f. f ≡ of_prec e };

    fn from(fault: PrecFault) -> Fault {
        match fault {
            PrecFault::OutOfMemory => Fault::OutOfMemory,
            other => Fault::Table(other),
        }
    }
}

impl From<FileFault> for Fault {
    ghost use Rattle.sdf_faults.specs.Faults.{of_file};

    ghost from_gives = { λ e f. f ≡ of_file e };

    fn from(fault: FileFault) -> Fault {
        match fault {
            FileFault::OutOfMemory => Fault::OutOfMemory,
            other => Fault::File(other),
        }
    }
}

impl From<WavFault> for Fault {
    ghost use Rattle.sdf_faults.specs.Faults.{of_wav};

    ghost from_gives = { λ e f. f ≡ of_wav e };

    fn from(fault: WavFault) -> Fault {
        match fault {
            WavFault::OutOfMemory => Fault::OutOfMemory,
            WavFault::Format(fault) => Fault::Wav(fault),
            WavFault::Read => Fault::Read,
            WavFault::Write => Fault::Write,
        }
    }
}

impl From<RunFault> for Fault {
    ghost use Rattle.sdf_faults.specs.Faults.{of_run};

    ghost from_gives = { λ e f. f ≡ of_run e };

    fn from(fault: RunFault) -> Fault {
        match fault {
            RunFault::OutOfMemory => Fault::OutOfMemory,
            RunFault::InputLength => Fault::InputLength,
            RunFault::NotHomed => Fault::NotHomed,
            RunFault::Patience => Fault::Patience,
            RunFault::NoWorker => Fault::NoWorker,
            RunFault::SessionFailed => Fault::SessionFailed,
        }
    }
}

/// Returns the exit status of `fault`: 2 usage (0 for help or the version), 3 the design or the plan, 4 the WAV file,
/// 5 a device, 6 memory, a worker or a session.
pub fn status(fault: &Fault) -> u8
    ensures { result ≡ status_of fault.now }
{
    match fault {
        Fault::OutOfMemory
        | Fault::Words(WordFault::OutOfMemory)
        | Fault::NoWorker
        | Fault::SessionFailed => 6,
        Fault::Words(WordFault::Usage(error)) => match error.kind() {
            ErrorKind::DisplayHelp | ErrorKind::DisplayVersion => 0,
            _ => 2,
        },
        Fault::File(_)
        | Fault::Deadlock(_)
        | Fault::BlockingFactor
        | Fault::WorkerCount
        | Fault::Table(_)
        | Fault::InputLength
        | Fault::NotHomed
        | Fault::Patience => 3,
        Fault::Wav(_) | Fault::ChannelsMissing | Fault::RateNotWhole => 4,
        Fault::Read | Fault::Write => 5,
    }
}

/// Returns the parser's text of a mistake on the command line. The usage is left out if only a value is wrong, because
/// it does not help then.
fn mistake_text(alloc: Global, mistake: &clap::Error) -> Result<String, AllocError> {
    let whole = format!(in alloc; "{mistake}")?;
    match whole.as_str().rsplit_once("\n\nUsage: ") {
        Some((error, _)) if mistake.kind() == ErrorKind::InvalidValue => {
            format!(in alloc; "{error}\n")
        }
        _ => Ok(whole),
    }
}

/// Returns the text of `fault` for standard error: one line, and for a deadlock one more line for each actor. For a
/// mistake on the command line, it has the parser's lines, without the usage if only a value is wrong.
///
/// A control character, even in a key or in a word of the command line, is written like `\u{a}`, so that it can't
/// control the terminal. Only the line ends of the parser's text stay.
pub fn fault_text(alloc: Global, fault: &Fault) -> Result<String, AllocError>
    ensures { IfOk result (λ text. IsFaultText fault.now (string_bytes text)) }
{
    match fault {
        Fault::Words(WordFault::Usage(mistake)) => {
            let message = mistake_text(alloc, mistake)?;
            printable_lines(alloc, message.as_str())
        }
        // Names of actors have no control characters, and the ends of the lines between them must stay.
        Fault::Deadlock(_) => format!(in alloc; "sdfw: {fault}\n"),
        _ => {
            let message = format!(in alloc; "{fault}")?;
            let line = printable(alloc, message.as_str())?;
            format!(in alloc; "sdfw: {line}\n")
        }
    }
}
