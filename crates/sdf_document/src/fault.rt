//! Faults of reading a graph file.
ghost use Rattle.std.specs.Prelude.{◌≡◌, Some, ◌++◌, codes, decimal, IfOk};
ghost use Rattle.sdf_document.specs.Fault.{place_view, borrowed_view};
ghost use Rattle.sdf_document.specs.declared.fault.ReadFault.TheVariants.{Document, OutOfMemory};

use std::alloc::{AllocError, AllocFailed, Global};
use std::fmt;
use thiserror::Error;

/// The place of a fault: the top of the graph file, an actor, a link, or a coefficient file.
#[derive(Debug, Drop)]
pub enum Place {
    Top,
    Actor(usize),
    Link(usize),
    File(String),
}

impl fmt::Display for Place {
    ghost use Rattle.sdf_document.specs.Fault.{place_text};

    ghost output = { λ p. Some (place_text p) };

    fn fmt<W: fmt::Write>(&self, f: &mut fmt::Formatter<W>) -> fmt::Result {
        match self {
            Place::Top => write!(f, "top"),
            Place::Actor(number) => write!(f, "actor {number}"),
            Place::Link(number) => write!(f, "link {number}"),
            Place::File(name) => write!(f, "file {name}"),
        }
    }
}

/// A place that borrows its name. It takes an allocation only if a fault makes it a `Place`.
#[derive(Clone, Copy)]
pub(crate) enum BorrowedPlace<'a> {
    Top,
    Actor(usize),
    Link(usize),
    File(&'a str),
}

impl BorrowedPlace<'_> {
    pub(crate) fn place(self, alloc: Global) -> Result<Place, AllocError>
        ensures { IfOk result (λ p. place_view p ≡ borrowed_view self.entry) }
    {
        match self {
            BorrowedPlace::Top => Ok(Place::Top),
            BorrowedPlace::Actor(number) => Ok(Place::Actor(number)),
            BorrowedPlace::Link(number) => Ok(Place::Link(number)),
            BorrowedPlace::File(name) => Ok(Place::File(String::from_str(alloc, name)?)),
        }
    }
}

/// The first test that a graph file or one of its coefficient files fails.
///
/// It prints its number and its name, then its place and key if it has them.
#[derive(Debug, Error)]
pub enum DocumentFault {
    #[error("2 ActorCount")]
    ActorCount,
    #[error("3 ChannelCount")]
    ChannelCount,
    #[error("28 KitValue {0} key {1}")]
    KitValue(Place, &'static str),
    #[error("49 NotToml {0}")]
    NotToml(Place),
    #[error("50 Format {0}")]
    Format(Place),
    #[error("51 UnknownKey {0} key {1}")]
    UnknownKey(Place, String),
    #[error("52 MissingKey {0} key {1}")]
    MissingKey(Place, &'static str),
    #[error("53 WrongType {0} key {1}")]
    WrongType(Place, &'static str),
    #[error("54 BadName {0} key {1}")]
    BadName(Place, &'static str),
    #[error("55 NameTwice actor {0}")]
    NameTwice(usize),
    #[error("56 UnknownKind actor {0}")]
    UnknownKind(usize),
    #[error("57 BadPort link {0} key {1}")]
    BadPort(usize, &'static str),
    #[error("58 NoFile file {0}")]
    NoFile(String),
}

/// Not derived: a derived drop is expanded, with all that each fault holds, wherever a fault may be dropped.
impl Drop for DocumentFault {
    fn drop(self) {
        match self {
            DocumentFault::KitValue(_, _)
            | DocumentFault::NotToml(_)
            | DocumentFault::Format(_)
            | DocumentFault::UnknownKey(_, _)
            | DocumentFault::MissingKey(_, _)
            | DocumentFault::WrongType(_, _)
            | DocumentFault::BadName(_, _)
            | DocumentFault::NoFile(_) => {}
            DocumentFault::ActorCount
            | DocumentFault::ChannelCount
            | DocumentFault::NameTwice(_)
            | DocumentFault::UnknownKind(_)
            | DocumentFault::BadPort(_, _) => {}
        }
    }
}

/// The reason why a document was not read: an allocation was refused, or a test failed.
#[derive(Debug, Drop, Error)]
pub enum ReadFault {
    #[error("1 OutOfMemory")]
    OutOfMemory,
    #[error(transparent)]
    Document(DocumentFault),
}

impl From<DocumentFault> for ReadFault {
    ghost from_gives = { λ fault e. e ≡ Document fault };

    fn from(fault: DocumentFault) -> ReadFault {
        ReadFault::Document(fault)
    }
}

impl From<AllocError> for ReadFault {
    ghost from_gives = { λ _ e. e ≡ OutOfMemory };

    fn from(_e: AllocError) -> ReadFault {
        ReadFault::OutOfMemory
    }
}

impl<T: Drop> From<AllocFailed<T>> for ReadFault {
    ghost from_gives = { λ _ e. e ≡ OutOfMemory };

    fn from(_e: AllocFailed<T>) -> ReadFault {
        ReadFault::OutOfMemory
    }
}
