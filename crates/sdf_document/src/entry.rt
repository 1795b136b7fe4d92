//! Entries: the contents of the tables of a graph file.

use std::marker::Model;

/// A graph file: its rate in Hz, if it has one, and its actors and links in file order.
#[derive(Debug, Drop)]
pub struct Document {
    pub rate: Option<u32>,
    pub actors: Vec<ActorEntry>,
    pub links: Vec<LinkEntry>,
}

/// An actor: its name, its kind with its values, its home processor, and the cost of a firing.
#[derive(Debug, Drop)]
pub struct ActorEntry {
    pub name: String,
    pub kind: KindEntry,
    pub processor: Option<usize>,
    pub cost: u32,
}

/// A kind with its values, each within its limits.
#[derive(Debug, Drop, PartialEq, Eq)]
pub enum KindEntry {
    Input {
        channel: u32,
        block: u32,
    },
    Output {
        channel: u32,
        block: u32,
    },
    Fir {
        up: u32,
        down: u32,
        shift: u32,
        taps: ListEntry,
    },
    Decimate {
        factor: u32,
    },
    Interpolate {
        factor: u32,
    },
    Add {
        ways: u32,
    },
    Fork {
        ways: u32,
    },
    Gain {
        gain: i32,
        shift: u32,
    },
    Delay {
        length: u32,
    },
    Table {
        offset: i32,
        values: ListEntry,
    },
    /// Only in format 2, like all kinds below it.
    Deal {
        ways: u32,
        run: u32,
    },
    Gather {
        ways: u32,
        run: u32,
    },
    /// `least` is at most `greatest`.
    Clip {
        least: i32,
        greatest: i32,
    },
    Offset {
        value: i32,
    },
}

/// A list of whole numbers, and the name of its coefficient file if it has one.
#[derive(Debug, Drop)]
pub struct ListEntry {
    pub file: Option<String>,
    pub values: Vec<i32>,
}

impl Model for ListEntry {
    ghost use Rattle.std.specs.Prelude.{option_map, string_bytes};
    ghost use Rattle.sdf_document.specs.Lists.{ListValue};

    ghost Value = { ListValue };

    ghost view = { λ l. record { file = option_map string_bytes l.file; values = l.values.items } };
}

impl PartialEq for ListEntry {
    ghost use Rattle.sdf_document.specs.Equal.{list_eq, list_partial_equivalence};

    ghost eq = { list_eq };

    ghost laws = { list_partial_equivalence };

    #[tactic(auto, unfolding(crate::specs::Equal::list_eq))]
    fn eq(&self, other: &ListEntry) -> bool {
        self.file == other.file && self.values == other.values
    }
}

impl Eq for ListEntry {
    ghost use Rattle.sdf_document.specs.Equal.{list_equivalence};

    ghost laws = { list_equivalence };
}

/// A link between two ends, each an actor and a port, and its initial samples.
#[derive(Debug, Drop, PartialEq, Eq)]
pub struct LinkEntry {
    pub from: (usize, usize),
    pub to: (usize, usize),
    pub initial: Vec<i32>,
}
