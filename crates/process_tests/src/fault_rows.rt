//! The faults that a run can end with, each with its exit status and its text.

use sdf_actor::{NetFault, Side};
use sdf_graph::{Balance, GraphFault};
use sdf_prec::{Firing, PrecFault};
use sdf_run::RunFault;
use sdf_wav::{FormatFault, WavFault};

/// The place of a fault in a document.
#[derive(Clone, Copy)]
pub(crate) enum At {
    Top,
    Actor(usize),
    Link(usize),
    /// In a coefficient file.
    File,
}

/// A fault in a document: at a place, in the actor or link of this number, or in what the key names.
#[derive(Clone, Copy)]
pub(crate) enum Wrong {
    ActorCount,
    ChannelCount,
    KitValue(At),
    NotToml(At),
    Format(At),
    UnknownKey(At),
    MissingKey(At),
    WrongType(At),
    BadName(At),
    NameTwice(usize),
    UnknownKind(usize),
    BadPort(usize),
    NoFile,
}

/// A fault. Some are built from these values when they are reported.
#[derive(Clone, Copy)]
pub(crate) enum Given {
    Net(NetFault),
    Table(PrecFault),
    Sound(FormatFault),
    Run(RunFault),
    Device(WavFault),
    /// With its key.
    Document(Wrong, &'static str),
    /// Actors with two firings a period: the name, how many it did, and the link that it was short of.
    Deadlock(&'static [(&'static str, u32, Option<usize>)]),
    /// The program's own.
    Memory,
    Words,
    BlockingFactor,
    WorkerCount,
    ChannelsMissing,
    RateNotWhole,
}

use Given::{Deadlock, Device, Document, Net, Run, Sound, Table};

/// A fault, its exit status and its text.
pub(crate) type Row = (Given, u8, &'static str);

const FIRING: Firing = Firing {
    actor: 1,
    number: 2,
};

/// Faults of graphs and nets.
pub(crate) const NETS: &[Row] = &[
    (
        Net(NetFault::Graph(GraphFault::ActorCount)),
        3,
        "2 ActorCount",
    ),
    (
        Net(NetFault::Graph(GraphFault::ChannelCount)),
        3,
        "3 ChannelCount",
    ),
    (
        Net(NetFault::Graph(GraphFault::BadEnd { channel: 5 })),
        3,
        "4 BadEnd link 5",
    ),
    (
        Net(NetFault::Graph(GraphFault::BadRate { channel: 6 })),
        3,
        "5 BadRate link 6",
    ),
    (
        Net(NetFault::Graph(GraphFault::InitialCount { channel: 7 })),
        3,
        "6 InitialCount link 7",
    ),
    (
        Net(NetFault::Graph(GraphFault::NotConnected { actor: 8 })),
        3,
        "7 NotConnected actor 8",
    ),
    (
        Net(NetFault::Graph(GraphFault::Inconsistent {
            channel: 9,
            balance: Balance {
                source: 1,
                puts: 1,
                target: 2,
                takes: 2,
            },
        })),
        3,
        "8 Inconsistent link 9",
    ),
    (
        Net(NetFault::Graph(GraphFault::PeriodTooLong)),
        3,
        "9 PeriodTooLong",
    ),
    (
        Net(NetFault::Graph(GraphFault::CycleLength { channel: 255 })),
        3,
        "63 CycleLength link 255",
    ),
    (Net(NetFault::NoPort { link: 10 }), 3, "20 NoPort link 10"),
    (
        Net(NetFault::PortTwice { link: 11 }),
        3,
        "21 PortTwice link 11",
    ),
    (
        Net(NetFault::PortOpen {
            actor: 12,
            side: Side::Input,
            port: 15,
        }),
        3,
        "22 PortOpen actor 12 input 15",
    ),
    (
        Net(NetFault::PortOpen {
            actor: 13,
            side: Side::Output,
            port: 0,
        }),
        3,
        "22 PortOpen actor 13 output 0",
    ),
    (
        Net(NetFault::ExtTwice { actor: 14 }),
        3,
        "23 ExtTwice actor 14",
    ),
    (
        Net(NetFault::InputRates { actor: 15 }),
        3,
        "24 InputRates actor 15",
    ),
    (
        Net(NetFault::OutputRates { actor: 63 }),
        3,
        "25 OutputRates actor 63",
    ),
    (Net(NetFault::NoInput), 3, "26 NoInput"),
    (
        Net(NetFault::NoOutput { channel: 1 }),
        3,
        "27 NoOutput channel 1",
    ),
];

/// Faults of tables.
pub(crate) const TABLES: &[Row] = &[
    (Table(PrecFault::BlockingFactor), 3, "11 BlockingFactor"),
    (Table(PrecFault::WorkerCount), 3, "12 WorkerCount"),
    (Table(PrecFault::BlockTooLong), 3, "13 BlockTooLong"),
    (
        Table(PrecFault::FiringMissing { firing: FIRING }),
        3,
        "14 FiringMissing",
    ),
    (
        Table(PrecFault::FiringTwice {
            row: 3,
            firing: FIRING,
        }),
        3,
        "15 FiringTwice",
    ),
    (
        Table(PrecFault::FiringUnknown {
            row: 3,
            firing: FIRING,
        }),
        3,
        "16 FiringUnknown",
    ),
    (Table(PrecFault::RowTooWide { row: 3 }), 3, "17 RowTooWide"),
    (
        Table(PrecFault::TooEarly {
            row: 3,
            firing: FIRING,
            needs: FIRING,
        }),
        3,
        "18 TooEarly",
    ),
    (
        Table(PrecFault::BadHome { actor: 16 }),
        3,
        "19 BadHome actor 16",
    ),
    (
        Table(PrecFault::BadCost { actor: 17 }),
        3,
        "62 BadCost actor 17",
    ),
];

/// Faults of WAV files.
pub(crate) const SOUNDS: &[Row] = &[
    (Sound(FormatFault::NotRiff), 4, "34 NotRiff"),
    (Sound(FormatFault::NotWave), 4, "35 NotWave"),
    (Sound(FormatFault::NoFormat), 4, "36 NoFormat"),
    (Sound(FormatFault::ShortFormat), 4, "37 ShortFormat"),
    (Sound(FormatFault::NotPcm16), 4, "38 NotPcm16"),
    (Sound(FormatFault::Channels), 4, "39 Channels"),
    (Sound(FormatFault::RateZero), 4, "40 RateZero"),
    (Sound(FormatFault::BadAlign), 4, "41 BadAlign"),
    (Sound(FormatFault::NoData), 4, "42 NoData"),
    (Sound(FormatFault::Truncated), 4, "43 Truncated"),
    (Sound(FormatFault::PartialFrame), 4, "44 PartialFrame"),
    (Sound(FormatFault::TooLong), 4, "45 TooLong"),
    (Sound(FormatFault::RateTooLarge), 4, "46 RateTooLarge"),
];

/// Faults of runs.
pub(crate) const RUNS: &[Row] = &[
    (Run(RunFault::OutOfMemory), 6, "1 OutOfMemory"),
    (Run(RunFault::InputLength), 3, "29 InputLength"),
    (Run(RunFault::NotHomed), 3, "30 NotHomed"),
    (Run(RunFault::Patience), 3, "31 Patience"),
    (Run(RunFault::NoWorker), 6, "32 NoWorker"),
    (Run(RunFault::SessionFailed), 6, "33 SessionFailed"),
];

/// Faults of documents.
pub(crate) const DOCUMENTS: &[Row] = &[
    (
        Document(Wrong::KitValue(At::Top), "format"),
        3,
        "28 KitValue top key format",
    ),
    (
        Document(Wrong::KitValue(At::Actor(1)), "gain"),
        3,
        "28 KitValue actor 1 key gain",
    ),
    (
        Document(Wrong::KitValue(At::Link(2)), "initial"),
        3,
        "28 KitValue link 2 key initial",
    ),
    (
        Document(Wrong::KitValue(At::File), "taps"),
        3,
        "28 KitValue file a.toml key taps",
    ),
    (Document(Wrong::NotToml(At::Top), ""), 3, "49 NotToml top"),
    (
        Document(Wrong::NotToml(At::File), ""),
        3,
        "49 NotToml file a.toml",
    ),
    (Document(Wrong::Format(At::Top), ""), 3, "50 Format top"),
    (
        Document(Wrong::Format(At::File), ""),
        3,
        "50 Format file a.toml",
    ),
    (
        Document(Wrong::UnknownKey(At::Top), "a"),
        3,
        "51 UnknownKey top key a",
    ),
    (
        Document(Wrong::UnknownKey(At::Link(3)), ""),
        3,
        "51 UnknownKey link 3 key ",
    ),
    (
        Document(Wrong::UnknownKey(At::File), "\n"),
        3,
        "51 UnknownKey file a.toml key \\u{a}",
    ),
    (
        Document(Wrong::MissingKey(At::Top), "format"),
        3,
        "52 MissingKey top key format",
    ),
    (
        Document(Wrong::MissingKey(At::Actor(63)), "kind"),
        3,
        "52 MissingKey actor 63 key kind",
    ),
    (
        Document(Wrong::MissingKey(At::Link(255)), "to"),
        3,
        "52 MissingKey link 255 key to",
    ),
    (
        Document(Wrong::MissingKey(At::File), "taps"),
        3,
        "52 MissingKey file a.toml key taps",
    ),
    (
        Document(Wrong::WrongType(At::Top), "actor"),
        3,
        "53 WrongType top key actor",
    ),
    (
        Document(Wrong::WrongType(At::Actor(4)), "gain"),
        3,
        "53 WrongType actor 4 key gain",
    ),
    (
        Document(Wrong::WrongType(At::Link(5)), "from"),
        3,
        "53 WrongType link 5 key from",
    ),
    (
        Document(Wrong::WrongType(At::File), "shift"),
        3,
        "53 WrongType file a.toml key shift",
    ),
    (
        Document(Wrong::BadName(At::Actor(6)), "name"),
        3,
        "54 BadName actor 6 key name",
    ),
    (
        Document(Wrong::BadName(At::Actor(7)), "file"),
        3,
        "54 BadName actor 7 key file",
    ),
    (Document(Wrong::ActorCount, ""), 3, "2 ActorCount"),
    (Document(Wrong::ChannelCount, ""), 3, "3 ChannelCount"),
    (Document(Wrong::NameTwice(8), ""), 3, "55 NameTwice actor 8"),
    (
        Document(Wrong::UnknownKind(9), ""),
        3,
        "56 UnknownKind actor 9",
    ),
    (
        Document(Wrong::BadPort(10), "from"),
        3,
        "57 BadPort link 10 key from",
    ),
    (
        Document(Wrong::BadPort(11), "to"),
        3,
        "57 BadPort link 11 key to",
    ),
    (
        Document(Wrong::NoFile, "a.toml"),
        3,
        "58 NoFile file a.toml",
    ),
];

/// The program's own faults, faults of devices, and deadlocks with no actors and with two.
pub(crate) const OWN: &[Row] = &[
    (Given::Memory, 6, "1 OutOfMemory"),
    (Given::Words, 6, "1 OutOfMemory"),
    (Given::BlockingFactor, 3, "11 BlockingFactor"),
    (Given::WorkerCount, 3, "12 WorkerCount"),
    (Given::ChannelsMissing, 4, "59 ChannelsMissing"),
    (Given::RateNotWhole, 4, "60 RateNotWhole"),
    (Device(WavFault::OutOfMemory), 6, "1 OutOfMemory"),
    (Device(WavFault::Read), 5, "47 Read"),
    (Device(WavFault::Write), 5, "48 Write"),
    (Deadlock(&[]), 3, "10 Deadlock"),
    (
        Deadlock(&[("in", 2, None), ("add", 0, Some(4))]),
        3,
        "10 Deadlock\nin 2 of 2\nadd 0 of 2 short link 4",
    ),
];
