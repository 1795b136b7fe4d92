//! The JSON of faults: rows for each kind of place, and the texts in a fault.

use sdf_actor::{NetFault, Side};
use sdf_faults::Fault;
use sdf_file::{FileFault, read_design};
use sdf_graph::GraphFault;
use sdf_json::{Details, fault_json, schedule_json};
use sdf_options::Options;
use sdf_prec::{Firing, PrecFault};
use sdf_wav::FormatFault;
use std::alloc::Global;
use std::test::Fail;
use test_texts::{row_says, says};

const FIRST: Firing = Firing {
    actor: 0,
    number: 1,
};

const OTHER: Firing = Firing {
    actor: 2,
    number: 3,
};

/// Returns the JSON of a fault of which no more is known.
fn line(alloc: Global, fault: &Fault) -> Result<String, Fail> {
    Ok(fault_json(alloc, fault, &Details::new(alloc))?)
}

/// A net's fault, and its line.
const NETS: &[(NetFault, &str)] = &[
    (
        NetFault::Graph(GraphFault::CycleLength { channel: 4 }),
        "{\"fault\":63,\"link\":4,\"name\":\"CycleLength\"}\n",
    ),
    (
        NetFault::Graph(GraphFault::NotConnected { actor: 2 }),
        "{\"actor\":2,\"fault\":7,\"name\":\"NotConnected\"}\n",
    ),
    (
        NetFault::NoPort { link: 0 },
        "{\"fault\":20,\"link\":0,\"name\":\"NoPort\"}\n",
    ),
    (
        NetFault::PortOpen {
            actor: 1,
            side: Side::Output,
            port: 3,
        },
        "{\"actor\":1,\"fault\":22,\"name\":\"PortOpen\",\"port\":3,\"side\":\"output\"}\n",
    ),
    (
        NetFault::NoOutput { channel: 6 },
        "{\"channel\":6,\"fault\":27,\"name\":\"NoOutput\"}\n",
    ),
];

fn net(alloc: Global, fault: NetFault) -> Result<String, Fail> {
    line(alloc, &Fault::File(FileFault::Net(fault)))
}

/// Tests the JSON of faults of nets. A `fault_json` that always reports refused memory fails here.
#[test]
fn json_of_net_faults(rt: HostRuntime) -> Result<(), Fail> {
    for (fault, wanted) in NETS {
        row_says("net", net(rt.alloc(), *fault), wanted)?;
    }
    Ok(())
}

/// A table's fault, and its line.
const TABLES: &[(PrecFault, &str)] = &[
    (
        PrecFault::FiringMissing { firing: FIRST },
        "{\"fault\":14,\"firing\":{\"actor\":0,\"number\":1},\"name\":\"FiringMissing\"}\n",
    ),
    (
        PrecFault::TooEarly {
            row: 9,
            firing: FIRST,
            needs: OTHER,
        },
        "{\"fault\":18,\"firing\":{\"actor\":0,\"number\":1},\"name\":\"TooEarly\",\
            \"needs\":{\"actor\":2,\"number\":3},\"row\":9}\n",
    ),
    (
        PrecFault::RowTooWide { row: 5 },
        "{\"fault\":17,\"name\":\"RowTooWide\",\"row\":5}\n",
    ),
    (
        PrecFault::BadHome { actor: 7 },
        "{\"actor\":7,\"fault\":19,\"name\":\"BadHome\"}\n",
    ),
];

fn table(alloc: Global, fault: PrecFault) -> Result<String, Fail> {
    line(alloc, &Fault::Table(fault))
}

#[test]
fn json_of_table_faults(rt: HostRuntime) -> Result<(), Fail> {
    for (fault, wanted) in TABLES {
        row_says("table", table(rt.alloc(), *fault), wanted)?;
    }
    Ok(())
}

fn plain(alloc: Global, fault: Fault) -> Result<String, Fail> {
    line(alloc, &fault)
}

#[test]
fn json_of_plain_faults(rt: HostRuntime) -> Result<(), Fail> {
    let alloc = rt.alloc();
    says(
        plain(alloc, Fault::Wav(FormatFault::TooLong)),
        "{\"fault\":45,\"name\":\"TooLong\"}\n",
    )?;
    says(
        plain(alloc, Fault::RateNotWhole),
        "{\"fault\":60,\"name\":\"RateNotWhole\"}\n",
    )
}

/// Returns the JSON of the fault of a graph file that is not a design or has no schedule.
fn refused(alloc: Global, text: &str) -> Result<String, Fail> {
    let fault = match read_design(alloc, text.as_bytes(), &[]) {
        Ok(design) => schedule_json(alloc, &design, &Options::DEFAULT).err(),
        Err(fault) => Some(Fault::from(fault)),
    };
    let fault = fault.ok_or("a fault")?;
    line(alloc, &fault)
}

/// A graph file, and the line of its fault.
const FILES: &[(&str, &str)] = &[
    (
        "format = 1\nlink = []\n[[actor]]\nname = \"half\"\nkind = \"fir\"\nup = 147\nshift = 0\ntaps = [1]\n",
        "{\"actor\":0,\"fault\":28,\"key\":\"up\",\"name\":\"KitValue\"}\n",
    ),
    (
        "format = 1\n\"a\\u001bb\" = 2\n",
        "{\"fault\":51,\"key\":\"a\\u001bb\",\"name\":\"UnknownKey\",\"top\":true}\n",
    ),
    (
        "format = 1\nactor = [{ name = \"t\", kind = \"table\", offset = 0, file = \"a.toml\" }]\nlink = []",
        "{\"fault\":58,\"file\":\"a.toml\",\"name\":\"NoFile\"}\n",
    ),
    (
        "format = 1\nactor = [{ name = \"a\", kind = \"fork\", ways = 2 }]\nlink = [{ from = \"a\", to = \"a:16\" }]",
        "{\"fault\":57,\"key\":\"to\",\"link\":0,\"name\":\"BadPort\"}\n",
    ),
    (
        "format = 1\nactor = [{ name = \"in\", kind = \"input\", channel = 0 },\n    { name = \"add\", \
            kind = \"add\", ways = 2 }, { name = \"fork\", kind = \"fork\", ways = 2 },\n    \
            { name = \"out\", kind = \"output\", channel = 0 }]\nlink = [{ from = \"in\", \
            to = \"add:0\" }, { from = \"add\", to = \"fork\" },\n    { from = \"fork:0\", to = \"out\" }, \
            { from = \"fork:1\", to = \"add:1\" }]",
        "{\"actors\":[{\"done\":1,\"name\":\"in\",\"of\":1,\"short\":null},{\"done\":0,\"name\":\"add\",\
            \"of\":1,\"short\":3},{\"done\":0,\"name\":\"fork\",\"of\":1,\"short\":1},{\"done\":0,\
            \"name\":\"out\",\"of\":1,\"short\":2}],\"fault\":10,\"name\":\"Deadlock\"}\n",
    ),
];

/// Tests that the lines have the names and keys of the files, with a control character escaped as in JSON.
#[test]
fn json_of_file_faults(rt: HostRuntime) -> Result<(), Fail> {
    for (text, wanted) in FILES {
        row_says("file", refused(rt.alloc(), text), wanted)?;
    }
    Ok(())
}

/// Returns details that say all that there is to say.
fn full(alloc: Global) -> Result<Details, Fail> {
    let mut details = Details::new(alloc);
    details.path = Some(String::from_str(alloc, "a/b.toml")?);
    details.line = Some(3);
    details.column = Some(5);
    details.actor = Some(7);
    details.link = Some(9);
    details.key = Some(String::from_str(alloc, "up")?);
    details.value = Some(String::from_str(alloc, "\"x\"")?);
    details.limits = Some(String::from_str(alloc, "1..64")?);
    details.hint.push(String::from_str(alloc, "one")?)?;
    details.hint.push(String::from_str(alloc, "two")?)?;
    Ok(details)
}

fn with_details(alloc: Global, fault: Fault) -> Result<String, Fail> {
    Ok(fault_json(alloc, &fault, &full(alloc)?)?)
}

/// Tests that what is known of a fault is beside its own members, which stay as they are.
#[test]
fn json_with_details(rt: HostRuntime) -> Result<(), Fail> {
    let alloc = rt.alloc();
    says(
        with_details(alloc, Fault::Read),
        "{\"actor\":7,\"column\":5,\"fault\":47,\"hint\":[\"one\",\"two\"],\"key\":\"up\",\
            \"limits\":\"1..64\",\"line\":3,\"link\":9,\"name\":\"Read\",\"path\":\"a/b.toml\",\
            \"value\":\"\\\"x\\\"\"}\n",
    )?;
    says(
        with_details(alloc, Fault::Table(PrecFault::BadHome { actor: 1 })),
        "{\"actor\":1,\"column\":5,\"fault\":19,\"hint\":[\"one\",\"two\"],\"key\":\"up\",\
            \"limits\":\"1..64\",\"line\":3,\"link\":9,\"name\":\"BadHome\",\"path\":\"a/b.toml\",\
            \"value\":\"\\\"x\\\"\"}\n",
    )
}
