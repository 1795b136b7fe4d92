//! A net for each fault, in the order of the tests. If possible, each net also has a fault of the next test.

use crate::parts::Part::{In, Out, Turning};
use crate::parts::{Part, THROUGH, refusal};
use sdf_actor::NetFault;
use std::alloc::{AllocError, Global};
use std::test::Fail;
use test_actors::nets::links;
use test_texts::{row_says, says};

/// Nets: their names, their nodes, the ends of their links, and their faults.
const NETS: &[(&str, &[Part], &[[usize; 4]], &str)] = &[
    (
        "before 21 of the same link",
        &[In(0, 1), Out(0, 1)],
        &[[0, 0, 1, 0], [0, 0, 1, 1]],
        "20 NoPort link 1",
    ),
    (
        "before 20 of a later link, and before 22",
        &[In(0, 1), Out(0, 1), Out(1, 1)],
        &[[0, 0, 1, 0], [0, 0, 2, 0], [3, 0, 1, 0]],
        "21 PortTwice link 1",
    ),
    (
        "inputs before outputs, and before 23",
        &[Turning(1, [1, 0, 1]), In(0, 1), In(0, 1)],
        &[[1, 0, 0, 0]],
        "22 PortOpen actor 0 input 1",
    ),
    (
        "no link",
        &[In(0, 1), Out(0, 1)],
        &[],
        "22 PortOpen actor 0 output 0",
    ),
    (
        "before 27",
        &[
            In(7, 1),
            In(7, 1),
            Turning(1, [1, 0, 1]),
            Out(1, 1),
            Out(3, 1),
        ],
        THROUGH,
        "23 ExtTwice actor 1",
    ),
    (
        "two sinks to one list",
        &[
            In(7, 1),
            In(6, 1),
            Turning(1, [1, 0, 1]),
            Out(1, 1),
            Out(1, 1),
        ],
        THROUGH,
        "23 ExtTwice actor 4",
    ),
    (
        "before 5",
        &[
            In(0, 0),
            In(1, 1),
            Turning(1, [1, 0, 1]),
            Out(2, 1),
            Out(0, 1),
        ],
        THROUGH,
        "27 NoOutput channel 1",
    ),
    (
        "before 27, of no source",
        &[Turning(1, [1, 0, 1])],
        &[[0, 0, 0, 0], [0, 1, 0, 1]],
        "26 NoInput",
    ),
    (
        "before 5 of a later link",
        &[
            In(0, 1),
            In(1, 1),
            Turning(65, [1, 0, 0]),
            Out(0, 1),
            Out(1, 1),
        ],
        THROUGH,
        "63 CycleLength link 0",
    ),
    (
        "no list of all rates is made",
        &[
            In(0, 1),
            In(1, 1),
            Turning(u32::MAX, [1025, 0, 1]),
            Out(0, 1),
            Out(1, 1),
        ],
        THROUGH,
        "5 BadRate link 0",
    ),
    (
        "it has no rates",
        &[
            In(0, 1),
            In(1, 1),
            Turning(0, [1025, 0, 1]),
            Out(0, 1),
            Out(1, 1),
        ],
        THROUGH,
        "63 CycleLength link 0",
    ),
    (
        "a source that puts nothing",
        &[
            In(0, 1),
            In(1, 0),
            Turning(64, [1, 0, 1]),
            Out(0, 1),
            Out(1, 1),
        ],
        THROUGH,
        "5 BadRate link 1",
    ),
    (
        "two nets",
        &[In(0, 1), Out(0, 1), In(1, 1), Out(1, 1)],
        &[[0, 0, 1, 0], [2, 0, 3, 0]],
        "7 NotConnected actor 2",
    ),
    (
        "one of two comes back",
        &[In(0, 1), Turning(1, [1, 1, 1]), Out(0, 1)],
        &[[0, 0, 1, 0], [1, 0, 2, 0], [1, 1, 1, 1]],
        "8 Inconsistent link 2",
    ),
    (
        "two of three come back",
        &[In(0, 1), Turning(1, [1, 1, 2]), Out(0, 1)],
        &[[0, 0, 1, 0], [1, 0, 2, 0], [1, 1, 1, 1]],
        "8 Inconsistent link 2",
    ),
    (
        "before 24",
        &[
            In(0, 1),
            In(1, 1),
            Turning(1, [499, 1, 501]),
            Out(0, 1000),
            Out(1, 1001),
        ],
        THROUGH,
        "9 PeriodTooLong",
    ),
    (
        "before 25",
        &[
            In(0, 1),
            In(1, 1),
            Turning(1, [1, 0, 2]),
            Out(0, 1),
            Out(1, 1),
        ],
        THROUGH,
        "24 InputRates actor 1",
    ),
    (
        "two to one sink and three to the other",
        &[
            In(0, 1),
            In(1, 2),
            Turning(1, [1, 1, 2]),
            Out(0, 1),
            Out(1, 1),
        ],
        THROUGH,
        "25 OutputRates actor 4",
    ),
    (
        "two sources of different rates",
        &[
            In(0, 2),
            In(1, 3),
            Turning(2, [1, 1, 3]),
            Out(0, 1),
            Out(1, 4),
        ],
        THROUGH,
        "24 InputRates actor 1",
    ),
];

/// Returns the fault of a net whose actor has `cycle` phases. Its first link begins with `many` samples.
fn of_full_link(alloc: Global, cycle: u32, many: usize) -> Result<String, Fail> {
    let parts = [
        In(0, 1),
        Turning(cycle, [1, 0, 1]),
        In(1, 1),
        Out(0, 1),
        Out(1, 1),
    ];
    let ends = [[0, 0, 1, 0], [2, 0, 1, 1], [1, 0, 3, 0], [1, 1, 4, 0]];
    let mut links = links(alloc, &ends)?;
    if let Some(first) = links.first_mut() {
        first.initial = vec![in alloc; 0; many]?;
    }
    refusal(alloc, &parts, links)
}

/// Returns the fault of a net of `parts` with 257 links.
fn of_many_links(alloc: Global, parts: &[Part]) -> Result<String, Fail> {
    refusal(alloc, parts, links(alloc, &[[0, 0, 0, 0]; 257])?)
}

/// Returns the text of the fault for refused memory.
fn of_no_memory(alloc: Global) -> Result<String, Fail> {
    Ok(NetFault::from(AllocError).to_string(alloc)?)
}

/// Tests the order of the faults: too few nodes come before too many links, these before 20, and a long cycle before
/// too many initial samples.
#[test]
fn faults_of_nets(rt: HostRuntime) -> Result<(), Fail> {
    let alloc = rt.alloc();
    for (name, parts, ends, wanted) in NETS {
        row_says(name, refusal(alloc, parts, links(alloc, ends)?), wanted)?;
    }
    says(of_many_links(alloc, &[]), "2 ActorCount")?;
    says(of_many_links(alloc, &[In(0, 1)]), "3 ChannelCount")?;
    says(of_full_link(alloc, 65, 65_537), "63 CycleLength link 0")?;
    says(of_full_link(alloc, 1, 65_537), "6 InitialCount link 0")?;
    says(of_no_memory(alloc), "1 OutOfMemory")
}
