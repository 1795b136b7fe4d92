//! Tests of runs over rings with low and high spin limits, seen by gates. With any limit a worker is in the next block
//! while another is in this one. With a high limit a worker waits for its neighbour.

use crate::running::{file_of, leave_open, make_file_with_gate};
use sdf_faults::Fault;
use sdf_options::{Options, Placement, Runner};
use sdf_run::{ActorId, Gate};
use std::alloc::Global;
use std::sync::atomic::{AtomicBool, AtomicU64, Ordering};
use std::test::Fail;
use std::thread;
use std::thread::Threads;
use test_texts::row_says;

/// A design in which `half` and `left` have a worker of their own. In a block each actor fires once, in file order. If
/// the link to `half` begins with a sample, each actor finds its samples and its room at its first test.
const SPLIT: &str = r#"format = 1
actor = [{ name = "in", kind = "input", channel = 0, processor = 0 },
    { name = "fork", kind = "fork", ways = 2, processor = 0 },
    { name = "half", kind = "gain", gain = 1, shift = 1, processor = 1 },
    { name = "left", kind = "output", channel = 0, processor = 1 },
    { name = "right", kind = "output", channel = 1, processor = 0 }]
link = [{ from = "in", to = "fork" }, { from = "fork:0", to = "half", initial = BEGUN },
    { from = "half", to = "left" }, { from = "fork:1", to = "right" }]"#;

/// An actor, and the number of one of its firings.
type Firing = (ActorId, u64);

/// A firing that waits until another one has begun, at most `turns` turns; or for all turns, if `until` is `None`.
#[derive(Clone, Copy)]
struct Wait {
    firing: Firing,
    until: Option<Firing>,
    turns: u32,
}

/// A gate: the firings that wait, and how many firings each actor has begun.
#[derive(Drop)]
struct Order<'a> {
    waits: &'a [Wait],
    begun: [AtomicU64; 5],
    missed: AtomicBool,
}

impl Order<'_> {
    fn has_begun(&self, (actor, firing): Firing) -> bool {
        match self.begun.get(actor) {
            Some(begun) => begun.load(Ordering::SeqCst) > firing,
            None => false,
        }
    }

    fn wait(&self, wait: &Wait) {
        for _ in 0..wait.turns {
            match wait.until {
                Some(until) if self.has_begun(until) => return,
                _ => thread::yield_now(),
            }
        }
        if wait.until.is_some() {
            self.missed.store(true, Ordering::SeqCst);
        }
    }
}

impl Gate for Order<'_> {
    fn before(&self, _processor: usize, actor: ActorId, firing: u64) {
        if let Some(begun) = self.begun.get(actor) {
            begun.fetch_add(1, Ordering::SeqCst);
        }
        for wait in self.waits {
            if wait.firing == (actor, firing) {
                self.wait(wait);
            }
        }
    }
}

/// The maximum number of turns that a firing waits for another.
const TURNS: u32 = 2_000_000;

/// The first firing of `right` waits until the first of `left` has begun. The latter waits until the second of `in` has
/// begun, which is in the next block.
const AHEAD: &[Wait] = &[
    Wait {
        firing: (3, 0),
        until: Some((0, 1)),
        turns: TURNS,
    },
    Wait {
        firing: (4, 0),
        until: Some((3, 0)),
        turns: TURNS,
    },
];

/// The first firing of `in` waits for a while. Meanwhile the worker of `half` tests in vain, but less often than its
/// spin limit. The first firing of `right` waits until the first of `half` has begun.
const LATE: &[Wait] = &[
    Wait {
        firing: (0, 0),
        until: None,
        turns: 50_000,
    },
    Wait {
        firing: (4, 0),
        until: Some((2, 0)),
        turns: TURNS,
    },
];

/// Two workers over rings, with homes by the file.
const OVER_RINGS: Options = Options {
    runner: Runner::Rings,
    placement: Placement::File,
    workers: 2,
    ..Options::DEFAULT
};

/// The name of a row, the initial samples of `half`, the spin limit, the waits, and the samples that are made.
type Row = (
    &'static str,
    &'static str,
    u32,
    &'static [Wait],
    &'static [i16],
);

const ROWS: &[Row] = &[
    (
        "the next block begins before this one ends, without patience",
        "[0]",
        0,
        AHEAD,
        &[0, 2, 1, 4],
    ),
    (
        "the next block begins before this one ends, with little",
        "[0]",
        1000,
        AHEAD,
        &[0, 2, 1, 4],
    ),
    (
        "the worker of `half` goes on in its round once its sample comes",
        "[]",
        1_000_000,
        LATE,
        &[1, 2, 2, 4],
    ),
];

/// Returns the WAV file of two samples, with its size filled in or not.
fn two_samples(alloc: Global, filled: bool) -> Result<Vec<u8>, Fault> {
    let mut file = file_of(alloc, 8000, 1, &[2, 4])?;
    if !filled {
        leave_open(&mut file);
    }
    Ok(file)
}

/// Returns what a row's design makes of two samples, with the gate `order`. `filled` says whether the sound's size is
/// filled in.
fn run_patient<T: Threads + AllocGlobal + Sync>(
    rt: &T,
    (_, begun, patience, _, _): &Row,
    filled: bool,
    order: &Order,
) -> Result<Vec<u8>, Fault> {
    let input = two_samples(rt.alloc(), filled)?;
    let options = Options {
        patience: *patience,
        ..OVER_RINGS
    };
    let graph = SPLIT.replace(rt.alloc(), "BEGUN", begun)?;
    make_file_with_gate(rt, &graph, &options, &input, order)
}

/// Reports on the gate `order` of a run. `same` says whether its file is the wanted one.
fn order_told(alloc: Global, order: &Order, same: bool) -> Result<String, Fail> {
    let mut begun = [0u64; 5];
    for (slot, count) in begun.iter_mut().zip(&order.begun) {
        *slot = count.load(Ordering::SeqCst);
    }
    let missed = order.missed.load(Ordering::SeqCst);
    format!(in alloc; "{same} {begun:?} {missed}").map_err(Fail::from)
}

/// Reports whether the file is `wanted`, how many firings each actor has begun, and whether a firing waited in vain.
fn told<T: Threads + AllocGlobal + Sync>(
    rt: &T,
    row: &Row,
    filled: bool,
    wanted: &[u8],
) -> Result<String, Fail> {
    let order = Order {
        waits: row.3,
        begun: [
            AtomicU64::new(0),
            AtomicU64::new(0),
            AtomicU64::new(0),
            AtomicU64::new(0),
            AtomicU64::new(0),
        ],
        missed: AtomicBool::new(false),
    };
    let same = run_patient(rt, row, filled, &order)?.as_slice() == wanted;
    order_told(rt.alloc(), &order, same)
}

/// Checks that a row makes its samples, that each actor begins two firings, and that none waits in vain.
fn makes<T: Threads + AllocGlobal + Sync>(rt: &T, row: &Row, filled: bool) -> Result<(), Fail> {
    let wanted = file_of(rt.alloc(), 8000, 2, row.4)?;
    row_says(
        row.0,
        told(rt, row, filled, &wanted),
        "true [2, 2, 2, 2, 2] false",
    )
}

/// Tests rings with several spin limits. Refuses rows, or one thread, in place of workers over rings with a low limit.
/// Refuses also workers that spin less than their limit.
#[test]
fn with_any_patience(rt: HostRuntime) -> Result<(), Fail> {
    for row in ROWS {
        makes(&rt, row, true)?;
        makes(&rt, row, false)?;
    }
    Ok(())
}
