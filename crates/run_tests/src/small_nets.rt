//! Tests of small nets on one thread, run at once or fed in two pieces.

ghost use Rattle.std.specs.Prelude.{IfOk};
ghost use Rattle.sdf_graph.specs.Rates.{rates};
ghost use Rattle.sdf_actor.specs.Graphs.{graph_of};
ghost use Rattle.sdf_sched.specs.Period.{IsPeriodOf};

use crate::nets::{chain, lengths, list, one_list, pair, two_sums};
use sdf_actor::{Actor, Net};
use sdf_run::{feed_one, resume_one, run_one};
use sdf_sched::class_s::class_s;
use sdf_sched::{Lean, Period, Round};
use std::alloc::{AllocError, Global};
use std::test::Fail;
use test_actors::{Sum, Swap, Twice};
use test_texts::row_says;

#[derive(Clone, Copy)]
enum Small {
    /// A source and a sink: the samples of their firings, and the initial samples of the channel between them.
    Linked(u32, u32, &'static [i64]),
    /// A chain through `Sum`, whose state lasts.
    Summed,
    /// A chain through `Twice`, which has two phases.
    Doubled,
}

use Small::{Doubled, Linked, Summed};

/// A net and its run of `periods` periods, on the list `samples` if there is one. `lean` chooses the lean policy. If
/// `later` is given, the run is resumed for its number of periods, on its samples. `told` is the wanted report.
#[derive(Clone, Copy)]
struct Row {
    name: &'static str,
    net: Small,
    lean: bool,
    periods: u32,
    samples: Option<&'static [i64]>,
    later: Option<(u32, &'static [i64])>,
    told: &'static str,
}

const ONE_TWO_THREE: Row = Row {
    name: "",
    net: Summed,
    lean: false,
    periods: 3,
    samples: Some(&[1, 2, 3]),
    later: None,
    told: "",
};

/// Eleven samples for a source of two and a sink of three.
const ELEVEN: Row = Row {
    net: Linked(2, 3, &[]),
    samples: Some(&[1, 2, 3, 4, 5, 6, 7, 8, 9, 10, 11]),
    ..ONE_TWO_THREE
};

const ROWS: &[Row] = &[
    Row {
        name: "blocks of two and three",
        net: Linked(2, 3, &[]),
        periods: 2,
        samples: Some(&[1, 2, 3, 4, 5, 6, 7, 0, 0, 0, 0, 0]),
        told: "[[1, 2, 3, 4, 5, 6, 7, 0, 0, 0, 0, 0]] in 0 rounds",
        ..ONE_TWO_THREE
    },
    Row {
        name: "initial samples come first",
        net: Linked(1, 1, &[7, 8]),
        told: "[[7, 8, 1]] in 0 rounds",
        ..ONE_TWO_THREE
    },
    Row {
        name: "initial samples come first by the lean policy",
        net: Linked(1, 1, &[7, 8]),
        lean: true,
        told: "[[7, 8, 1]] in 0 rounds",
        ..ONE_TWO_THREE
    },
    Row {
        name: "a state lasts",
        told: "[[1, 3, 6]] in 0 rounds",
        ..ONE_TWO_THREE
    },
    Row {
        name: "phases go on from period to period",
        net: Doubled,
        told: "[[1, 1, 2, 2, 3, 3]] in 0 rounds",
        ..ONE_TWO_THREE
    },
    Row {
        name: "phases go on from period to period by the lean policy",
        net: Doubled,
        lean: true,
        told: "[[1, 1, 2, 2, 3, 3]] in 0 rounds",
        ..ONE_TWO_THREE
    },
    Row {
        name: "a short input is refused",
        periods: 2,
        told: "29 InputLength",
        ..ELEVEN
    },
    Row {
        name: "a longer one is not",
        periods: 1,
        told: "[[1, 2, 3, 4, 5, 6]] in 0 rounds",
        ..ELEVEN
    },
    Row {
        name: "a list that is not there is refused",
        periods: 0,
        samples: None,
        told: "29 InputLength",
        ..ELEVEN
    },
    Row {
        name: "a state goes on",
        periods: 2,
        samples: Some(&[1, 2]),
        later: Some((1, &[3])),
        told: "[[[1, 3]], [[6]]]",
        ..ONE_TWO_THREE
    },
    Row {
        name: "phases begin anew",
        net: Doubled,
        periods: 1,
        samples: Some(&[1]),
        later: Some((2, &[2, 3])),
        told: "[[[1, 1]], [[2, 2, 3, 3]]]",
        ..ONE_TWO_THREE
    },
    Row {
        name: "held samples come first",
        net: Linked(1, 1, &[7, 8]),
        later: Some((2, &[4, 5])),
        told: "[[[7, 8, 1]], [[2, 3]]]",
        ..ONE_TWO_THREE
    },
    Row {
        name: "an empty feed",
        net: Linked(1, 1, &[7, 8]),
        periods: 0,
        samples: Some(&[]),
        later: Some((1, &[4])),
        told: "[[[]], [[7]]]",
        ..ONE_TWO_THREE
    },
];

/// Returns a schedule of `net`, by the lean policy or in rounds.
fn period_of<A: Actor>(alloc: Global, net: &Net<A>, lean: bool) -> Result<Period, Fail>
    ensures { IfOk result (IsPeriodOf (rates (graph_of A.steps net.now))) }
{
    if lean {
        Ok(class_s(alloc, net.graph(), net.repetitions(), &mut Lean)?)
    } else {
        Ok(class_s(alloc, net.graph(), net.repetitions(), &mut Round::new())?)
    }
}

/// Returns the output lists of a run and its number of rounds, or the fault, as text.
fn run_told<A: Actor<Token = i64>>(
    alloc: Global,
    net: &Net<A>,
    row: &Row,
    inputs: &[Vec<i64>],
) -> Result<String, Fail> {
    let period = period_of(alloc, net, row.lean)?;
    match run_one(alloc, net, &period, row.periods, inputs) {
        Ok(ran) => Ok(format!(in alloc; "{:?} in {} rounds", ran.outputs, ran.rounds)?),
        Err(fault) => Ok(fault.to_string(alloc)?),
    }
}

/// Returns both lists, in one list.
fn both<T: Drop>(alloc: Global, first: T, second: T) -> Result<Vec<T>, Fail> {
    let mut lists = Vec::new(alloc);
    lists.push(first)?;
    lists.push(second)?;
    Ok(lists)
}

/// Runs `periods.0` periods on `first`, resumes for `periods.1` on `later`, and returns the outputs of both.
fn in_pieces<A: Actor>(
    alloc: Global,
    net: &Net<A>,
    periods: (u32, u32),
    first: &[Vec<A::Token>],
    later: &[Vec<A::Token>],
) -> Result<Vec<Vec<Vec<A::Token>>>, Fail> {
    let period = class_s(alloc, net.graph(), net.repetitions(), &mut Round::new())?;
    let (ran, rest) = feed_one(alloc, net, &period, periods.0, first)?;
    let (more, _last) = resume_one(alloc, net, &period, &rest, periods.1, later)?;
    both(alloc, ran.outputs, more.outputs)
}

/// Calls `in_pieces`, and returns the outputs as text.
fn pieces_told<A: Actor<Token = i64>>(
    alloc: Global,
    net: &Net<A>,
    periods: (u32, u32),
    first: &[Vec<i64>],
    later: &[i64],
) -> Result<String, Fail> {
    let later = list(alloc, later)?;
    let made = in_pieces(alloc, net, periods, first, &later)?;
    Ok(format!(in alloc; "{made:?}")?)
}

/// Runs a row's net and returns the report.
fn told<A: Actor<Token = i64>>(alloc: Global, net: &Net<A>, row: &Row) -> Result<String, Fail> {
    let inputs = match row.samples {
        Some(samples) => list(alloc, samples)?,
        None => Vec::new(alloc),
    };
    match row.later {
        Some((periods, later)) => {
            pieces_told(alloc, net, (row.periods, periods), &inputs, later)
        }
        None => run_told(alloc, net, row, &inputs),
    }
}

fn told_of(alloc: Global, row: &Row) -> Result<String, Fail> {
    match row.net {
        Linked(put, taken, begun) => told(alloc, &pair(alloc, put, taken, begun)?, row),
        Summed => told(alloc, &chain(alloc, Sum)?, row),
        Doubled => told(alloc, &chain(alloc, Twice)?, row),
    }
}

#[test]
fn what_small_nets_make(rt: HostRuntime) -> Result<(), Fail> {
    for row in ROWS {
        row_says(row.name, told_of(rt.alloc(), row), row.told)?;
    }
    Ok(())
}

/// Returns the output lists of `periods` periods of a net, on one thread.
fn outputs_of<A: Actor>(
    alloc: Global,
    net: &Net<A>,
    periods: u32,
    inputs: &[Vec<A::Token>],
) -> Result<Vec<Vec<A::Token>>, Fail> {
    let period = class_s(alloc, net.graph(), net.repetitions(), &mut Round::new())?;
    let ran = run_one(alloc, net, &period, periods, inputs)?;
    Ok(ran.outputs)
}

/// Returns the output lists of `periods` periods of a net with cyclic rates. 4,096 periods are one block.
fn doubled(alloc: Global, periods: u32) -> Result<Vec<Vec<i64>>, Fail> {
    let net = chain(alloc, Twice)?;
    let inputs = list(alloc, &[7; 10_000])?;
    outputs_of(alloc, &net, periods, &inputs)
}

/// Returns the length of each of the lists that `doubled` returns.
fn doubled_lengths(alloc: Global, periods: u32) -> Result<String, Fail> {
    let outputs = doubled(alloc, periods)?;
    let lengths = lengths(alloc, &outputs)?;
    Ok(format!(in alloc; "{lengths:?}")?)
}

/// Returns what a run makes of a pair: `Swap` exchanges its two values.
fn swapped(alloc: Global) -> Result<Vec<Vec<[u8; 2]>>, Fail> {
    let net = chain(alloc, Swap)?;
    let inputs = list(alloc, &[[1, 2]])?;
    outputs_of(alloc, &net, 1, &inputs)
}

/// Returns what `swapped` returns, as text.
fn turned(alloc: Global) -> Result<String, Fail> {
    let outputs = swapped(alloc)?;
    Ok(format!(in alloc; "{outputs:?}")?)
}

/// Returns the number of balls in a triangular pyramid of `layers` layers.
fn pyramid(layers: i64) -> i64 {
    let twice = layers.wrapping_mul(layers.wrapping_add(1));
    twice.wrapping_mul(layers.wrapping_add(2)) / 6
}

/// Checks that a list is five zeros and then pyramids, and returns its length.
fn pyramids(samples: &[i64]) -> Result<usize, Fail> {
    let mut layers: i64 = -5;
    for sample in samples {
        layers = layers.wrapping_add(1);
        let expected = if layers > 0 { pyramid(layers) } else { 0 };
        if *sample != expected {
            return Err(Fail::new(format_args!("{sample} in layer {layers}")));
        }
    }
    Ok(samples.len())
}

/// Returns one list: 1, 2, 3 .. 12,000.
fn naturals(alloc: Global) -> Result<Vec<Vec<i64>>, AllocError> {
    let mut samples = Vec::new(alloc);
    for sample in 1..12_001 {
        samples.push(sample)?;
    }
    one_list(alloc, samples)
}

/// Runs two sums on 1, 2, 3 .. over many blocks, and returns the output lists.
fn two_sums_made(alloc: Global) -> Result<Vec<Vec<i64>>, Fail> {
    let net = two_sums(alloc)?;
    let inputs = naturals(alloc)?;
    outputs_of(alloc, &net, 2000, &inputs)
}

/// Counts the output lists of two sums and the samples of the first, which must be pyramids.
fn sums_of_sums(alloc: Global) -> Result<String, Fail> {
    let outputs = two_sums_made(alloc)?;
    match outputs.first() {
        Some(made) => Ok(format!(in alloc; "{} {}", outputs.len(), pyramids(made)?)?),
        None => Ok(String::new(alloc)),
    }
}

#[test]
fn what_larger_runs_make(rt: HostRuntime) -> Result<(), Fail> {
    let alloc = rt.alloc();
    row_says("a short run", doubled_lengths(alloc, 1), "[2]")?;
    row_says("a long run", doubled_lengths(alloc, 10_000), "[20000]")?;
    row_says("sums of sums", sums_of_sums(alloc), "1 12000")?;
    row_says("samples need not be numbers", turned(alloc), "[[[2, 1]]]")
}
