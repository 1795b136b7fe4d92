//! Tests of what `schedule` and `check` print for worked designs, in full.

use crate::designs::{BLOCKS, CHAIN, INITIAL, PAIR, SECOND_DOUBLED};
use crate::running::fault_told;
use sdf_file::{Design, read_design};
use sdf_options::{Options, Placement, Policy};
use sdf_texts::check_text;
use sdf_texts::schedule::schedule;
use std::alloc::{AllocError, Global};
use std::test::Fail;
use test_texts::{row_says, says};

/// Two branches: a gain, and two gains one after the other. `FORK` and `LONG` stand for costs.
const SIDES: &str = r#"format = 1
actor = [{ name = "in", kind = "input", channel = 0 }, { name = "fork", kind = "fork", ways = 2, cost = FORK },
    { name = "x", kind = "gain", gain = 1, shift = 0, cost = LONG }, { name = "y", kind = "gain", gain = 1, shift = 0 },
    { name = "z", kind = "gain", gain = 1, shift = 0 }, { name = "add", kind = "add", ways = 2 },
    { name = "out", kind = "output", channel = 0 }]
link = [{ from = "in", to = "fork" }, { from = "fork:0", to = "x" }, { from = "fork:1", to = "y" },
    { from = "y", to = "z" },
    { from = "x", to = "add:0" }, { from = "z", to = "add:1" }, { from = "add", to = "out" }]"#;

/// A design, texts in it with their replacements, options, and what is printed.
#[derive(Clone, Copy)]
struct Row {
    name: &'static str,
    graph: &'static str,
    changes: &'static [(&'static str, &'static str)],
    options: Options,
    printed: &'static str,
}

const TWO_WORKERS: Options = Options {
    workers: 2,
    ..Options::DEFAULT
};

const BY_THE_FILE: Options = Options {
    placement: Placement::File,
    ..Options::DEFAULT
};

/// `BLOCKS` for two workers.
const TWO: Row = Row {
    name: "",
    graph: BLOCKS,
    changes: &[],
    options: TWO_WORKERS,
    printed: "",
};

/// `BLOCKS` by the file, with the first worker as the home of both ends.
const FILED: Row = Row {
    changes: &[("channel = 0", "channel = 0, processor = 0")],
    options: BY_THE_FILE,
    ..TWO
};

const ROWS: &[Row] = &[
    Row {
        name: "two workers",
        printed: "period 5\nq in 3\nq out 2\norder 2*in out in out\nblocking 1\nworkers 2\nrows 4\nrow in.0 -\n\
                  row in.1 -\nrow in.2 out.0\nrow - out.1\ncapacity in:0 out:0 6\n",
        ..TWO
    },
    Row {
        name: "one worker",
        printed: "period 5\nq in 3\nq out 2\norder 2*in out in out\nblocking 1\nworkers 1\nrows 5\nrow in.0\n\
                  row in.1\nrow out.0\nrow in.2\nrow out.1\ncapacity in:0 out:0 4\n",
        ..FILED
    },
    Row {
        name: "two periods in a block",
        options: Options {
            blocking: 2,
            ..TWO_WORKERS
        },
        printed: "period 5\nq in 3\nq out 2\norder 2*in out in out\nblocking 2\nworkers 2\nrows 7\nrow in.0 -\n\
                  row in.1 -\nrow in.2 out.0\nrow in.3 out.1\nrow in.4 -\nrow in.5 out.2\nrow - out.3\n\
                  capacity in:0 out:0 6\n",
        ..TWO
    },
    Row {
        name: "initial samples, in turn",
        graph: INITIAL,
        options: Options {
            policy: Policy::Round,
            ..BY_THE_FILE
        },
        printed: "period 2\nq in 1\nq out 1\norder in out\nblocking 1\nworkers 1\nrows 2\nrow in.0\nrow out.0\n\
                  capacity in:0 out:0 3\n",
        ..FILED
    },
    Row {
        name: "initial samples, lean",
        graph: INITIAL,
        options: Options {
            policy: Policy::Lean,
            ..BY_THE_FILE
        },
        printed: "period 2\nq in 1\nq out 1\norder out in\nblocking 1\nworkers 1\nrows 2\nrow out.0\nrow in.0\n\
                  capacity in:0 out:0 2\n",
        ..FILED
    },
    Row {
        name: "initial samples, in runs",
        graph: INITIAL,
        options: Options {
            policy: Policy::Runs,
            ..BY_THE_FILE
        },
        printed: "period 2\nq in 1\nq out 1\norder in out\nblocking 1\nworkers 1\nrows 2\nrow in.0\nrow out.0\n\
                  capacity in:0 out:0 3\n",
        ..FILED
    },
    Row {
        name: "blocks in runs",
        options: Options {
            policy: Policy::Runs,
            ..BY_THE_FILE
        },
        printed: "period 5\nq in 3\nq out 2\norder 3*in 2*out\nblocking 1\nworkers 1\nrows 5\nrow in.0\n\
                  row in.1\nrow in.2\nrow out.0\nrow out.1\ncapacity in:0 out:0 6\n",
        ..FILED
    },
    Row {
        name: "costs of one",
        graph: SIDES,
        changes: &[("FORK", "1"), ("LONG", "1")],
        printed: "period 7\nq in 1\nq fork 1\nq x 1\nq y 1\nq z 1\nq add 1\nq out 1\n\
                  order in fork x y z add out\nblocking 1\nworkers 2\nrows 6\nrow in.0 -\nrow - fork.0\n\
                  row y.0 x.0\nrow z.0 -\nrow - add.0\nrow out.0 -\ncapacity in:0 fork:0 1\n\
                  capacity fork:0 x:0 1\ncapacity fork:1 y:0 1\ncapacity y:0 z:0 1\ncapacity x:0 add:0 1\n\
                  capacity z:0 add:1 1\ncapacity add:0 out:0 1\n",
        ..TWO
    },
    Row {
        name: "a gain that costs three",
        graph: SIDES,
        changes: &[("FORK", "1"), ("LONG", "3")],
        printed: "period 7\nq in 1\nq fork 1\nq x 1\nq y 1\nq z 1\nq add 1\nq out 1\n\
                  order in fork x y z add out\nblocking 1\nworkers 2\nrows 6\nrow in.0 -\nrow - fork.0\n\
                  row x.0 y.0\nrow - z.0\nrow - add.0\nrow out.0 -\ncapacity in:0 fork:0 1\n\
                  capacity fork:0 x:0 1\ncapacity fork:1 y:0 1\ncapacity y:0 z:0 1\ncapacity x:0 add:0 1\n\
                  capacity z:0 add:1 1\ncapacity add:0 out:0 1\n",
        ..TWO
    },
    Row {
        name: "a fork that costs more",
        graph: SIDES,
        changes: &[("FORK", "4"), ("LONG", "3")],
        printed: "period 7\nq in 1\nq fork 1\nq x 1\nq y 1\nq z 1\nq add 1\nq out 1\n\
                  order in fork x y z add out\nblocking 1\nworkers 2\nrows 6\nrow in.0 -\nrow - fork.0\n\
                  row x.0 y.0\nrow - z.0\nrow add.0 -\nrow out.0 -\ncapacity in:0 fork:0 1\n\
                  capacity fork:0 x:0 1\ncapacity fork:1 y:0 1\ncapacity y:0 z:0 1\ncapacity x:0 add:0 1\n\
                  capacity z:0 add:1 1\ncapacity add:0 out:0 1\n",
        ..TWO
    },
    Row {
        name: "turns",
        graph: SECOND_DOUBLED,
        printed: "period 10\nq in 2\nq deal 2\nq x 1\nq y 1\nq gather 2\nq out 2\n\
                  order in deal x gather out in deal y gather out\nblocking 1\nworkers 2\nrows 6\nrow in.0 -\n\
                  row in.1 deal.0\nrow x.0 deal.1\nrow gather.0 y.0\nrow gather.1 out.0\nrow - out.1\n\
                  capacity in:0 deal:0 2\ncapacity deal:0 x:0 1\ncapacity deal:1 y:0 1\n\
                  capacity x:0 gather:0 1\ncapacity y:0 gather:1 1\ncapacity gather:0 out:0 2\n",
        ..TWO
    },
    Row {
        name: "a fork in two, whose links each hold one sample at most",
        graph: PAIR,
        changes: &[(", initial = [0]", "")],
        printed: "period 6\nq in 1\nq fork 1\nq x 1\nq y 1\nq add 1\nq out 1\norder in fork x y add out\n\
                  blocking 1\nworkers 2\nrows 5\nrow in.0 -\nrow - fork.0\nrow x.0 y.0\nrow add.0 -\n\
                  row - out.0\ncapacity in:0 fork:0 1\ncapacity fork:0 x:0 1\ncapacity fork:1 y:0 1\n\
                  capacity x:0 add:0 1\ncapacity y:0 add:1 1\ncapacity add:0 out:0 1\n",
        ..TWO
    },
    Row {
        name: "two gains that wait: both fire in the first row",
        graph: PAIR,
        printed: "period 6\nq in 1\nq fork 1\nq x 1\nq y 1\nq add 1\nq out 1\norder in fork x y add out\n\
                  blocking 1\nworkers 2\nrows 3\nrow x.0 y.0\nrow in.0 add.0\nrow fork.0 out.0\n\
                  capacity in:0 fork:0 1\ncapacity fork:0 x:0 1\ncapacity fork:1 y:0 1\n\
                  capacity x:0 add:0 1\ncapacity y:0 add:1 1\ncapacity add:0 out:0 1\n",
        ..TWO
    },
    Row {
        name: "a sink at home with a second worker of one",
        changes: &[
            ("block = 2", "processor = 0, block = 2"),
            ("block = 3", "processor = 1, block = 3"),
        ],
        printed: "3 sdfw: 19 BadHome actor 1\n",
        ..FILED
    },
    Row {
        name: "a sink without a home",
        changes: &[("block = 2", "processor = 0, block = 2")],
        printed: "3 sdfw: 19 BadHome actor 1\n",
        ..FILED
    },
    Row {
        name: "blocks of 1,023 and 1,024 samples, 64 periods at a time",
        changes: &[("block = 2", "block = 1023"), ("block = 3", "block = 1024")],
        options: Options {
            blocking: 64,
            ..TWO_WORKERS
        },
        printed: "3 sdfw: 13 BlockTooLong\n",
        ..TWO
    },
];

/// Returns the text of a row's design, with the changes made.
fn graph_of(alloc: Global, row: &Row) -> Result<String, AllocError> {
    let mut graph = String::from_str(alloc, row.graph)?;
    for (old, new) in row.changes {
        graph = graph.replace(alloc, *old, new)?;
    }
    Ok(graph)
}

/// Returns what `schedule` prints for `design`, or the exit status and the line of the fault.
fn schedule_told(alloc: Global, design: &Design, options: &Options) -> Result<String, Fail> {
    match schedule(alloc, design, options) {
        Ok(text) => Ok(text),
        Err(fault) => fault_told(alloc, fault),
    }
}

/// Returns what `schedule` prints for a row's design.
fn printed(alloc: Global, row: &Row) -> Result<String, Fail> {
    let graph = graph_of(alloc, row)?;
    let design = read_design(alloc, graph.as_bytes(), &[])?;
    schedule_told(alloc, &design, &row.options)
}

/// Checks what is printed for each row.
fn are_printed(alloc: Global, rows: &[Row]) -> Result<(), Fail> {
    for row in rows {
        row_says(row.name, printed(alloc, row), row.printed)?;
    }
    Ok(())
}

/// Returns what `check` prints for a design.
fn checked(alloc: Global, graph: &str) -> Result<String, Fail> {
    let design = read_design(alloc, graph.as_bytes(), &[])?;
    check_text(alloc, &design).map_err(Fail::from)
}

#[test]
fn what_is_printed(rt: HostRuntime) -> Result<(), Fail> {
    are_printed(rt.alloc(), ROWS)?;
    says(
        checked(rt.alloc(), CHAIN),
        "actors 6\nlinks 5\nperiod 612\nq in 147\nq a 147\nq b 98\nq c 28\nq d 32\nq out 160\n\
         input 147 output 160\n",
    )
}
