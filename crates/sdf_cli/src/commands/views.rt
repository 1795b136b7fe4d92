//! The commands that show what a schedule does and what a run costs: their arguments and help texts.

use super::designs::{BLOCKING, GRAPH, IN, JSON, NO_WHY, PLACEMENT, POLICY, WHY, WORKERS};
use super::{Argument, CommandRow, PLAIN, Syntax, Values};

const COMPARE: Argument = Argument {
    name: "compare",
    help: "Compares the schedules of all policies, placements and numbers of workers",
    more: "Compares the schedules of all policies, placements and numbers of workers 1, 2, 4 and so on up to
`--workers`, a line for each. A star marks the best speedup, and the best of each other column among blocks
of equally many periods. If there is no schedule, the line has the number of a fault; `sdfw explain` says what
it means. `--policy` and `--placement` have no effect with it",
    syntax: PLAIN,
};

const DOT: Argument = Argument {
    name: "dot",
    help: "Writes the graph for Graphviz, without a schedule",
    more: "Writes the graph in the language of Graphviz, without a schedule: its actors, and its links with their
rates and initial samples",
    syntax: PLAIN,
};

const WRITE: Argument = Argument {
    name: "write",
    help: "Writes the graph file with the measured costs, `-` for standard output",
    more: "Writes the graph file into FILE, with the measured `cost` of each actor and everything else unchanged. `-`
is standard output, in place of the report. FILE must not be a file that is read; its old content is lost.
Each actor needs a table of its own, below a line `[[actor]]`. A cost that it has must be a line like
`cost = 12`; a missing one is added",
    syntax: Syntax::Choice("FILE", Values::Path, None),
};

pub(super) const ANALYZE: CommandRow = CommandRow {
    name: "analyze",
    help: "Prints how long a schedule takes and what its links hold",
    more: "Prints how long a schedule takes and what its links hold. A firing starts as soon as it may, and takes
the time that the key `cost` of its actor gives, or 1. The makespan is the time when the last firing ends, and
the work is the sum of all costs. No schedule of the block ends before the bound. The speedup is the work over
the makespan. For each worker, the part of the makespan in which it fires is printed.",
    arguments: &[
        GRAPH, BLOCKING, WORKERS, POLICY, PLACEMENT, COMPARE, WHY, NO_WHY, JSON,
    ],
    scheduling: &[],
    examples: "Examples:
  sdfw analyze graph.toml --workers 2
  sdfw analyze graph.toml --workers 8 --compare",
};

pub(super) const DRAW: CommandRow = CommandRow {
    name: "draw",
    help: "Draws a graph and its schedule",
    more: "Draws a graph and its schedule as one SVG image on standard output, for a browser: the actors with
their firings in a period, the links with their rates, initial samples and capacities, and below them
the table against time, a lane for each worker.",
    arguments: &[
        GRAPH, BLOCKING, WORKERS, POLICY, PLACEMENT, DOT, WHY, NO_WHY,
    ],
    scheduling: &[],
    examples: "Examples:
  sdfw draw graph.toml --workers 2 > graph.svg
  sdfw draw graph.toml --dot | dot -Tpdf > graph.pdf",
};

pub(super) const PROFILE: CommandRow = CommandRow {
    name: "profile",
    help: "Measures each actor's share of the time of a run",
    more: "Measures a run over a WAV file in one thread: each actor's share of the time, and the nanoseconds of a
firing. Prints them with the keys `cost` for the graph file, the least of which is 1. The output of the run is
not written. IN is read whole, and has at most 1073741824 bytes.",
    arguments: &[GRAPH, IN, WRITE, WHY, NO_WHY],
    scheduling: &[],
    examples: "Examples:
  sdfw profile graph.toml in.wav
  sdfw profile graph.toml in.wav --write measured.toml",
};
