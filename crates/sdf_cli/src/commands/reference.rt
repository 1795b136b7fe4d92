//! The commands that list the kinds and explain the faults: their arguments and help texts.

use super::{Argument, CommandRow, PLAIN, Syntax, Values};
use crate::requests::MAX_FAULT;

const NUMBER: Argument = Argument {
    name: "NUMBER",
    help: "The number of a fault, 1 to 63, or its name",
    more: "The number of a fault, 1 to 63, or its name, or both, as a fault's line has them:
`sdfw: 10 Deadlock`",
    syntax: Syntax::Place(Values::Signed(1, MAX_FAULT as i64)),
};

const JSON: Argument = Argument {
    name: "json",
    help: "Prints JSON, with the ports of each kind",
    more: "Prints JSON, with the ports of each kind: one value on one line. Errors are printed as JSON too, on standard error",
    syntax: PLAIN,
};

pub(super) const KINDS: CommandRow = CommandRow {
    name: "kinds",
    help: "Lists the kinds of actors, their keys and limits",
    more: "Lists the kinds of actors, their keys and limits: a line for each kind, and a last one for the keys
that every actor may have. A number in parentheses is the default.",
    arguments: &[JSON],
    scheduling: &[],
    examples: "Examples:
  sdfw kinds
  sdfw kinds | grep fir
  sdfw kinds --json",
};

pub(super) const EXPLAIN: CommandRow = CommandRow {
    name: "explain",
    help: "Says what a fault means and what to do about it",
    more: "Says what a fault means and what to do about it: the rest of its line, the limits within which it does
not occur, and a remedy. For fifteen faults of designs it shows lines of a graph file before and after.",
    arguments: &[NUMBER],
    scheduling: &[],
    examples: "Examples:
  sdfw explain 10
  sdfw explain Deadlock
  sdfw explain 10 Deadlock",
};
