//! Candidates for the period.

ghost use Rattle.std.specs.Prelude.{◌≡◌, ℕ, ◌≤◌, ◌<◌, length, Some};
ghost use Rattle.sdf_prec.specs.declared.firing.Firing.{Firing};
ghost use Rattle.sdf_prec.specs.Tables.{row, cell};

use crate::columns::cell_of;
use crate::step::{Hold, Step};
use sdf_prec::{Costs, Firing, Table};
use std::alloc::{AllocError, Global};

/// A candidate: `time` for `blocks` blocks, in lowest terms, which the firings of `steps` take.
#[derive(Drop)]
pub(crate) struct Candidate {
    pub(crate) time: u64,
    pub(crate) blocks: u64,
    pub(crate) steps: Vec<Step>,
}

/// Returns the greatest number that divides both, or 0 if both are 0.
fn gcd(a: u64, b: u64) -> u64 {
    let mut pair = (a, b);
    for _ in 0..128u32 {
        match pair.0.checked_rem(pair.1) {
            Some(rest) => pair = (pair.1, rest),
            None => break,
        }
    }
    pair.0
}

/// Returns the column with the greatest load, and the lowest if there are several.
pub(crate) fn most_loaded(loads: &[u64]) -> usize
    ensures { 0 < length loads.now → result < length loads.now }
{
    let mut most = 0;
    for column in 1..loads.len() {
        if loads[column] > loads[most] {
            most = column;
        }
    }
    most
}

/// Returns the last row in which a firing stands in `column`.
fn last_row(table: &Table, column: usize) -> usize
    requires { (i : ℕ) → i < length table.now.rows → column < length (row table.now.rows i) }
{
    let mut last = 0;
    for row in 0..table.rows() {
        if cell_of(table, row, column).is_some() {
            last = row;
        }
    }
    last
}

impl Candidate {
    /// Returns the candidate of `steps`, which take `time` for `blocks` blocks.
    pub(crate) fn new(time: u64, blocks: u64, steps: Vec<Step>) -> Candidate {
        let divisor = gcd(time, blocks);
        Candidate {
            time: time.checked_div(divisor).unwrap_or(0),
            blocks: blocks.checked_div(divisor).unwrap_or(0),
            steps,
        }
    }

    /// Returns the firings in `column`, each of which waits for the one before, and the first for the last of the block
    /// before.
    pub(crate) fn of_column(
        alloc: Global,
        table: &Table,
        costs: &Costs,
        column: usize,
    ) -> Result<Candidate, AllocError>
        requires wide { (i : ℕ) → i < length table.now.rows → column < length (row table.now.rows i) }
        requires known { (i j : ℕ) (f : Firing) → cell table.now.rows i j ≡ Some f → f.actor < length costs.now }
    {
        let mut steps = Vec::new(alloc);
        let mut time = 0u64;
        let mut from = last_row(table, column);
        let mut blocks = 1;
        for to in 0..table.rows() {
            if let Some(firing) = cell_of(table, to, column) {
                steps.push(Step {
                    firing,
                    blocks,
                    hold: Hold::Worker { column, from, to },
                })?;
                time = time.saturating_add(u64::from(costs.of(firing.actor)));
                from = to;
                blocks = 0;
            }
        }
        Ok(Candidate::new(time, 1, steps))
    }
}
