//! Tables from given rows.
//!
//! The rows are tested first: `cells` tests the width of rows and the cells in them, `missing` finds firings in no row,
//! and `late` finds firings that wait for one in no earlier row.

pub(crate) mod cells;
pub(crate) mod late;
pub(crate) mod missing;

ghost use Rattle.std.specs.Prelude.{◌≡◌, ℕ, ◌+◌, ◌≤◌, ◌<◌, List, length, map, sum, slice_index, IfOk, MatchOption};
ghost use Rattle.std.specs.Prelude.{MatchResult, Option};
ghost use Rattle.sdf_graph.specs.Rates.{rates};
ghost use Rattle.sdf_graph.specs.Periods.{IsPeriodVector};
ghost use Rattle.sdf_prec.specs.declared.firing.Firing.{Firing};
ghost use Rattle.sdf_prec.specs.Blocks.{block};
ghost use Rattle.sdf_prec.specs.Refusals.{AllPass, StandsFirst};
ghost use Rattle.sdf_prec.specs.Accepting.{IsSize, IsAccepted, IsTableFault};

use crate::accept::cells::mark_rows;
use crate::accept::late::first_late_in;
use crate::accept::missing::first_missing;
use crate::block::{block_firings, size_fault};
use crate::fault::PrecFault;
use crate::firing::Firing;
use crate::numbers::Numbers;
use crate::table::Table;
use crate::table::tidy::tidy_rows;
use sdf_graph::Graph;
use sdf_limits::MAX_BLOCK;
use std::alloc::{AllocError, Global};

/// Returns the fault of the first test that `rows` fail, for a block in which the actors fire `firings` times each.
fn rows_fault(
    alloc: Global,
    graph: &Graph,
    firings: Vec<u32>,
    width: usize,
    rows: &[Vec<Option<Firing>>],
) -> Result<Option<PrecFault>, AllocError>
    requires each { length firings.items ≡ graph.now.actors }
    requires few { sum firings.items ≤ MAX_BLOCK }
    requires enough { (c : ℕ) → c < length graph.now.channels →
        (rates graph.now).consumed c (slice_index firings.items ((rates graph.now).target c)) ≤
        (rates graph.now).initial c + (rates graph.now).produced c
        (slice_index firings.items ((rates graph.now).source c)) }
    ensures { IfOk result (λ o. MatchOption o
        (AllPass (rates graph.now) (slice_index firings.items) width (map (λ r. r.items) rows.now))
        (StandsFirst (rates graph.now) (slice_index firings.items) width (map (λ r. r.items) rows.now))) }
{
    let mut marks = Numbers::new(alloc, firings)?;
    let mut order = Vec::new(alloc);
    if let Some(fault) = mark_rows(width, rows, &mut marks, &mut order)? {
        return Ok(Some(fault));
    }
    if let Some(firing) = first_missing(&marks) {
        return Ok(Some(PrecFault::FiringMissing { firing }));
    }
    Ok(first_late_in(graph, &marks, rows))
}

impl Table {
    /// Makes the table with these rows, for `m` workers and a block of `blocking` periods in which the actors fire
    /// `reps` times each. Shorter rows are filled up, and rows without a firing are left out.
    ///
    /// It errs with the first fault in this order:
    /// 1. `BlockingFactor`, `WorkerCount`, `BlockTooLong`;
    /// 2. row by row `RowTooWide`, and column by column `FiringTwice` and `FiringUnknown`;
    /// 3. `FiringMissing` with the lowest actor and its first missing firing;
    /// 4. in row order `TooEarly`, with the actor's previous firing, or otherwise by channel with the last one needed.
    pub fn accept(
        alloc: Global,
        graph: &Graph,
        reps: &[u32],
        blocking: u32,
        m: usize,
        rows: Vec<Vec<Option<Firing>>>,
    ) -> Result<Table, PrecFault>
        requires { IsPeriodVector (rates graph.now) reps.now }
        ensures { let given : List (List (Option Firing)) = map (λ r. r.items) rows.items in
            MatchResult result
            (λ t. IsSize blocking m reps.now × IsAccepted (rates graph.now)
            (slice_index (block blocking reps.now)) m given t)
            (IsTableFault (rates graph.now) blocking m reps.now given) }
    {
        graph.channels();
        if let Some(fault) = size_fault(blocking, m, reps) {
            return Err(fault);
        }
        let firings = block_firings(alloc, blocking, reps)?;
        if let Some(fault) = rows_fault(alloc, graph, firings, m, &rows)? {
            return Err(fault);
        }
        let kept = tidy_rows(alloc, m, &rows)?;
        let table = Table::of_rows(alloc, graph, kept)?;
        Ok(table)
    }
}
