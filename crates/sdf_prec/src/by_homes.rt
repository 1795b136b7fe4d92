//! Tables with given homes and one firing in each row.

ghost use Rattle.std.specs.Prelude.{◌≡◌, ℕ, ◌≤◌, ◌<◌, ◌^◌, ◌↔◌, length, slice_index, slice_index_or, IfOk, IsTrue};
ghost use Rattle.std.specs.Prelude.{MatchOption, MatchResult, Some, None};
ghost use Rattle.sdf_graph.specs.Rates.{rates};
ghost use Rattle.sdf_graph.specs.Sequences.{repeated, IsPass};
ghost use Rattle.sdf_sched.specs.Period.{IsPeriodOf};
ghost use Rattle.sdf_prec.specs.Blocks.{block, IsShort};
ghost use Rattle.sdf_prec.specs.Tables.{IsTable, IsHomed};
ghost use Rattle.sdf_prec.specs.Accepting.{IsSize};
ghost use Rattle.sdf_prec.specs.ByHomes.{HasHome, IsBadHome, AreByHomes, AreRunsByHomes, IsHomesFault};

use crate::block::{block_firings, block_order, size_fault};
use crate::fault::PrecFault;
use crate::firing::Firing;
use crate::table::Table;
use crate::table::rows::Rows;
use sdf_graph::Graph;
use sdf_limits::MAX_BLOCK;
use sdf_sched::class_s::class_s_of;
use sdf_sched::{Period, Runs};
use std::alloc::{AllocError, Global};

/// Checks whether the home of `actor` is one of the first `m` columns.
fn has_home(homes: &[Option<usize>], m: usize, actor: usize) -> bool
    ensures { IsTrue result ↔ HasHome homes.now m actor }
{
    if actor >= homes.len() {
        return false;
    }
    match homes[actor] {
        Some(home) => home < m,
        None => false,
    }
}

/// Returns the lowest actor without a home below `m`.
fn bad_home(homes: &[Option<usize>], m: usize, actors: usize) -> Option<usize>
    ensures { MatchOption result ((a : ℕ) → a < actors → HasHome homes.now m a) (IsBadHome homes.now m actors) }
{
    for actor in 0..actors {
        if !has_home(homes, m, actor) {
            return Some(actor);
        }
    }
    None
}

/// Returns the home of `actor`, or 0 if it does not have one.
fn home_of(homes: &[Option<usize>], actor: usize) -> usize
    requires { actor < length homes.now }
    ensures { (blocking : ℕ) → slice_index_or homes.now actor None ≡ Some blocking → result ≡ blocking }
{
    homes[actor].unwrap_or(0)
}

/// Returns one row for each firing in `order`, with the firing in its actor's home.
fn rows_of(
    alloc: Global,
    order: &[usize],
    actors: usize,
    m: usize,
    homes: &[Option<usize>],
) -> Result<Rows, AllocError>
    requires known { (p : ℕ) → p < length order.now → slice_index order.now p < actors }
    requires few { length order.now ≤ MAX_BLOCK }
    requires homed { (a : ℕ) → a < actors → HasHome homes.now m a }
    ensures { IfOk result (λ rows. AreByHomes homes.now m order.now rows.rows) }
{
    let mut done = vec![in alloc; 0u32; actors]?;
    let mut rows = Rows::new(alloc, m);
    let mut row = vec![in alloc; None; m]?;
    for actor in order {
        let actor = *actor;
        let number = done[actor];
        done[actor] = number + 1;
        let home = home_of(homes, actor);
        row[home] = Some(Firing { actor, number });
        rows.push(&row)?;
        row[home] = None;
    }
    Ok(rows)
}

/// Returns the reason why there is no table with these homes: its size, or an actor without a home below `m`.
fn homes_fault(blocking: u32, m: usize, reps: &[u32], homes: &[Option<usize>]) -> Option<PrecFault>
    requires few { length reps.now < 2 ^ 20 }
    ensures { MatchOption result
        (IsSize blocking m reps.now × ((a : ℕ) → a < length reps.now → HasHome homes.now m a))
        (IsHomesFault blocking m reps.now homes.now) }
{
    if let Some(fault) = size_fault(blocking, m, reps) {
        return Some(fault);
    }
    match bad_home(homes, m, reps.len()) {
        Some(actor) => Some(PrecFault::BadHome { actor }),
        None => None,
    }
}

/// Returns the table of `order`, with one firing in each row, in its actor's home.
fn table_by_order(
    alloc: Global,
    graph: &Graph,
    order: &[usize],
    m: usize,
    homes: &[Option<usize>],
) -> Result<Table, AllocError>
    requires pass { (n : ℕ → ℕ) × IsPass (rates graph.now) n order.now × ((a : ℕ) → n a ≤ MAX_BLOCK) }
    requires few { length order.now ≤ MAX_BLOCK }
    requires homed { (a : ℕ) → a < graph.now.actors → HasHome homes.now m a }
    ensures table { IfOk result (λ t. (n : ℕ → ℕ) → IsPass (rates graph.now) n order.now →
        IsTable (rates graph.now) n m t) }
    ensures rows { IfOk result (λ t. AreByHomes homes.now m order.now t.rows) }
{
    let rows = rows_of(alloc, order, graph.actors(), m, homes)?;
    let table = Table::of_rows(alloc, graph, rows)?;
    Ok(table)
}

/// Returns the table of the firings of `blocking` periods in the order of `Runs`, one in each row, in its actor's home.
pub(crate) fn in_runs(
    alloc: Global,
    graph: &Graph,
    period: &Period,
    blocking: u32,
    m: usize,
    homes: &[Option<usize>],
) -> Result<Table, AllocError>
    requires period { IsPeriodOf (rates graph.now) period.now }
    requires some { 1 ≤ blocking }
    requires short { IsShort blocking period.now.repetitions }
    requires homed { (a : ℕ) → a < graph.now.actors → HasHome homes.now m a }
    ensures table { IfOk result (IsTable (rates graph.now) (slice_index (block blocking period.now.repetitions)) m) }
    ensures homed { IfOk result IsHomed }
    ensures runs { IfOk result (λ t. AreRunsByHomes (rates graph.now)
        (slice_index (block blocking period.now.repetitions))
        homes.now m t.rows) }
{
    graph.channels();
    let firings = block_firings(alloc, blocking, period.repetitions())?;
    let order = class_s_of(alloc, graph, &firings, &mut Runs::new())?;
    let table = table_by_order(alloc, graph, &order, m, homes)?;
    Ok(table)
}

impl Table {
    /// Makes the table of the order of `period`, `blocking` times, for `m` workers. Each row has one firing, in its
    /// actor's home.
    ///
    /// It errs with the first of `BlockingFactor`, `WorkerCount`, `BlockTooLong` and `BadHome`. `BadHome` has the
    /// lowest actor without a home among the `m` columns.
    pub fn by_homes(
        alloc: Global,
        graph: &Graph,
        period: &Period,
        blocking: u32,
        m: usize,
        homes: &[Option<usize>],
    ) -> Result<Table, PrecFault>
        requires { IsPeriodOf (rates graph.now) period.now }
        ensures { MatchResult result
            (λ t. IsSize blocking m period.now.repetitions ×
            IsTable (rates graph.now) (slice_index (block blocking period.now.repetitions)) m t ×
            AreByHomes homes.now m (repeated blocking period.now.order) t.rows)
            (IsHomesFault blocking m period.now.repetitions homes.now) }
    {
        graph.channels();
        if let Some(fault) = homes_fault(blocking, m, period.repetitions(), homes) {
            return Err(fault);
        }
        let order = block_order(alloc, blocking, period.order())?;
        let table = table_by_order(alloc, graph, &order, m, homes)?;
        Ok(table)
    }

    /// Makes the table of the firings of `blocking` periods in runs, for `m` workers. An actor fires on while it is
    /// runnable in the block, and then the next runnable one in file order. Each row has one firing, in its actor's
    /// home.
    ///
    /// It errs like `by_homes`.
    pub fn by_homes_in_runs(
        alloc: Global,
        graph: &Graph,
        period: &Period,
        blocking: u32,
        m: usize,
        homes: &[Option<usize>],
    ) -> Result<Table, PrecFault>
        requires { IsPeriodOf (rates graph.now) period.now }
        ensures { MatchResult result
            (λ t. IsSize blocking m period.now.repetitions ×
            IsTable (rates graph.now) (slice_index (block blocking period.now.repetitions)) m t ×
            AreRunsByHomes (rates graph.now) (slice_index (block blocking period.now.repetitions)) homes.now m t.rows)
            (IsHomesFault blocking m period.now.repetitions homes.now) }
    {
        graph.channels();
        if let Some(fault) = homes_fault(blocking, m, period.repetitions(), homes) {
            return Err(fault);
        }
        let table = in_runs(alloc, graph, period, blocking, m, homes)?;
        Ok(table)
    }
}
