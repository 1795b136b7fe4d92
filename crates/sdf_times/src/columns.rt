//! The test that the firings of a column come one after another.

ghost use Rattle.std.specs.Prelude.{◌≡◌, ℕ, ◌^◌, ◌*◌, ◌≤◌, ◌<◌, ◌↔◌, length, slice_index, IsTrue, MatchOption, Some};
ghost use Rattle.sdf_prec.specs.declared.firing.Firing.{Firing};
ghost use Rattle.sdf_prec.specs.Costs.{AreCosts};
ghost use Rattle.sdf_prec.specs.Tables.{row, cell};
ghost use Rattle.sdf_times.specs.Times.{start_in, HasStart};
ghost use Rattle.sdf_times.specs.Checks.{IsPassed, IsTooSoon, IsColumnInTurn};

use crate::starts::Starts;
use sdf_prec::{Costs, Firing, Table};

/// Returns the firing in column `column` of row `i`, if there is one.
pub(crate) fn cell_of(table: &Table, i: usize, column: usize) -> Option<Firing>
    requires row { i < length table.now.rows }
    requires column { column < length (row table.now.rows i) }
    ensures { result ≡ cell table.now.rows i column }
{
    table.row(i)[column]
}

/// Returns the start of `firing` in the first block.
pub(crate) fn start_of(starts: &[Starts], firing: Firing) -> u64
    requires { HasStart starts.now firing }
    ensures { result ≡ start_in starts.now firing }
{
    starts[firing.actor].of(firing.number as usize)
}

/// Returns what `q` firings of `actor` cost.
pub(crate) fn pause_of(costs: &Costs, actor: usize, q: u64) -> u128
    requires { actor < length costs.now }
    ensures is { result ≡ q * slice_index costs.now actor }
    ensures small { result < 2 ^ 84 }
{
    u128::from(q) * u128::from(costs.of(actor))
}

/// Goes over the firings of a column, which is free from `from` on, and returns when it is free again. It returns
/// nothing if a firing starts before the column is free. The starts are put off by `add`.
fn scan_column(
    table: &Table,
    starts: &[Starts],
    costs: &Costs,
    q: u64,
    column: usize,
    add: u64,
    from: u128,
) -> Option<u128>
    requires wide { (i : ℕ) → i < length table.now.rows → column < length (row table.now.rows i) }
    requires has { (i j : ℕ) (f : Firing) → cell table.now.rows i j ≡ Some f → HasStart starts.now f }
    requires known { (i j : ℕ) (f : Firing) → cell table.now.rows i j ≡ Some f → f.actor < length costs.now }
    requires small { from < 2 ^ 97 }
    ensures { MatchOption result
        (IsTooSoon table.now.rows (slice_index costs.now) starts.now q column add from)
        (λ until. (until < 2 ^ 97) × IsPassed table.now.rows (slice_index costs.now) starts.now q column add from
        (length table.now.rows) until) }
{
    let mut until = from;
    for i in 0..table.rows() {
        if let Some(firing) = cell_of(table, i, column) {
            let start = u128::from(start_of(starts, firing)) + u128::from(add);
            if start < until {
                return None;
            }
            until = start + pause_of(costs, firing.actor, q);
        }
    }
    Some(until)
}

/// Checks whether the firings of the second block find a column free that the first block leaves at `until`. They start
/// `t` after the firings of the first.
fn goes_round(
    table: &Table,
    starts: &[Starts],
    costs: &Costs,
    t: u64,
    q: u64,
    column: usize,
    until: u128,
) -> bool
    requires wide { (i : ℕ) → i < length table.now.rows → column < length (row table.now.rows i) }
    requires has { (i j : ℕ) (f : Firing) → cell table.now.rows i j ≡ Some f → HasStart starts.now f }
    requires known { (i j : ℕ) (f : Firing) → cell table.now.rows i j ≡ Some f → f.actor < length costs.now }
    requires small { until < 2 ^ 97 }
    requires first { IsPassed table.now.rows (slice_index costs.now) starts.now q column 0 0
        (length table.now.rows) until }
    ensures { IsTrue result ↔ IsColumnInTurn table.now.rows (slice_index costs.now) starts.now t q column }
{
    match scan_column(table, starts, costs, q, column, t, until) {
        Some(_) => true,
        None => false,
    }
}

/// Checks whether the firings of a column end before the next one starts. The next block's firings start `t` later.
/// Times are in units of `1/q`.
pub(crate) fn column_in_turn(
    table: &Table,
    starts: &[Starts],
    costs: &Costs,
    t: u64,
    q: u64,
    column: usize,
) -> bool
    requires wide { (i : ℕ) → i < length table.now.rows → column < length (row table.now.rows i) }
    requires has { (i j : ℕ) (f : Firing) → cell table.now.rows i j ≡ Some f → HasStart starts.now f }
    requires known { (i j : ℕ) (f : Firing) → cell table.now.rows i j ≡ Some f → f.actor < length costs.now }
    ensures { IsTrue result ↔ IsColumnInTurn table.now.rows (slice_index costs.now) starts.now t q column }
{
    match scan_column(table, starts, costs, q, column, 0, 0) {
        Some(until) => goes_round(table, starts, costs, t, q, column, until),
        None => false,
    }
}
