//! Rows with homes: each actor's firings are in its home.

ghost use Rattle.std.specs.Prelude.{◌≡◌, ℕ, ◌<◌, ◌≤◌, ◌*◌, ◌↔◌, List, length, slice_index, slice_index_or, MatchOption};
ghost use Rattle.std.specs.Prelude.{IfOk, Option, Some, None, IsTrue};
ghost use Rattle.sdf_prec.specs.declared.firing.Firing.{Firing};
ghost use Rattle.sdf_prec.specs.Tables.{firing};
ghost use Rattle.sdf_prec.specs.Trying.{IsPlace};
ghost use Rattle.sdf_prec.specs.Placing.{AreWeights, load_by, IsOpen, IsBest, IsNowhere, IsPlacing, AreWaiting};

use crate::firing::Firing;
use std::alloc::AllocError;

/// Returns the load of `column`: the sum of the weights of the actors at home there.
fn load_of(weights: &[u64], homes: &[Option<usize>], column: usize) -> u64
    requires weights { AreWeights weights.now homes.now }
    ensures { result ≡ load_by weights.now homes.now column }
{
    let mut load = 0;
    for actor in 0..homes.len() {
        if homes[actor] == Some(column) {
            load += weights[actor];
        }
    }
    load
}

/// Checks whether `column` is idle at time `now` and still empty.
fn is_open(until: &[u64], now: u64, cells: &[Option<Firing>], column: usize) -> bool
    requires known { column < length until.now }
    requires wide { length cells.now ≡ length until.now }
    ensures { IsTrue result ↔ IsOpen until.now now cells.now column }
{
    until[column] <= now && cells[column].is_none()
}

/// Checks whether `column` has less load than `best`, or there is no `best` column yet.
fn is_less_loaded(
    weights: &[u64],
    homes: &[Option<usize>],
    column: usize,
    best: Option<usize>,
) -> bool
    requires weights { AreWeights weights.now homes.now }
    ensures { IsTrue result ↔ ((b : ℕ) → best ≡ Some b →
        load_by weights.now homes.now column < load_by weights.now homes.now b) }
{
    match best {
        Some(other) => load_of(weights, homes, column) < load_of(weights, homes, other),
        None => true,
    }
}

/// Returns the open column of least load, the lowest if there are several.
fn least_open(
    until: &[u64],
    now: u64,
    cells: &[Option<Firing>],
    weights: &[u64],
    homes: &[Option<usize>],
) -> Option<usize>
    requires wide { length cells.now ≡ length until.now }
    requires weights { AreWeights weights.now homes.now }
    ensures { IsBest (length until.now) (IsOpen until.now now cells.now) (load_by weights.now homes.now) result }
{
    let mut best = None;
    for column in 0..until.len() {
        if is_open(until, now, cells, column) && is_less_loaded(weights, homes, column, best) {
            best = Some(column);
        }
    }
    best
}

/// Returns the column for a firing whose actor has this `home`: the home if it is open. Without a home it is the open
/// column of least load.
fn column_for(
    home: Option<usize>,
    until: &[u64],
    now: u64,
    cells: &[Option<Firing>],
    weights: &[u64],
    homes: &[Option<usize>],
) -> Option<usize>
    requires home { (j : ℕ) → home ≡ Some j → j < length until.now }
    requires wide { length cells.now ≡ length until.now }
    requires weights { AreWeights weights.now homes.now }
    ensures { MatchOption result
        (IsNowhere (length until.now) (IsOpen until.now now cells.now) home)
        (IsPlace (length until.now) (IsOpen until.now now cells.now) (load_by weights.now homes.now) home) }
{
    match home {
        Some(column) => {
            if is_open(until, now, cells, column) {
                Some(column)
            } else {
                None
            }
        }
        None => least_open(until, now, cells, weights, homes),
    }
}

/// Makes `cells` the row in which each firing of `queue` is in its actor's home if that is open. An actor without a
/// home gets the open column of least load when its first firing is tried.
pub(crate) fn place(
    queue: &[Firing],
    until: &[u64],
    now: u64,
    weights: &[u64],
    homes: &mut [Option<usize>],
    cells: &mut Vec<Option<Firing>>,
) -> Result<(), AllocError>
    requires weights { AreWeights weights.now homes.old }
    requires known { (p : ℕ) → p < length queue.now → (firing queue.now p).actor < length homes.old }
    requires once { (p m : ℕ) → p < m → m < length queue.now → firing queue.now p ≡ firing queue.now m → ⊥ }
    requires inside { (a j : ℕ) → slice_index_or homes.old a None ≡ Some j → j < length until.now }
    ensures all { length homes.new ≡ length homes.old }
    ensures inside { (a j : ℕ) → slice_index_or homes.new a None ≡ Some j → j < length until.now }
    ensures placed { IfOk result (λ _. IsPlacing (length homes.old) (length until.now) (slice_index weights.now)
        (λ j. slice_index until.now j ≤ now) (λ a. slice_index_or homes.old a None) queue.now (length queue.now)
        cells.new.items homes.new) }
    ensures waiting { IfOk result (λ _. AreWaiting until.now now queue.now (length queue.now)
        cells.new.items homes.new) }
{
    cells.clear();
    cells.resize(until.len(), None)?;
    for firing in queue {
        let home = homes[firing.actor];
        if let Some(column) = column_for(home, until, now, cells, weights, homes) {
            cells[column] = Some(*firing);
            homes[firing.actor] = Some(column);
        }
    }
    Ok(())
}
