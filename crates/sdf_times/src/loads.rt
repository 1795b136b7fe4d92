//! The loads of a table's columns.

ghost use Rattle.std.specs.Prelude.{◌≡◌, ℕ, ◌+◌, ◌≤◌, ◌<◌, ◌^◌, length, slice_index, IfOk, Option, Some};
ghost use Rattle.sdf_prec.specs.declared.firing.Firing.{Firing};
ghost use Rattle.sdf_prec.specs.Tables.{row, cell};
ghost use Rattle.sdf_times.specs.Times.{cost_in, load_of};

use sdf_limits::{MAX_BLOCK, MAX_COST};
use sdf_prec::{Costs, Firing, Table};
use std::alloc::{AllocError, Global};

/// Returns the cost of the firing in `cell`, or 0 if it is empty.
pub(crate) fn cost_at(costs: &Costs, cell: Option<Firing>) -> u64
    requires { (f : Firing) → cell ≡ Some f → f.actor < length costs.now }
    ensures is { result ≡ cost_in (slice_index costs.now) cell }
    ensures small { result ≤ MAX_COST }
{
    match cell {
        Some(firing) => u64::from(costs.of(firing.actor)),
        None => 0,
    }
}

/// Adds the costs of the firings in row `i` to the loads of their columns.
fn add_row(table: &Table, costs: &Costs, i: usize, loads: &mut Vec<u64>)
    requires within { i < length table.now.rows }
    requires wide { length (row table.now.rows i) ≡ length loads.old.items }
    requires known { (j : ℕ) (f : Firing) → cell table.now.rows i j ≡ Some f → f.actor < length costs.now }
    requires room { (j : ℕ) → slice_index loads.old.items j < 2 ^ 63 }
    ensures all { length loads.new.items ≡ length loads.old.items }
    ensures each { (j : ℕ) → j < length loads.old.items → slice_index loads.new.items j ≡
        slice_index loads.old.items j + cost_in (slice_index costs.now) (cell table.now.rows i j) }
    ensures small { (j : ℕ) → slice_index loads.new.items j ≤ slice_index loads.old.items j + MAX_COST }
{
    for (column, cell) in table.row(i).iter().enumerate() {
        loads[column] += cost_at(costs, *cell);
    }
}

/// Returns the load of each of the `m` columns of `table`: the cost of all firings in it.
pub(crate) fn loads(
    alloc: Global,
    table: &Table,
    costs: &Costs,
    m: usize,
) -> Result<Vec<u64>, AllocError>
    requires wide { (i : ℕ) → i < length table.now.rows → length (row table.now.rows i) ≡ m }
    requires known { (i j : ℕ) (f : Firing) → cell table.now.rows i j ≡ Some f → f.actor < length costs.now }
    requires short { length table.now.rows ≤ MAX_BLOCK }
    ensures all { IfOk result (λ v. length v.items ≡ m) }
    ensures each { IfOk result (λ v. (j : ℕ) → j < m →
        slice_index v.items j ≡ load_of (slice_index costs.now) table.now.rows j) }
{
    let mut loads = vec![in alloc; 0u64; m]?;
    for i in 0..table.rows() {
        add_row(table, costs, i, &mut loads);
    }
    Ok(loads)
}
