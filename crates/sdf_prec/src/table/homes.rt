//! The homes of actors: the columns that hold all their firings.

ghost use Rattle.std.specs.Prelude.{◌≡◌, ℕ, ◌+◌, ◌<◌, ◌↔◌, length, map, slice_index_or, slice_set, IfOk, Some, None};
ghost use Rattle.sdf_prec.specs.declared.firing.Firing.{Firing};
ghost use Rattle.sdf_prec.specs.Tables.{firings, row, Stands, IsHome};
ghost use Rattle.sdf_prec.specs.Homes.{AreHomeColumns, with_column, home_of, home_columns_of};

use crate::firing::Firing;
use crate::table::rows::Rows;
use std::alloc::{AllocError, Global};

/// The columns that hold an actor's firings: none, one, or several.
#[derive(Clone, Copy)]
pub(crate) enum HomeColumns {
    Nowhere,
    In(usize),
    Apart,
}

impl HomeColumns {
    /// Returns the columns with `column` added.
    fn with_column(self, column: usize) -> HomeColumns
        ensures { result ≡ with_column self column }
    {
        match self {
            HomeColumns::Nowhere => HomeColumns::In(column),
            HomeColumns::In(home) => {
                if home == column {
                    HomeColumns::In(home)
                } else {
                    HomeColumns::Apart
                }
            }
            HomeColumns::Apart => HomeColumns::Apart,
        }
    }

    /// Returns the column, if there is exactly one.
    fn home(self) -> Option<usize>
        ensures { result ≡ home_of self }
    {
        match self {
            HomeColumns::In(home) => Some(home),
            HomeColumns::Nowhere | HomeColumns::Apart => None,
        }
    }
}

/// Adds `column` to the columns of the actor of `firing`.
fn add_column(home_columns: &mut [HomeColumns], firing: Firing, column: usize)
    requires { firing.actor < length home_columns.old }
    ensures { home_columns.new ≡ slice_set home_columns.old firing.actor
        (with_column (home_columns_of home_columns.old firing.actor) column) }
{
    home_columns[firing.actor] = home_columns[firing.actor].with_column(column);
}

/// Adds the columns of the firings in row `i` to their actors' columns.
fn add_row_columns(rows: &Rows, i: usize, home_columns: &mut [HomeColumns])
    requires within { i < length rows.now.rows }
    requires known { (f : Firing) → Stands (firings (row rows.now.rows i)) f → f.actor < length home_columns.old }
    requires before { AreHomeColumns rows.now.rows i 0 home_columns.old }
    ensures { AreHomeColumns rows.now.rows (i + 1) 0 home_columns.new }
{
    for (column, cell) in rows.row(i).iter().enumerate() {
        if let Some(firing) = cell {
            add_column(home_columns, *firing, column);
        }
    }
}

/// Returns for each actor its column, if it has exactly one.
fn homes_of(alloc: Global, home_columns: &[HomeColumns]) -> Result<Vec<Option<usize>>, AllocError>
    ensures { IfOk result (λ v. v.items ≡ map home_of home_columns.now) }
{
    let mut homes = Vec::new(alloc);
    for one in home_columns {
        homes.push(one.home())?;
    }
    Ok(homes)
}

/// Returns for each actor the column that holds all its firings, if there is one.
pub(crate) fn homes(
    alloc: Global,
    actors: usize,
    rows: &Rows,
) -> Result<Vec<Option<usize>>, AllocError>
    requires { (i : ℕ) (f : Firing) → i < length rows.now.rows → Stands (firings (row rows.now.rows i)) f →
        f.actor < actors }
    ensures all { IfOk result (λ v. length v.items ≡ actors) }
    ensures each { IfOk result (λ v. (a j : ℕ) → a < actors →
        (slice_index_or v.items a None ≡ Some j) ↔ IsHome rows.now.rows a j) }
{
    let mut home_columns = vec![in alloc; HomeColumns::Nowhere; actors]?;
    for i in 0..rows.len() {
        add_row_columns(rows, i, &mut home_columns);
    }
    homes_of(alloc, &home_columns)
}
