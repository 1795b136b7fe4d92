//! The actors of the firings of rows, in row order.

ghost use Rattle.std.specs.Prelude.{◌≡◌, ◌++◌, map, IfOk};
ghost use Rattle.sdf_prec.specs.Tables.{firings, sequence};

use crate::firing::Firing;
use crate::table::rows::Rows;
use std::alloc::{AllocError, Global};

/// Appends the actors of the firings of `row` to `order`.
fn push_row(row: &[Option<Firing>], order: &mut Vec<usize>) -> Result<(), AllocError>
    ensures { IfOk result (λ _. order.new.items ≡ order.old.items ++ map (λ f. f.actor) (firings row.now)) }
{
    for cell in row {
        if let Some(firing) = cell {
            order.push(firing.actor)?;
        }
    }
    Ok(())
}

/// Returns the actors of the firings of `rows`, by row, then by column.
pub(crate) fn sequence(alloc: Global, rows: &Rows) -> Result<Vec<usize>, AllocError>
    ensures { IfOk result (λ order. order.items ≡ sequence rows.now.rows) }
{
    let mut order = Vec::new(alloc);
    for i in 0..rows.len() {
        push_row(rows.row(i), &mut order)?;
    }
    Ok(order)
}
