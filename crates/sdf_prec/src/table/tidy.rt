//! Rows filled up to a width, without empty rows.

ghost use Rattle.std.specs.Prelude.{◌≡◌, ℕ, ◌<◌, ◌↔◌, length, map, IfOk, IsTrue};
ghost use Rattle.sdf_prec.specs.Tables.{firings};
ghost use Rattle.sdf_prec.specs.Refusals.{AreNarrow};
ghost use Rattle.sdf_prec.specs.Tidied.{tidy_rows};

use crate::firing::Firing;
use crate::table::rows::Rows;
use std::alloc::{AllocError, Global};

/// Checks whether `row` has a firing.
#[tactic(auto, using(crate::proofs::RowCells::stands_at, crate::proofs::Marks::firings_none))]
pub(crate) fn has_firing(row: &[Option<Firing>]) -> bool
    ensures { IsTrue result ↔ 0 < length (firings row.now) }
{
    for cell in row {
        if cell.is_some() {
            return true;
        }
    }
    false
}

/// Returns the rows with a firing, filled up to `width` cells.
pub(crate) fn tidy_rows(
    alloc: Global,
    width: usize,
    rows: &[Vec<Option<Firing>>],
) -> Result<Rows, AllocError>
    requires { AreNarrow width (map (λ r. r.items) rows.now) (length rows.now) }
    ensures { IfOk result (λ t. t.rows ≡ tidy_rows width (map (λ r. r.items) rows.now)) }
{
    let mut kept = Rows::new(alloc, width);
    let mut full = Vec::new(alloc);
    for row in rows {
        if has_firing(row) {
            full.clear();
            full.extend_from_slice(row)?;
            full.resize(width, None)?;
            kept.push(&full)?;
        }
    }
    Ok(kept)
}
