//! Rows of cells in one list.

ghost use Rattle.std.specs.Prelude.{◌≡◌, ◌<◌, ◌++◌, ◌∷◌, [], length, IfOk};
ghost use Rattle.sdf_prec.specs.Tables.{row};

use crate::firing::Firing;
use std::alloc::{AllocError, Global};
use std::marker::Model;

/// Rows of `width` cells each, one after another in one list.
#[derive(Drop)]
pub(crate) struct Rows {
    width: usize,
    count: usize,
    cells: Vec<Option<Firing>>,
}

impl Model for Rows {
    ghost use Rattle.std.specs.Prelude.{◌≡◌, ◌*◌, length};
    ghost use Rattle.sdf_prec.specs.Rows.{RowsValue, rows_in};

    ghost Value = { RowsValue };

    ghost view = { λ r. record { width = r.width; rows = rows_in r.width r.count r.cells.items } };

    ghost invariant = { λ r. length r.cells.items ≡ r.count * r.width };
}

impl Rows {
    /// Returns an empty list of rows with `width` cells each.
    pub(crate) fn new(alloc: Global, width: usize) -> Rows
        ensures { result ≡ record { width = width; rows = [] } }
    {
        Rows {
            width,
            count: 0,
            cells: Vec::new(alloc),
        }
    }

    /// Returns the number of rows.
    pub(crate) fn len(&self) -> usize
        ensures { result ≡ length self.now.rows }
    {
        self.count
    }

    /// Returns the cells of row `i`.
    pub(crate) fn row(&self, i: usize) -> &[Option<Firing>]
        requires { i < length self.now.rows }
        ensures { result.now ≡ row self.now.rows i }
    {
        let cells = self.cells.as_slice();
        let start = i * self.width;
        &cells[start..start + self.width]
    }

    /// Appends a copy of `cells` as the last row.
    pub(crate) fn push(&mut self, cells: &[Option<Firing>]) -> Result<(), AllocError>
        requires wide { length cells.now ≡ self.old.width }
        requires some { 0 < length cells.now }
        ensures width { self.new.width ≡ self.old.width }
        ensures rows { IfOk result (λ _. self.new.rows ≡ self.old.rows ++ cells.now ∷ []) }
    {
        self.cells.extend_from_slice(cells)?;
        self.count += 1;
        Ok(())
    }
}
