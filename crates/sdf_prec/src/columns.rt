//! The columns of a table.

/// The number of columns, one for each worker, and whether each actor has a home: one column that holds all its
/// firings.
#[derive(Clone, Copy)]
pub struct Columns {
    pub workers: usize,
    pub homed: bool,
}
