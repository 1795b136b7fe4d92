//! The ways to run the blocks of a session.

/// A way to run the blocks of a session. Both ways make the same outputs.
#[derive(Debug, Clone, Copy)]
pub enum Mode {
    /// Barrier-synchronous: row by row of the table, the firings of a row in parallel.
    Rows,
    /// Self-timed: a worker for each column, over rings of the table's capacities. `patience` is the spin limit: each
    /// worker repeats at most `patience` tests in a round.
    Rings { patience: u32 },
}
