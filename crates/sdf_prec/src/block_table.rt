//! What workers follow: a period, and a table of a block of it.

use crate::table::Table;
use sdf_sched::Period;

/// The plan that workers follow: the schedule of a period, the number of periods in a block, and a table of the
/// firings of a block.
#[derive(Drop)]
pub struct BlockTable {
    pub period: Period,
    /// Periods in a block.
    pub blocking: u32,
    pub table: Table,
}
