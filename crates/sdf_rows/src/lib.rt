//! Barrier-synchronous runs of nets, by the rows of a table: the firings of a row run in parallel.
//!
//! It depends on `sdf_queues`, `sdf_graph`, `sdf_prec`, `sdf_actor`, `sdf_node` and `sdf_limits`. Begin at `feed`: a
//! run and the net state that it leaves, from which another run can go on. `rows` is the run alone. Then read
//! `table_blocks` (its blocks), `runs` (their rows), `row_state` (one row), `row_firing` (the parallel firings of a
//! row, which share a `scene`), and `collect` (the lists that sinks make). The state between two rows is defined in
//! `specs/RowStates.antt`.
#![tactic(auto)]

mod collect;
pub mod feed;
mod row_firing;
mod row_state;
pub mod rows;
mod runs;
mod scene;
mod setup;
mod table_blocks;

pub use feed::{feed_rows, resume_rows};
pub use rows::run_rows;
pub use table_blocks::TableBlocks;
