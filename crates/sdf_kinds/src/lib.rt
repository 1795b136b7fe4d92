//! The table of the kinds of actors: a row for each kind, with its word, its keys and their limits. Beside it, the
//! ports of each kind.
//!
//! `kinds` returns all kinds, `row_of` the row of one kind, and `kinds_text` the table as a text; `keys_text` and
//! `limits_text` return parts of it. `ports` has the ports of each kind, by the values of its keys or by their names.
//! The reader of graph files, the kit and the diagnostics use these. It depends on `sdf_limits`. Begin at `row`. The
//! definitions are in `specs/Keys.antt`, `specs/Rows.antt`, `specs/Ports.antt` and `specs/Listing.antt`.
#![tactic(auto)]

mod key;
mod listing;
pub mod ports;
mod row;

pub use key::Key;
pub use listing::{keys_text, kinds_text, limits_text};
pub use row::{Form, KeyForm, Kind, Row, Width, kinds, row_of, shared_keys};
