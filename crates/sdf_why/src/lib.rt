//! The diagnostics for faults, in the words of the user's own files.
//!
//! It depends on `sdf_document`, whose faults it explains, and on the table of `sdf_kinds`. `sdf_file` reads a design
//! again, and its net needs `sdf_actor`, `sdf_graph` and `sdf_kit`. `sdf_options` makes a text printable, and
//! `sdf_similar` finds names that are like a word. Begin at `diagnostics`. `document`, `net`, `cycle`, `block` and
//! `sound` have the lines of each fault, `loops` a loop that may keep samples. `limits` has the limits of a key,
//! `places` its line at a place, `types` its type, `values` the first value of a list that does not fit, and
//! `coefficients` the lines of a coefficient file. `facts` has what a fault is about as values, and `spots` its line.
//! `near` has what may have been meant, `synonyms` the words that users try for kinds, and `kind` also the format that
//! a kind needs. `more` has what the tables of a net do not show. It needs the graph that `channels` makes, and `ports`
//! for the ports of its actors. `notes` has what of a sound a run did not read. The definitions are in `specs/`, a file
//! for each module; begin at `specs/Diagnostics.antt`.
#![tactic(auto)]

mod actors;
mod block;
mod channels;
mod coefficients;
mod cycle;
mod diagnostics;
mod document;
mod facts;
mod kind;
mod limits;
mod links;
mod loops;
mod marks;
mod messages;
mod more;
mod near;
mod net;
mod notes;
mod places;
mod ports;
mod sound;
mod spots;
mod synonyms;
mod tables;
mod types;
mod values;
mod words;

pub use cycle::Halt;
pub use diagnostics::{
    DesignFiles, block_text, channels_text, deadlock_text, file_text, home_text, rate_text,
};
pub use document::document_text;
pub use facts::{Facts, document_facts, home_facts, net_facts};
pub use loops::loop_text;
pub use messages::{device_text, toml_text};
pub use notes::{channels_note, cut_note, size_note};
pub use sound::Header;
pub use spots::Spot;
