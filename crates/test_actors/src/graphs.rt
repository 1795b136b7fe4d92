//! Graphs from rows.

ghost use Rattle.std.specs.Prelude.{◌≡◌, IfOk};
ghost use Rattle.test_actors.specs.Rows.{edges};

use sdf_graph::{Channel, Graph, GraphFault};
use std::alloc::{AllocError, Global};

/// A channel: from, put, take, to, initial.
pub type Row<'a> = (usize, &'a [u32], &'a [u32], usize, usize);

#[tactic(auto, using(std::proofs::lemmas::List::map_push, std::proofs::lemmas::List::map_more))]
fn channels(alloc: Global, rows: &[Row]) -> Result<Vec<Channel>, AllocError>
    ensures { IfOk result (λ v. v.items ≡ edges rows.now) }
{
    let mut channels = Vec::new(alloc);
    for (from, put, take, to, initial) in rows {
        channels.push(Channel {
            from: *from,
            put: Vec::from_slice(alloc, put)?,
            to: *to,
            take: Vec::from_slice(alloc, take)?,
            initial: *initial,
        })?;
    }
    Ok(channels)
}

/// Makes a graph of `actors` actors, with a channel for each row.
pub fn graph(alloc: Global, actors: usize, rows: &[Row]) -> Result<Graph, GraphFault>
    ensures { IfOk result (λ g. g ≡ record { actors = actors; channels = edges rows.now }) }
{
    Graph::new(alloc, actors, channels(alloc, rows)?)
}
