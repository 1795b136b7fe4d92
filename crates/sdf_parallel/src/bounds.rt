//! Where the parts of a run begin and end.

ghost use Rattle.std.specs.Prelude.{◌≡◌, ◌+◌, ◌≤◌, ◌<◌, IfOk};
ghost use Rattle.sdf_parallel.specs.Bounds.{AreBounds, part_length};

use crate::part::Split;
use sdf_actor::Actor;
use std::alloc::{AllocError, Global};

/// Returns the number of periods of the part that begins at the period `from`.
fn part_length<A: Actor>(split: Split<'_, A>, from: u32) -> u32
    requires stretch { 0 < split.stretch }
    requires within { from ≤ split.periods }
    ensures { result ≡ part_length split.entry from }
{
    let left = split.periods - from;
    let half = left.div_ceil(split.workers.max(1)) / 2;
    (half - half % split.stretch).max(split.least).min(left)
}

/// Returns the period at which each part of `split` begins, and the end of the last one. A run of no periods has one
/// part.
pub(crate) fn part_bounds<A: Actor>(
    alloc: Global,
    split: Split<'_, A>,
) -> Result<Vec<u32>, AllocError>
    requires least { 0 < split.least }
    requires stretch { 0 < split.stretch }
    ensures { IfOk result (λ v. AreBounds split.entry v.items) }
{
    let mut bounds = Vec::new(alloc);
    bounds.push(0)?;
    let mut at = part_length(split, 0);
    bounds.push(at)?;
    while at < split.periods {
        at += part_length(split, at);
        bounds.push(at)?;
    }
    Ok(bounds)
}
