//! Rows without homes: any firing may be in any column.

ghost use Rattle.std.specs.Prelude.{◌≡◌, length, slice_get, IfOk};
ghost use Rattle.sdf_prec.specs.Floor.{IsFilling};
ghost use Rattle.std.specs.Prelude.{ℕ};

use crate::firing::Firing;
use std::alloc::AllocError;

/// Returns the firing at `place` in `queue`, if there is one.
fn firing_at(queue: &[Firing], place: usize) -> Option<Firing>
    ensures { result ≡ slice_get queue.now place }
{
    queue.get(place).copied()
}

/// Makes `cells` the row in which the columns that are idle at time `now` hold the first firings of `queue`.
pub(crate) fn fill(
    queue: &[Firing],
    until: &[u64],
    now: u64,
    cells: &mut Vec<Option<Firing>>,
) -> Result<(), AllocError>
    ensures { IfOk result (λ _. (next : ℕ) × IsFilling until.now now (length until.now) queue.now
        next cells.new.items) }
{
    cells.clear();
    let mut next = 0;
    for end in until {
        if *end <= now {
            cells.push(firing_at(queue, next))?;
            next += 1;
        } else {
            cells.push(None)?;
        }
    }
    Ok(())
}
