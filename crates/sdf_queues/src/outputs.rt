//! The results of a run.

ghost use Rattle.std.specs.Prelude.{◌≡◌, ◌≢◌, ℕ, [], vec_capacity, IfOk};
ghost use Rattle.sdf_queues.specs.Lists.{list, AreEmpty};

use std::alloc::{AllocError, Global};
use std::mem;

/// The result of a run.
#[derive(Drop)]
pub struct Ran<T> {
    /// The output lists, by number.
    pub outputs: Vec<Vec<T>>,
    /// The rounds that its workers took; 0 on one thread.
    pub rounds: u64,
}

/// Takes the list at `place` out of `spares` and leaves an empty one. Returns an empty list if `place` is past the end.
pub fn take_spare<T>(alloc: Global, spares: &mut [Vec<T>], place: usize) -> Vec<T>
    ensures taken { result.items ≡ list spares.old place }
    ensures left { list spares.new place ≡ [] }
    ensures others { (other : ℕ) → other ≢ place → list spares.new other ≡ list spares.old other }
{
    if place < spares.len() {
        mem::replace(&mut spares[place], Vec::new(alloc))
    } else {
        Vec::new(alloc)
    }
}

/// Returns an empty list with room for `room` samples: the one at `place` of `spares` if its capacity is `room`,
/// otherwise a new one.
fn renew_list<T: Copy>(
    alloc: Global,
    spares: &mut [Vec<T>],
    place: usize,
    room: usize,
) -> Result<Vec<T>, AllocError>
    ensures { IfOk result (λ v. (v.items ≡ []) × (vec_capacity v ≡ room)) }
{
    let mut list = take_spare(alloc, spares, place);
    if list.capacity() == room {
        list.clear();
        return Ok(list);
    }
    drop(list);
    Vec::with_capacity(alloc, room)
}

/// Makes `many` empty output lists with room for `room` samples each.
pub fn make_outputs<T: Copy>(
    alloc: Global,
    many: usize,
    room: usize,
) -> Result<Vec<Vec<T>>, AllocError>
    ensures { IfOk result (λ v. AreEmpty v.items many room) }
{
    let mut spares = Vec::new(alloc);
    renew_outputs(alloc, many, room, &mut spares)
}

/// Makes `many` empty output lists with room for `room` samples each. Each is the list of its number in `spares` if
/// this has the capacity `room`, otherwise a new one.
pub fn renew_outputs<T: Copy>(
    alloc: Global,
    many: usize,
    room: usize,
    spares: &mut [Vec<T>],
) -> Result<Vec<Vec<T>>, AllocError>
    ensures { IfOk result (λ v. AreEmpty v.items many room) }
{
    let mut outputs = Vec::with_capacity(alloc, many)?;
    for e in 0..many {
        outputs.push(renew_list(alloc, spares, e, room)?)?;
    }
    Ok(outputs)
}
