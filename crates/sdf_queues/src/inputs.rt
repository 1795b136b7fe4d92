//! The input lists of a run.

ghost use Rattle.std.specs.Prelude.{◌≡◌, ◌≤◌, ◌<◌, ◌↔◌, ℕ, List, [], length, slice_index_or, IsTrue, MatchOption};
ghost use Rattle.sdf_actor.specs.Wires.{lists};
ghost use Rattle.sdf_queues.specs.RunResults.{AreInputs};

/// Checks whether `list` has `len` samples, and no fewer than `least`.
fn is_input<T>(list: &Vec<T>, len: usize, least: usize) -> bool
    ensures { IsTrue result ↔ (length list.now.items ≡ len) × (least ≤ length list.now.items) }
{
    list.len() == len && least <= list.len()
}

/// Checks whether there are `many` lists, all of one length and none shorter than `least`.
pub fn are_inputs<T>(inputs: &[Vec<T>], many: usize, least: usize) -> bool
    ensures { IsTrue result ↔ AreInputs many least (lists inputs.now) }
{
    if inputs.len() != many {
        return false;
    }
    for list in inputs {
        if !is_input(list, inputs[0].len(), least) {
            return false;
        }
    }
    true
}

/// Returns the first sample of the first list, or `None` if there is none.
pub fn first_sample<T: Copy>(inputs: &[Vec<T>]) -> Option<T>
    ensures { let list = slice_index_or (lists inputs.now) 0 [] in
        MatchOption result (length list ≡ 0) (λ x. (0 < length list) × (slice_index_or list 0 x ≡ x)) }
{
    if inputs.is_empty() || inputs[0].is_empty() {
        return None;
    }
    Some(inputs[0][0])
}
