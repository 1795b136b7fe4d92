//! The place of each node: its seat, and its index there.

ghost use Rattle.std.specs.Prelude.{◌≡◌, ◌<◌, ℕ, None, Some, length, vec_len, IfOk};
ghost use Rattle.sdf_prec.specs.Tables.{home_in};
ghost use Rattle.sdf_rings.specs.Begun.{place, count_on_seat, AreNext};

use sdf_prec::Table;
use std::alloc::{AllocError, Global};

/// Returns how many of `places` are on `seat`.
fn count_on_seat(places: &[(usize, usize)], seat: usize) -> usize
    ensures { result ≡ count_on_seat places.now seat }
{
    let mut many = 0;
    for place in places {
        if place.0 == seat {
            many += 1;
        }
    }
    many
}

/// Returns the home of `actor`: the processor that does all its firings.
fn home(table: &Table, actor: usize) -> usize
    requires known { actor < length table.now.homes }
    requires homed { home_in table.now actor ≡ None → ⊥ }
    ensures { home_in table.now actor ≡ Some result }
{
    match table.home(actor) {
        Some(column) => column,
        None => unreachable!(),
    }
}

/// Returns a place for each actor: the seat of its home, and the next index there.
pub(crate) fn places(
    alloc: Global,
    table: &Table,
    actors: usize,
) -> Result<Vec<(usize, usize)>, AllocError>
    requires all { length table.now.homes ≡ actors }
    requires homed { (a : ℕ) → a < actors → home_in table.now a ≡ None → ⊥ }
    ensures all { IfOk result (λ v. vec_len v ≡ actors) }
    ensures homes { IfOk result (λ v. (a : ℕ) → a < actors → home_in table.now a ≡ Some (place v.items a).0) }
    ensures next { IfOk result (λ v. AreNext v.items) }
{
    let mut places = Vec::with_capacity(alloc, actors)?;
    for actor in 0..actors {
        let seat = home(table, actor);
        let before = count_on_seat(&places, seat);
        places.push((seat, before))?;
    }
    Ok(places)
}
