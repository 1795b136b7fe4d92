//! A mark for each actor, and a list of the marked ones.

ghost use Rattle.std.specs.Prelude.{◌≡◌, ℕ, ◌<◌, length, replicate, slice_set, slice_index_or, true, false, IfOk};
ghost use Rattle.std.specs.Prelude.{MatchOption};

use std::alloc::{AllocError, Global};
use std::marker::Model;

/// The marks of actors, and a list of the marked actors, each once.
#[derive(Drop)]
pub(crate) struct Marks {
    is_marked: Vec<bool>,
    actors: Vec<usize>,
}

impl Model for Marks {
    ghost use Rattle.std.specs.Prelude.{List, Bool};
    ghost use Rattle.sdf_prec.specs.Marked.{AreListed};

    ghost Value = { List Bool };

    ghost view = { λ m. m.is_marked.items };

    ghost invariant = { λ m. AreListed m.is_marked.items m.actors.items };
}

impl Marks {
    /// Returns marks on all of the first `actors` actors.
    pub(crate) fn of_all(alloc: Global, actors: usize) -> Result<Marks, AllocError>
        ensures { IfOk result (λ marks. marks ≡ replicate actors true) }
    {
        let mut all = Vec::with_capacity(alloc, actors)?;
        for actor in 0..actors {
            all.push(actor)?;
        }
        Ok(Marks {
            is_marked: vec![in alloc; true; actors]?,
            actors: all,
        })
    }

    /// Marks `actor`.
    pub(crate) fn set(&mut self, actor: usize) -> Result<(), AllocError>
        requires known { actor < length self.old }
        ensures same { length self.new ≡ length self.old }
        ensures set { IfOk result (λ _. self.new ≡ slice_set self.old actor true) }
    {
        if !self.is_marked[actor] {
            self.actors.push(actor)?;
            self.is_marked[actor] = true;
        }
        Ok(())
    }

    /// Removes a mark if there is one, and returns its actor.
    pub(crate) fn take(&mut self) -> Option<usize>
        ensures whose { MatchOption result ((a : ℕ) → slice_index_or self.old a false ≡ false)
            (λ actor. slice_index_or self.old actor false ≡ true) }
        ensures same { length self.new ≡ length self.old }
        ensures taken { MatchOption result (self.new ≡ self.old) (λ actor. self.new ≡ slice_set self.old actor false) }
    {
        let actor = self.actors.pop()?;
        self.is_marked[actor] = false;
        Some(actor)
    }
}
