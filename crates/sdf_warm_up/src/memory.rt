//! The memory of actors: the firings that they remember.

ghost use Rattle.std.specs.Prelude.{◌≡◌, ℕ, MatchOption};
ghost use Rattle.sdf_kit.specs.Kit.{kit_steps};
ghost use Rattle.sdf_kit.specs.declared.kit.Kit.TheVariants as kits;
ghost use Rattle.sdf_warm_up.specs.Warm.{Forgets, IsLeast};

use sdf_actor::Actor;
use sdf_kit::Kit;
use sdf_kit::delay::Delay;
use sdf_kit::fir::Fir;

/// An actor that reports its memory.
pub trait Forgetful: Actor {
    /// Returns the number of last firings that the actor remembers, or `None` if it keeps samples for ever.
    fn memory(&self) -> Option<u32>
        ensures { MatchOption result ((m : ℕ) → Forgets Self.steps self.now m → ⊥)
            (IsLeast (Forgets Self.steps self.now)) };
}

impl Forgetful for Kit {
    fn memory(&self) -> Option<u32> {
        match self {
            Kit::Fir(fir) => Some(fir_memory(fir)),
            Kit::Delay(delay) => Some(delay_memory(delay)),
            _ => Some(0),
        }
    }
}

/// Returns the memory of a filter: the number of firings in which it takes all inputs that it keeps.
fn fir_memory(fir: &Fir) -> u32
    ensures { IsLeast (Forgets kit_steps (kits.Fir fir.now)) result }
{
    let rate = fir.ports().inputs.moved(0, 0) as usize;
    fir.kept_len().div_ceil(rate) as u32
}

/// Returns the memory of a delay: one firing for each sample that it keeps.
fn delay_memory(delay: &Delay) -> u32
    ensures { IsLeast (Forgets kit_steps (kits.Delay delay.now)) result }
{
    delay.length() as u32
}
