//! The number of firings asked of each node.

ghost use Rattle.std.specs.Prelude.{◌≡◌, ◌*◌, ◌<◌, ◌^◌, map, sum, IfOk};

use std::alloc::{AllocError, Global};

/// Returns how often a node fires in `blocks` blocks of `blocking` periods, if it fires `repetition` times in a period.
fn firings(blocks: u32, blocking: u32, repetition: u32) -> u64
    requires { blocking * repetition < 2 ^ 32 }
    ensures { result ≡ blocks * (blocking * repetition) }
{
    u64::from(blocks) * (u64::from(blocking) * u64::from(repetition))
}

/// Returns how often each node fires in `blocks` blocks of `blocking` periods. `repetitions` is the repetition vector.
pub(crate) fn asked(
    alloc: Global,
    repetitions: &[u32],
    blocking: u32,
    blocks: u32,
) -> Result<Vec<u64>, AllocError>
    requires { blocking * sum repetitions.now < 2 ^ 32 }
    ensures { IfOk result (λ v. v.items ≡ map (λ q. blocks * (blocking * q)) repetitions.now) }
{
    let mut asked = Vec::with_capacity(alloc, repetitions.len())?;
    for repetition in repetitions {
        asked.push(firings(blocks, blocking, *repetition))?;
    }
    Ok(asked)
}
