//! The inputs that the parts of a run read, and what their outputs become.

ghost use Rattle.std.specs.Prelude.{◌≡◌, ◌≤◌, ◌<◌, ℕ, List, [], length, slice_index_or, IfOk};
ghost use Rattle.sdf_actor.specs.Wires.{lists};
ghost use Rattle.sdf_parallel.specs.Cuts.{cut};

use std::alloc::{AllocError, Global};

/// The inputs that the parts of a run read, and what their outputs become. Workers call them in
/// parallel: `read` for each stretch and each warm-up of their parts, `finish` for each stretch.
pub trait PartIo<T>: Sync {
    /// What the outputs of a stretch become.
    type StretchResult: Send + Drop;

    /// The input lists of the whole run.
    ghost inputs: { Self → List (List T) };

    /// The relation between a number of periods, their output lists and what these become.
    ghost makes: { Self → ℕ → List (List T) → Self.StretchResult → Type 0 };

    /// Reads the samples from `from` to `to` of each input list, and reuses the memory of `spares`.
    fn read(
        &self,
        alloc: Global,
        from: usize,
        to: usize,
        spares: Vec<Vec<T>>,
    ) -> Result<Vec<Vec<T>>, AllocError>
        requires order { from ≤ to }
        requires within { (e : ℕ) → e < length (inputs self.now) →
            to ≤ length (slice_index_or (inputs self.now) e []) }
        ensures { IfOk result (λ v. lists v.items ≡ cut from to (inputs self.now)) };

    /// Turns `outputs`, the output lists of `periods` periods, into what they become. Reuses the memory of `spare`.
    fn finish(
        &self,
        alloc: Global,
        periods: u32,
        outputs: &[Vec<T>],
        spare: Option<Self::StretchResult>,
    ) -> Result<Self::StretchResult, AllocError>
        ensures { IfOk result (makes self.now periods (lists outputs.now)) };
}
