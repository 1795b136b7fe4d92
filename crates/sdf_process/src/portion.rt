//! A portion of a sound, some periods long: the lists that are read from it, and the frames that are made of it.

ghost use Rattle.std.specs.Prelude.{◌≡◌, ◌*◌, ◌≤◌, ◌<◌, ℕ, [], length, slice_index_or, IfOk};
ghost use Rattle.sdf_actor.specs.Wires.{lists as items_of};
ghost use Rattle.sdf_parallel.specs.Cuts.{cut};
ghost use Rattle.sdf_process.specs.Output.{interleaved, lists_from, AreIoRates};

use crate::io_rates::IoRates;
use crate::samples::{channel_lists, make_frames};
use sdf_parallel::PartIo;
use sdf_wav::Wav;
use std::alloc::{AllocError, Global};

/// The first `periods` periods of the sound `input`, with zeros past its end. The first `frames` frames that they make
/// are written. In a run in parts, each stretch makes its own input lists and its own frames.
#[derive(Clone, Copy)]
pub(crate) struct Portion<'a> {
    pub(crate) io: IoRates,
    pub(crate) input: &'a Wav,
    pub(crate) periods: u32,
    pub(crate) frames: usize,
    ghost fits: { periods ≤ 4294967295 },
    ghost limits: { AreIoRates io },
    ghost some: { 0 < io.inputs },
}

impl<'a> Portion<'a> {
    /// Makes the input lists, in the memory of `spares`.
    pub(crate) fn lists(
        self,
        alloc: Global,
        spares: &mut [Vec<i32>],
    ) -> Result<Vec<Vec<i32>>, AllocError>
        ensures { IfOk result (λ all. items_of all.items ≡
            lists_from 0 self.entry.periods self.entry.io self.entry.input.now) }
    {
        let len = self.periods as usize * self.io.taken;
        channel_lists(alloc, self.input, 0, len, self.io.inputs, spares)
    }
}

impl<'a> PartIo<i32> for Portion<'a> {
    type StretchResult = Vec<i16>;

    ghost inputs = { λ p. lists_from 0 p.periods p.io p.input.now };

    ghost makes = { λ p periods outputs made. made.items ≡ interleaved (periods * p.io.made) outputs };

    fn read(
        &self,
        alloc: Global,
        from: usize,
        to: usize,
        mut spares: Vec<Vec<i32>>,
    ) -> Result<Vec<Vec<i32>>, AllocError>
        requires order { from ≤ to }
        requires within { let p = self.now in let inputs = lists_from 0 p.periods p.io p.input.now in
            (e : ℕ) → e < length inputs → to ≤ length (slice_index_or inputs e []) }
        ensures { let p = self.now in IfOk result
            (λ v. items_of v.items ≡ cut from to (lists_from 0 p.periods p.io p.input.now)) }
    {
        let channels = self.io.inputs;
        channel_lists(alloc, self.input, from, to - from, channels, &mut spares)
    }

    fn finish(
        &self,
        alloc: Global,
        periods: u32,
        outputs: &[Vec<i32>],
        spare: Option<Vec<i16>>,
    ) -> Result<Vec<i16>, AllocError>
        ensures { IfOk result
            (λ v. v.items ≡ interleaved (periods * self.now.io.made) (items_of outputs.now)) }
    {
        let frames = periods as usize * self.io.made;
        make_frames(outputs, frames, spare.unwrap_or(Vec::new(alloc)))
    }
}
