//! One port's parts of many blocks. In a row the parts are side by side; in the blocks each part is at its place among
//! the parts of the other ports.

ghost use Rattle.std.specs.Prelude.{◌≡◌, ◌≤◌, ◌<◌, ◌+◌, ◌*◌, ℕ, length, take, drop, slice_range};
ghost use Rattle.sdf_node.specs.Many.{nth_block, joined};
ghost use Rattle.sdf_queues.specs.Parts.{CanCopy, AreCopied};

/// The places of parts in a list: where the first part begins, and the distance from each part to the next.
#[derive(Clone, Copy)]
struct Stride {
    first: usize,
    step: usize,
}

/// Copies `width` samples at `start` of `from` to `at` in `to`.
fn copy_part<T: Copy>(from: &[T], start: usize, to: &mut [T], at: usize, width: usize)
    requires from { start + width ≤ length from.now }
    requires to { at + width ≤ length to.old }
    ensures copied { slice_range to.new at (at + width) ≡ slice_range from.now start (start + width) }
    ensures before { take at to.new ≡ take at to.old }
    ensures behind { drop (at + width) to.new ≡ drop (at + width) to.old }
{
    for i in 0..width {
        to[at + i] = from[start + i];
    }
}

/// Copies `many` samples of `from`, at the places `out`, to the places `into` in `to`.
#[inline(always)]
fn copy_each<T: Copy>(from: &[T], out: Stride, to: &mut [T], into: Stride, many: usize)
    requires { CanCopy out into 1 many from.now to.old }
    ensures { AreCopied out into 1 many from.now to.old to.new }
{
    for i in 0..many {
        to[into.first + into.step * i] = from[out.first + out.step * i];
    }
}

/// Copies `many` samples as `copy_each` does. Two cases are compiled with known steps, so that several samples are
/// copied at a time: from every other place into a row, and from a row to every other place.
fn copy_samples<T: Copy>(from: &[T], out: Stride, to: &mut [T], into: Stride, many: usize)
    requires { CanCopy out into 1 many from.now to.old }
    ensures { AreCopied out into 1 many from.now to.old to.new }
{
    if out.step == 2 && into.step == 1 {
        copy_each(from, with_step(2, out), to, with_step(1, into), many);
    } else if out.step == 1 && into.step == 2 {
        copy_each(from, with_step(1, out), to, with_step(2, into), many);
    } else {
        copy_each(from, out, to, into, many);
    }
}

/// Returns `stride` with `step` for its step, so that the compiler knows it as a constant.
#[inline(always)]
fn with_step(step: usize, stride: Stride) -> Stride
    requires { step ≡ stride.step }
    ensures { result ≡ stride }
{
    Stride {
        first: stride.first,
        step,
    }
}

/// Copies `many` parts of `width` samples from the places `out` to the places `into`.
fn copy_wide_parts<T: Copy>(
    from: &[T],
    out: Stride,
    to: &mut [T],
    into: Stride,
    width: usize,
    many: usize,
)
    requires { CanCopy out into width many from.now to.old }
    ensures { AreCopied out into width many from.now to.old to.new }
{
    for i in 0..many {
        let start = out.first + out.step * i;
        copy_part(from, start, to, into.first + into.step * i, width);
    }
}

/// Copies `many` parts of `width` samples from the places `out` to the places `into`. Most parts are one sample.
fn copy_parts<T: Copy>(
    from: &[T],
    out: Stride,
    to: &mut [T],
    into: Stride,
    width: usize,
    many: usize,
)
    requires { CanCopy out into width many from.now to.old }
    ensures { AreCopied out into width many from.now to.old to.new }
{
    if width == 1 {
        copy_samples(from, out, to, into, many);
    } else {
        copy_wide_parts(from, out, to, into, width, many);
    }
}

/// Deals `row` out to `many` blocks of `size` samples: `width` samples to each, at offset `at`.
pub fn deal_row<T: Copy>(
    row: &[T],
    blocks: &mut [T],
    at: usize,
    width: usize,
    many: usize,
    size: usize,
)
    requires inside { at + width ≤ size }
    requires row { length row.now ≡ width * many }
    requires blocks { length blocks.old ≡ size * many }
    ensures dealt { (i : ℕ) → i < many →
        slice_range (nth_block size blocks.new i) at (at + width) ≡ nth_block width row.now i }
    ensures before { (i a w : ℕ) → i < many → a + w ≤ at →
        slice_range (nth_block size blocks.new i) a (a + w) ≡ slice_range (nth_block size blocks.old i) a (a + w) }
{
    let side_by_side = Stride {
        first: 0,
        step: width,
    };
    let in_blocks = Stride {
        first: at,
        step: size,
    };
    if width == size {
        blocks.copy_from_slice(row);
    } else {
        copy_parts(row, side_by_side, blocks, in_blocks, width, many);
    }
}

/// Gathers `row` from `many` blocks of `size` samples: `width` samples of each, at offset `at`.
pub fn gather_row<T: Copy>(
    blocks: &[T],
    row: &mut [T],
    at: usize,
    width: usize,
    many: usize,
    size: usize,
)
    requires inside { at + width ≤ size }
    requires row { length row.old ≡ width * many }
    requires blocks { length blocks.now ≡ size * many }
    ensures { row.new ≡ joined (λ i. slice_range (nth_block size blocks.now i) at (at + width)) many }
{
    let side_by_side = Stride {
        first: 0,
        step: width,
    };
    let in_blocks = Stride {
        first: at,
        step: size,
    };
    if width == size {
        row.copy_from_slice(blocks);
    } else {
        copy_parts(blocks, in_blocks, row, side_by_side, width, many);
    }
}
