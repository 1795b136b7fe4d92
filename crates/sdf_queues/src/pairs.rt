//! Interleaved samples of two channels, as an actor with two inputs or two outputs moves them.

ghost use Rattle.std.specs.Prelude.{◌≡◌, ◌*◌, ◌++◌, length, slice_range};
ghost use Rattle.sdf_node.specs.Many.{nth_block, joined};

/// Interleaves the samples of `left` and `right` in `pairs`. One loop for both is faster than a loop for each.
pub fn interleave<T: Copy>(left: &[T], right: &[T], pairs: &mut [T], many: usize)
    requires left { length left.now ≡ many }
    requires right { length right.now ≡ many }
    requires pairs { length pairs.old ≡ 2 * many }
    ensures { pairs.new ≡ joined (λ i. nth_block 1 left.now i ++ nth_block 1 right.now i) many }
{
    for i in 0..many {
        pairs[2 * i] = left[i];
        pairs[2 * i + 1] = right[i];
    }
}

/// Splits the interleaved samples of `pairs` into `left` and `right`.
pub fn deinterleave<T: Copy>(pairs: &[T], left: &mut [T], right: &mut [T], many: usize)
    requires left { length left.old ≡ many }
    requires right { length right.old ≡ many }
    requires pairs { length pairs.now ≡ 2 * many }
    ensures left { left.new ≡ joined (λ i. slice_range (nth_block 2 pairs.now i) 0 1) many }
    ensures right { right.new ≡ joined (λ i. slice_range (nth_block 2 pairs.now i) 1 2) many }
{
    for i in 0..many {
        left[i] = pairs[2 * i];
        right[i] = pairs[2 * i + 1];
    }
}
