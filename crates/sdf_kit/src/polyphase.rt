//! The outputs of many firings, branch by branch.

ghost use Rattle.std.specs.Prelude.{ℕ, ◌≡◌, ◌≢◌, ◌+◌, ◌-◌, ◌*◌, ◌/◌, ◌%◌, ◌<◌, ◌≤◌, length, map, take, drop, set};
ghost use Rattle.std.specs.Prelude.{slice_index};
ghost use Rattle.std.specs.List.{range_with_len};
ghost use Rattle.sdf_kit.specs.Samples.{sample};
ghost use Rattle.sdf_kit.specs.Stretches.{IsBranch};
ghost use Rattle.sdf_kit.specs.Window.{output_of};
ghost use Rattle.sdf_kit.specs.Branches.{AreFirings, AreQuiet, branch_output};

use crate::branches::Branches;
use crate::stretches::Branch;
use crate::window::Window;

/// A number of firings, `many`, of a filter between two rates.
#[derive(Clone, Copy)]
pub struct Firings {
    pub up: u32,
    pub down: u32,
    pub shift: u32,
    pub many: u32,
}

/// Puts the outputs of `firings` on the samples of `window`.
pub(crate) fn put_branches(branches: &Branches, window: &Window, firings: Firings, put: &mut [i32])
    requires branches { AreQuiet firings.up branches.now }
    requires limits { window.now.limits ≡ branches.now.limits }
    requires firings { AreFirings firings }
    requires many { firings.many ≤ 1024 }
    requires window { firings.many * firings.down + branches.now.width ≤ length window.now.samples + 1 }
    requires put { length put.old ≡ firings.many * firings.up }
    ensures { put.new ≡ map (branch_output branches.now firings.up firings.down firings.shift window.now.samples)
        (range_with_len 0 (firings.many * firings.up)) }
{
    for j in 0..firings.up {
        let at = j * firings.down;
        let branch = branches.get((at % firings.up) as usize);
        let first = (at / firings.up) as usize;
        put_branch(branch, window, first, j, firings, put);
    }
}

/// Puts one output of each firing: the outputs whose place has the remainder `at` when divided by `up`.
fn put_branch(
    branch: Branch,
    window: &Window,
    first: usize,
    at: u32,
    firings: Firings,
    put: &mut [i32],
)
    requires branch { IsBranch window.now.limits branch.taps.now branch.stretches.now }
    requires first { first < firings.down }
    requires at { at < firings.up }
    requires firings { AreFirings firings }
    requires many { firings.many ≤ 1024 }
    requires window { firings.many * firings.down + length branch.taps.now ≤ length window.now.samples + 1 }
    requires put { length put.old ≡ firings.many * firings.up }
    ensures len { length put.new ≡ length put.old }
    ensures done { (i : ℕ) → i < firings.many → sample put.new (at + i * firings.up) ≡
        output_of branch.entry.taps.now window.now.samples (first + i * firings.down) firings.shift }
    ensures others { (n : ℕ) → n % firings.up ≢ at → sample put.new n ≡ sample put.old n }
{
    let up = firings.up;
    let down = firings.down;
    let shift = firings.shift;
    let mut done = 0u32;
    'fours: while done + 4 <= firings.many {
        let sums = window.four(branch, first + (done * down) as usize, down as usize, shift);
        put_four(put, (at + done * up) as usize, up as usize, sums);
        done += 4;
    }
    'ones: while done < firings.many {
        let sum = window.one(branch, first + (done * down) as usize, shift);
        put[(at + done * up) as usize] = sum;
        done += 1;
    }
}

/// Puts four samples, `step` places apart, the first at `at`.
fn put_four(put: &mut [i32], at: usize, step: usize, samples: [i32; 4])
    requires room { at + 3 * step < length put.old }
    ensures { put.new ≡ set (set (set (set put.old at (sample samples 0)) (at + step) (sample samples 1))
        (at + 2 * step) (sample samples 2)) (at + 3 * step) (sample samples 3) }
{
    put[at] = samples[0];
    put[at + step] = samples[1];
    put[at + 2 * step] = samples[2];
    put[at + 3 * step] = samples[3];
}
