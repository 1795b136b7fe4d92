//! A stage of a conversion between two rates, and its coefficient file.

ghost use Rattle.std.specs.Prelude.{◌≤◌};
ghost use Rattle.sdf_limits.specs.declared.TheConstants.{MAX_FACTOR, MAX_TAPS};

/// A filter that multiplies the rate by `up / down`. Each key is within the limits of an actor of kind `fir`.
#[derive(Debug, Clone, Copy, PartialEq, Eq)]
pub struct Stage {
    pub up: u32,
    pub down: u32,
    pub ghost up_some: { 1 ≤ up },
    pub ghost up_few: { up ≤ MAX_FACTOR },
    pub ghost down_some: { 1 ≤ down },
    pub ghost down_few: { down ≤ MAX_FACTOR },
}

/// A stage of wide taps, as the graph file has it.
#[derive(Clone, Copy)]
pub(crate) struct WideStage {
    pub(crate) stage: Stage,
    /// The samples by which the input of the filter of the large taps is late.
    pub(crate) wait: usize,
    /// The bits of the large taps that stand in the other filter: 6, or 7 if a tap is over 1.
    pub(crate) bits: u32,
    /// The number of taps, and of zeros in front of them.
    pub(crate) taps: usize,
    pub(crate) zeros: usize,
    pub ghost bits_few: { bits ≤ 7 },
}

/// The coefficient file of a stage: its name, its text, and the line with the measures of its taps.
#[derive(Drop)]
pub struct StageFile {
    pub name: String,
    pub text: String,
    pub summary: String,
    /// The rate of the stage's filter: the rate of its input times `up`.
    pub rate: u32,
    pub taps: u32,
    pub ghost few: { taps ≤ MAX_TAPS },
}
