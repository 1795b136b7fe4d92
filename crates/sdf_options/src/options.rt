//! The options of a schedule or a run, and the words for them.

ghost use Rattle.std.specs.Prelude.{◌≡◌};
ghost use Rattle.sdf_options.specs.Words.{placement_word, policy_word, runner_word};

/// A rule for which runnable actor fires next.
#[derive(Clone, Copy, Debug, PartialEq, Eq)]
pub enum Policy {
    /// Rounds over the actors, in file order.
    Round,
    /// The actor whose firing adds least to the tokens on the channels.
    Lean,
    /// The actor that fired last while it is runnable, then the next runnable one in file order.
    Runs,
}

/// The words of the policies, in the order of `POLICIES`.
pub const POLICY_WORDS: &[&str] = &["round", "lean", "runs"];

pub static POLICIES: [Policy; 3] = [Policy::Round, Policy::Lean, Policy::Runs];

impl Policy {
    /// Returns the word for this policy on the command line.
    pub fn word(self) -> &'static str
        ensures { result.now ≡ policy_word self }
    {
        POLICY_WORDS[self as usize]
    }
}

/// A rule that assigns firings to the processors of a table.
#[derive(Clone, Copy, Debug, PartialEq, Eq)]
pub enum Placement {
    /// The highest level first, on any free processor.
    Hu,
    /// The highest level first, each actor on one processor.
    Homed,
    /// The processors that the graph file names.
    File,
    /// Processors worked out from the loads of the actors, in blocks of many periods.
    Spread,
}

/// The words of the placements, in the order of `PLACEMENTS`.
pub const PLACEMENT_WORDS: &[&str] = &["hu", "homed", "file", "spread"];

pub static PLACEMENTS: [Placement; 4] = [
    Placement::Hu,
    Placement::Homed,
    Placement::File,
    Placement::Spread,
];

impl Placement {
    /// Returns the word for this placement on the command line.
    pub fn word(self) -> &'static str
        ensures { result.now ≡ placement_word self }
    {
        PLACEMENT_WORDS[self as usize]
    }
}

/// The runner of a plan.
#[derive(Clone, Copy, Debug, PartialEq, Eq)]
pub enum Runner {
    /// One thread.
    One,
    /// Workers by the rows of a table, the firings of a row in parallel.
    Rows,
    /// Workers over bounded rings, each at its own pace.
    Rings,
}

/// The words of the runners, in the order of `RUNNERS`.
pub const RUNNER_WORDS: &[&str] = &["one", "rows", "rings"];

pub static RUNNERS: [Runner; 3] = [Runner::One, Runner::Rows, Runner::Rings];

impl Runner {
    /// Returns the word for this runner on the command line.
    pub fn word(self) -> &'static str
        ensures { result.now ≡ runner_word self }
    {
        RUNNER_WORDS[self as usize]
    }
}

/// The options of a schedule or a run. The type does not enforce the limits below: `plan` and `design_schedule` test
/// them.
#[derive(Clone, Copy, Debug, PartialEq, Eq)]
pub struct Options {
    /// Periods in a block, 1 to 64, or more in what `with_blocking` returns for a long block. The placement `spread`
    /// does not use it and chooses its own blocks.
    pub blocking: u32,
    /// Processors, 1 to 16.
    pub workers: usize,
    pub policy: Policy,
    pub placement: Placement,
    pub runner: Runner,
    /// Spin limit: repeated tests in a worker's round, at most 1,000,000.
    pub patience: u32,
}

impl Options {
    /// The options of a command line that names none.
    pub const DEFAULT: Options = Options {
        blocking: 1,
        workers: 1,
        policy: Policy::Round,
        placement: Placement::Homed,
        runner: Runner::One,
        patience: 1000,
    };

    /// Returns these options with `blocking` periods in a block.
    pub fn with_blocking(&self, blocking: u32) -> Options
        ensures { result ≡ record self.now { blocking = blocking } }
    {
        Options { blocking, ..*self }
    }
}
