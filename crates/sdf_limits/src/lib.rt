//! The limits of the workspace, each defined once. Code, contracts and documents name them.
//!
//! It depends on nothing, and has no functions. Begin at any line: there are only constants.
#![tactic(auto)]

/// Actors of a graph: 1 to this.
pub const MAX_ACTORS: usize = 64;

/// Links of a design, which are the channels of its graph.
pub const MAX_LINKS: usize = 256;

/// Ports of an actor on each side.
pub const MAX_PORTS: usize = 16;

/// Samples that a firing puts on a channel or takes from it, and samples in a block of an input or an output.
pub const MAX_RATE: u32 = 1024;

/// Firings of an actor's cycle: 1 to this.
pub const MAX_CYCLE: u32 = 64;

/// Samples on a channel before the first firing.
pub const MAX_INITIAL: usize = 65_536;

/// Firings of a period.
pub const MAX_PERIOD: u64 = 65_536;

/// Factors between rates (`up`, `down` and `factor`): 1 to this.
pub const MAX_FACTOR: u32 = 64;

/// Ways of an actor with several inputs or outputs: this to `MAX_WAYS`.
pub const LEAST_WAYS: u32 = 2;

/// Ways of an actor with several inputs or outputs: `LEAST_WAYS` to this.
pub const MAX_WAYS: u32 = 16;

/// Consecutive samples of one way (`run` of a `deal` or `gather`): 1 to this.
pub const MAX_RUN: u32 = 64;

/// Exponent of the power of two by which a product is divided.
pub const MAX_SHIFT: u32 = 15;

/// Taps of a filter: 1 to this.
pub const MAX_TAPS: usize = 1024;

/// Values of a table: 1 to this.
pub const MAX_VALUES: usize = 65_536;

/// Samples of a delay.
pub const MAX_DELAY: u32 = 65_536;

/// Number of a channel of a WAV file, from 0.
pub const MAX_CHANNEL: u32 = 7;

/// Number of a processor, from 0.
pub const MAX_PROCESSOR: u32 = 15;

/// Periods of a block: 1 to this.
pub const MAX_BLOCKING: u32 = 64;

/// Firings of a block.
pub const MAX_BLOCK: u64 = 65_536;

/// Cost of a firing: 1 to this.
pub const MAX_COST: u32 = 1_000_000;

/// Workers: 1 to this.
pub const MAX_WORKERS: usize = 16;

/// The spin limit: repeated tests for samples or room in a round of a worker.
pub const MAX_PATIENCE: u32 = 1_000_000;
