//! The gate that workers call before each firing.

/// An actor of a graph, by its number from 0.
pub type ActorId = usize;

/// A gate that the workers of a run pass before each firing. It sees no sample.
pub trait Gate: Sync {
    /// Lets one firing of `actor` pass, once, before it fires. The worker calls this when the firing is known to be
    /// possible, and before its first block is taken.
    ///
    /// `processor` is the actor's home, or in a run by rows the column of the firing. `firing` counts the actor's
    /// firings from 0, over all periods and blocks of a call that runs them. Each feed of a session is a new call, so
    /// its count begins at 0. All firings of a batch pass before the first block of the first is taken.
    fn before(&self, processor: usize, actor: ActorId, firing: u64);
}

/// A gate that does nothing.
pub struct NoGate;

impl Gate for NoGate {
    fn before(&self, _processor: usize, _actor: ActorId, _firing: u64) {}
}
