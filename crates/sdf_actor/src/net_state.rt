//! The net state that a run leaves.

/// A net state: the states of a net's actors and the samples on its channels. Another run can go on from it.
#[derive(Drop)]
pub struct NetState<T, S> {
    /// The state of each node; `None` for a source or a sink.
    pub states: Vec<Option<S>>,
    /// The samples on each channel that are not yet taken.
    pub held: Vec<Vec<T>>,
}
