//! What the workers of a run share.

/// The workers of a run over rings: where their threads come from (`rt`), the gate that they pass before each firing,
/// and their spin limit. `patience` limits how many failed checks of a firing each worker may repeat in a round.
#[derive_where(Clone, Copy)]
pub struct Workers<'a, R, G> {
    pub rt: &'a R,
    pub gate: &'a G,
    pub patience: u32,
}
