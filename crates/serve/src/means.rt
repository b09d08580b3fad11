//! What the steps of a run take.

use std::alloc::Global;

/// What the steps of a run take, from its first port to its end: the handle by which they reach the system, memory, and
/// the log that is told of them.
#[derive(Drop)]
pub(crate) struct Means<'a, R, G> {
    pub(crate) rt: &'a R,
    pub(crate) alloc: Global,
    pub(crate) log: &'a G,
}
