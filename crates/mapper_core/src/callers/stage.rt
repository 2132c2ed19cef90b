//! What callers run a script with.
use super::alarm::Bells;
use published_map::{MapName, Shared};
use rebuild_worker::Gate;
use std::alloc::Global;

#[derive(Drop)]
pub struct Stage<'a, L: MapName, G: Gate> {
    pub alloc: Global,
    pub shared: &'a Shared<L>,
    pub gate: &'a G,
    pub bells: &'a Bells,
}
