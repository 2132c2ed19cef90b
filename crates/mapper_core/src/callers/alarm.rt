//! What callers' threads signal to.
use rebuild_worker::{Bell, Gate, Rest};

/// The bells of both workers.
#[derive(Drop)]
pub struct Bells {
    pub first: Bell,
    pub second: Bell,
}

impl Bells {
    pub fn ring(&self) {
        self.first.ring();
        self.second.ring();
    }

    pub fn stop(&self) {
        self.first.stop();
        self.second.stop();
    }
}

/// The bells ring after each change, and the gate is called after each reply.
#[derive(Drop)]
pub struct Signals<'a, G: Gate> {
    pub gate: &'a G,
    pub bells: &'a Bells,
    /// The index in the script of the first of its commands.
    pub from: u32,
}

#[derive(Drop)]
pub struct Post {
    pub rest: Rest,
    /// From how many nodes on workers rebuild a subtree.
    pub large: u32,
}
