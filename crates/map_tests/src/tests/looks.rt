//! What a state holds, as tests ask for it.
ghost use Rattle.std.specs.Prelude.{◌≤◌};

use crate::tests::assertions::made;
use point_geom::{Corner, Cuboid};
use rebuild_core::MapState;
use std::process::Abort;

pub type Place = (i64, i64, i64);

// How many operations a detached subtree's log has.
pub fn logged(state: &MapState, slot: u8) -> Option<u32> {
    let part = state.part(slot)?;
    Some(part.logged)
}

pub fn live(state: &MapState) -> u32 {
    state.version().counts().live
}

pub fn suspended(state: &MapState) -> u32 {
    state.version().counts().suspended
}

// Whether a subtree from this size on is out of balance.
pub fn is_breached(state: &MapState, large: u32) -> bool
    requires { 10 ≤ large }
{
    state.version().tree().first_breach(large).is_some()
}

pub fn cuboid(rt: &impl Abort, lo: Place, hi: Place) -> Cuboid {
    let (x, y, z) = lo;
    let lo = Corner { x, y, z };
    let (x, y, z) = hi;
    made(rt, Cuboid::new(lo, Corner { x, y, z }))
}
