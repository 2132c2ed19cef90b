//! Which work is measured on what: the tree or the state is made here, and lent to the work.
use crate::bench::Bench;
use crate::course::Lie;
use crate::growing::timed;
use crate::grown::{self, Grown};
use crate::robot::Robot;
use crate::searches::{on_built, on_grown};
use crate::stop::Stop;
use crate::threads::side_by_side;
use crate::told::Told;
use crate::words::{Look, OnState, OnTree, Work};
use kd_tree::Tree;
use std::sync::Wait;
use std::sync::ledger::Ledger;
use std::thread::Threads;
use std::time::Clock;

/// What is told of a work.
pub fn worked<L: Ledger, R: Clock + Threads + Wait + Sync>(
    at: &mut Bench<'_, L, R>,
    work: Work,
) -> Result<Told, Stop> {
    match work {
        Work::Built(ask) => on_built(at, &mut Tree::empty(), ask),
        Work::Tree(work) => on_tree(at, work),
        Work::State(work) => on_state(at, work),
        Work::Threads(sharing) => side_by_side(at.rt, at.alloc, sharing, at.size),
    }
}

fn on_tree<L: Ledger, R: Clock + Threads + Sync>(
    at: &mut Bench<'_, L, R>,
    work: OnTree,
) -> Result<Told, Stop> {
    let holds = matches!(work, OnTree::Grow(Look::Held));
    let mut map = Grown::new(at.alloc, holds);
    on_this_tree(at, &mut map, work)
}

fn on_this_tree<L: Ledger, R: Clock + Threads + Sync>(
    at: &mut Bench<'_, L, R>,
    map: &mut Grown,
    work: OnTree,
) -> Result<Told, Stop> {
    match work {
        OnTree::Grow(look) => timed(at, map, Lie::Left, look),
        OnTree::Ask => on_grown(at, map),
    }
}

fn on_state<L: Ledger, R: Clock + Threads + Sync>(
    at: &mut Bench<'_, L, R>,
    work: OnState,
) -> Result<Told, Stop> {
    // From how many nodes on subtrees are left alone, and whether scans are thinned.
    let (large, thins, lie, look) = match work {
        OnState::Thin(look) => (grown::LARGE, true, Lie::Left, look),
        OnState::Add(lie) => (at.size.asked, false, lie, Look::Nothing),
    };
    match Robot::new(at.alloc, large, thins) {
        Ok(mut robot) => timed(at, &mut robot, lie, look),
        Err(stop) => Err(stop),
    }
}
