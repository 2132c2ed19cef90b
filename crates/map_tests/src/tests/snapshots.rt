//! Subtrees that are detached as trees, and listed later or never.
ghost use Rattle.std.specs.Prelude.{◌≡◌};

use crate::tests::assertions::{found, holds, made, same};
use crate::tests::looks::live;
use crate::tests::steps::{add_row_and, built, new_map, on_new_map, swap_ends, update};
use map_fold::{NoMemory, Settings, Update};
use rebuild_core::{Built, Job, MapState, Snapshot, SwapFault};
use std::alloc::Global;
use std::process::Abort;

// Puts points in a row, and one more at this place, and detaches the whole tree.
fn begun(rt: &impl Abort, alloc: Global, state: &mut MapState, count: i64, last: i64) -> Snapshot {
    add_row_and(rt, alloc, state, (0, count), last);
    let snapshot = made(rt, state.snapshot(alloc, 1));
    found(rt, snapshot)
}

fn listed(rt: &impl Abort, alloc: Global, snapshot: Snapshot) -> Job
    ensures { result ≡ snapshot }
{
    match snapshot.job(alloc) {
        Ok(job) => job,
        Err(_) => panic!(rt; "nothing was listed"),
    }
}

// Detaches the whole tree, lists it, and gives the map the list.
fn given_a_list(rt: &impl Abort, alloc: Global, state: &mut MapState) -> Result<Job, NoMemory> {
    let _history = state.history();
    let Some(snapshot) = state.snapshot(alloc, 1)? else {
        panic!(rt; "nothing was detached");
    };
    let job = listed(rt, alloc, snapshot);
    let list = job.detached_items()?;
    let _tree = state.keep_list(job.ticket(), list);
    Ok(job)
}

#[test]
fn a_value_fits_a_subtree_that_nobody_has_listed(rt: HostRuntime) {
    on_new_map(&rt, rt.alloc(), Settings::new(200, 16), fits);
}

fn fits(rt: &impl Abort, alloc: Global, state: &mut MapState) {
    let snapshot = begun(rt, alloc, state, 40, 40);
    same(rt, "the ticket", snapshot.ticket(), 1);
    let job = listed(rt, alloc, snapshot);
    same(rt, "items", job.items().len(), 41);
    update(rt, alloc, state, Update::Expire(1));
    let built = built(rt, alloc, job);
    swap_ends(rt, alloc, state, built, false, None);
    same(rt, "live points", live(state), 40);
    let detached_items = made(rt, state.detached_items(1));
    holds(rt, "nothing is held", detached_items.is_none());
}

#[test]
fn another_value_is_stale_where_nobody_has_listed(rt: HostRuntime) {
    let alloc = rt.alloc();
    // The values of these rows, in a map of another row.
    for (count, last) in [(40, 41), (39, 40), (41, 41)] {
        let job = job_of_another(&rt, alloc, count, last);
        is_strange(&rt, alloc, job);
    }
}

fn job_of_another(rt: &impl Abort, alloc: Global, count: i64, last: i64) -> Job {
    let mut other = new_map(rt, alloc, Settings::new(200, 16));
    let snapshot = begun(rt, alloc, &mut other, count, last);
    listed(rt, alloc, snapshot)
}

fn is_strange(rt: &impl Abort, alloc: Global, job: Job) {
    let mut state = new_map(rt, alloc, Settings::new(200, 16));
    is_stale_in(rt, alloc, &mut state, job);
}

fn is_stale_in(rt: &impl Abort, alloc: Global, state: &mut MapState, job: Job) {
    let built = built(rt, alloc, job);
    let _snapshot = begun(rt, alloc, state, 40, 40);
    let stale = SwapFault::Stale { ticket: 1 };
    swap_ends(rt, alloc, state, built, false, Some(stale));
}

// Puts points in a row, whose part is given the list, and builds its value.
fn value(rt: &impl Abort, alloc: Global, state: &mut MapState, last: i64) -> Built {
    add_row_and(rt, alloc, state, (0, 40), last);
    let job = made(rt, given_a_list(rt, alloc, state));
    built(rt, alloc, job)
}

fn value_of_another(rt: &impl Abort, alloc: Global) -> Built {
    let mut other = new_map(rt, alloc, Settings::new(200, 16));
    value(rt, alloc, &mut other, 41)
}

#[test]
fn a_list_takes_the_place_of_the_tree(rt: HostRuntime) {
    on_new_map(&rt, rt.alloc(), Settings::new(200, 16), takes_its_own);
}

fn takes_its_own(rt: &impl Abort, alloc: Global, state: &mut MapState) {
    let own = value(rt, alloc, state, 40);
    knows_its_own(rt, alloc, state, &own);
    swap_ends(rt, alloc, state, own, false, None);
}

fn knows_its_own(rt: &impl Abort, alloc: Global, state: &MapState, own: &Built) {
    let strange = value_of_another(rt, alloc);
    let detached_items = made(rt, state.detached_items(1));
    let detached_items = found(rt, detached_items);
    holds(rt, "it is of its own", detached_items.is_of(own));
    holds(rt, "it is of no other", !detached_items.is_of(&strange));
}
