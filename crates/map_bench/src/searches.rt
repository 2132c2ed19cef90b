//! The works that ask a tree, or delete from one that was built.
use crate::bench::Bench;
use crate::course::{Lie, cubes, items, places};
use crate::draws::Draws;
use crate::growing::grow;
use crate::grown::{Grown, delete};
use crate::stop::Stop;
use crate::sums::{with, with_answers, with_groups, with_lists, with_numbers};
use crate::told::Told;
use crate::words::Ask;
use batch_near::nearest_each;
use kd_search::nearest;
use kd_tree::Tree;
use map_fold::{Choice, HitLists, NoMemory, Points};
use neighbour_sets::{clusters, lonely};
use std::alloc::Global;
use std::sync::ledger::Ledger;
use std::thread::Threads;
use std::time::{Clock, Instant};

// Of clusters and of lonely points.
const LISTED: u32 = 256;

/// A tree is built of so many points by medians, and then asked.
pub fn on_built<L: Ledger, R: Clock + Threads + Sync>(
    at: &mut Bench<'_, L, R>,
    tree: &mut Tree,
    ask: Ask,
) -> Result<Told, Stop> {
    let mut draws = Draws::new();
    let micros = build(at, tree, &mut draws)?;
    match ask {
        Ask::Nothing => Told::left(at.alloc, micros, 0, tree),
        Ask::Clusters | Ask::Lonely => crowded(at, tree, ask),
        Ask::Cubes => delete_cubes(at, tree, &mut draws),
        Ask::Nearest | Ask::Singly | Ask::AtOnce => on_places(at, tree, ask, &mut draws),
    }
}

// The microseconds that the tree took to be built.
fn build<L: Ledger, R: Clock>(
    at: &mut Bench<'_, L, R>,
    tree: &mut Tree,
    draws: &mut Draws,
) -> Result<u128, Stop> {
    let items = items(at.alloc, at.size.count, draws)?;
    let begun = Instant::now(at.rt);
    *tree = Tree::build(at.alloc, items.as_slice(), &mut at.steps)?;
    at.micros(begun)
}

/// A tree grows by scans, slabs are deleted from it, and it is asked.
pub fn on_grown<L: Ledger, R: Clock + Threads + Sync>(
    at: &mut Bench<'_, L, R>,
    map: &mut Grown,
) -> Result<Told, Stop> {
    let mut draws = Draws::new();
    grow(at, map, Lie::Left, &mut draws)?;
    on_places(at, &map.tree, Ask::Nearest, &mut draws)
}

fn on_places<L: Ledger, R: Clock + Threads + Sync>(
    at: &Bench<'_, L, R>,
    tree: &Tree,
    ask: Ask,
    draws: &mut Draws,
) -> Result<Told, Stop> {
    let places = places(at.alloc, at.size.asked, at.size.count, draws)?;
    match ask {
        Ask::Nearest => sum_up(at, tree, &places),
        _ => keep(at, tree, ask, &places),
    }
}

fn sum_up<L: Ledger, R: Clock>(
    at: &Bench<'_, L, R>,
    tree: &Tree,
    places: &Points,
) -> Result<Told, Stop> {
    let begun = Instant::now(at.rt);
    let sum = with_answers(0, at.alloc, tree, places)?;
    at.told(begun, sum, tree)
}

// The answers are kept until all are there.
fn keep<L: Ledger, R: Clock + Threads + Sync>(
    at: &Bench<'_, L, R>,
    tree: &Tree,
    ask: Ask,
    places: &Points,
) -> Result<Told, Stop> {
    let begun = Instant::now(at.rt);
    let lists = match ask {
        Ask::AtOnce => nearest_each(at.rt, at.alloc, tree, 5, places, None),
        _ => kept(at.alloc, tree, places),
    }?;
    let took = at.micros(begun);
    let sum = with_lists(0, &lists);
    Told::left(at.alloc, took?, sum, tree)
}

fn kept(alloc: Global, tree: &Tree, places: &Points) -> Result<HitLists, NoMemory> {
    let mut lists = Vec::with_capacity(alloc, places.len())?;
    for place in places.as_slice() {
        lists.push(nearest(alloc, tree, 5, place, None)?)?;
    }
    Ok(HitLists::from(lists))
}

fn delete_cubes<L: Ledger, R: Clock>(
    at: &mut Bench<'_, L, R>,
    tree: &mut Tree,
    draws: &mut Draws,
) -> Result<Told, Stop> {
    let cubes = cubes(at.alloc, at.size.asked, at.size.count, draws)?;
    let begun = Instant::now(at.rt);
    for cube in cubes.as_slice() {
        delete(at.alloc, tree, &Choice::within(cube), &mut at.steps)?;
    }
    at.told(begun, 0, tree)
}

fn crowded<L: Ledger, R: Clock>(at: &Bench<'_, L, R>, tree: &Tree, ask: Ask) -> Result<Told, Stop> {
    let reach = at.size.asked;
    let begun = Instant::now(at.rt);
    let sum = match ask {
        Ask::Clusters => clusters_sum(at.alloc, tree, reach),
        _ => lonely_sum(at.alloc, tree, reach),
    }?;
    let micros = at.micros(begun)?;
    Told::timed(at.alloc, micros, sum)
}

fn clusters_sum(alloc: Global, tree: &Tree, reach: u32) -> Result<u64, NoMemory> {
    let found = clusters(alloc, tree, u64::from(reach), LISTED)?;
    Ok(with_groups(with(0, found.count, 0), &found.groups))
}

fn lonely_sum(alloc: Global, tree: &Tree, reach: u32) -> Result<u64, NoMemory> {
    let found = lonely(alloc, tree, u64::from(reach), LISTED)?;
    Ok(with_numbers(with(0, found.count, 0), &found.items))
}
