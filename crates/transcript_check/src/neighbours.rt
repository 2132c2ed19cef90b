//! Replies to queries for neighbours on the plain map. A ball is a scan of all items; lonely points and clusters would take one for
//! each item, so the items are put into a tree first.
ghost use Rattle.std.specs.Prelude.{◌≡◌, ◌≤◌, ◌&&◌, filter, length, take, IfOk};
ghost use Rattle.node_labels.specs.Labels.{is_live};
ghost use Rattle.map_items.specs.Contents.{AreContents};
ghost use Rattle.map_fold.specs.Neighbours.{ball, is_near};
ghost use Rattle.kd_tree.specs.{Contents.{contents}, Counter.{IsBlankOf}};
ghost use Rattle.scan_log.specs.Transcript.{found_reply};

use kd_tree::{Steps, Tree};
use map_fold::{BoxReply, PlainMap};
use map_items::{Item, Items, Label, MAX_FOUND, MAX_POINTS, MAX_WITHIN, NoMemory};
use point_geom::{Point, dist2};
use std::alloc::Global;
use std::marker::Brand;
use std::sync::ledger::{Blank, Ledger};

pub fn ball_reply(
    alloc: Global,
    map: &PlainMap,
    mark: u64,
    k: u32,
    r: u64,
    point: &Point,
) -> Result<BoxReply, NoMemory>
    requires r_to { r ≤ MAX_WITHIN }
    requires k_to { k ≤ MAX_FOUND }
    ensures { IfOk result (λ found. found ≡ found_reply mark (ball map.now.items point.now r) k) }
{
    let next = map.next();
    let items = map.items(alloc)?;
    let limit = r as u128 * r as u128;
    let count = near_count(items.as_slice(), next, point, limit);
    let items = first_near(alloc, items.as_slice(), point, limit, k as usize)?;
    Ok(BoxReply { mark, count, items })
}

pub fn tree_of(alloc: Global, map: &PlainMap) -> Result<Tree, NoMemory>
    requires { map.now.next ≤ MAX_POINTS }
    ensures { IfOk result (λ t. contents t ≡ map.now.items) }
{
    tree_by::<Brand>(alloc, map, Blank::new(1))
}

// With a counter of nodes that nobody reads.
fn tree_by<L: Ledger>(alloc: Global, map: &PlainMap, blank: Blank) -> Result<Tree, NoMemory>
    requires points { map.now.next ≤ MAX_POINTS }
    requires blank { IsBlankOf L.name L.parts blank }
    ensures { IfOk result (λ t. contents t ≡ map.now.items) }
{
    // A fact: the items are contents.
    let _ = map.next();
    let items = map.items(alloc)?;
    let mut steps: Steps<L> = Steps::new(blank);
    Tree::build(alloc, items.as_slice(), &mut steps)
}

// How many live items are within the distance.
fn near_count(items: &[Item], next: u32, point: &Point, limit: u128) -> u32
    requires { AreContents 0 next items.now }
    ensures { result ≡ length (filter (λ i. is_live i.label && is_near point.now limit i) items.now) }
{
    items.iter().filter(|i| finds(point, limit, i)).count() as u32
}

// The first of them, at most `most`.
fn first_near(
    alloc: Global,
    items: &[Item],
    point: &Point,
    limit: u128,
    most: usize,
) -> Result<Items, NoMemory>
    ensures { IfOk result (λ found. found ≡ take most (filter (λ i. is_live i.label && is_near point.now limit i) items.now)) }
{
    let mut found = Items::new(alloc);
    for item in items {
        if found.len() == most {
            return Ok(found);
        }
        if finds(point, limit, item) {
            found.push(*item)?;
        }
    }
    Ok(found)
}

fn finds(point: &Point, limit: u128, item: &Item) -> bool
    ensures { result ≡ (is_live item.now.label && is_near point.now limit item.now) }
{
    item.label == Label::Live && dist2(point, &item.point) <= limit
}
