//! The nearest live points.
ghost use Rattle.std.specs.Prelude.{◌≡◌, ◌≤◌, [], ◌∷◌, take, IfOk, IsOk, OnOk};
ghost use Rattle.map_items.specs.Contents.{live_at};
ghost use Rattle.map_fold.specs.{Answers.{candidates, nearest, put_hit}, Nearest.{AreNearest}};
ghost use Rattle.kd_tree.specs.{Contents.{contents}, Walk.{walk}};
ghost use Rattle.kd_search.specs.{Nearest.{IsBound, put_all}, Query.{IsQuery}};

use crate::pending::live_under;
use crate::sides::Sides;
use kd_tree::Tree;
use map_fold::{Hit, Hits};
use map_items::{Item, Label, NoMemory, Tag};
use point_geom::{Point, dist2};
use std::alloc::Global;

/// The first k live points by distance from q, then by x, y, z, then by number; at most `within` millimetres away,
/// where that is given. Up to 16 take no memory.
///
/// The child on the point's side is searched first. A subtree is left out where it has no live item, or where its box,
/// or the plane before it, is farther than `within` or than each of k hits.
pub fn nearest(
    alloc: Global,
    tree: &Tree,
    k: u32,
    q: &Point,
    within: Option<u64>,
) -> Result<Hits, NoMemory>
    requires query { IsQuery k within }
    ensures found { IfOk result (λ hits. hits ≡ nearest (contents tree.now) k q.now within) }

    // What that list is, not how it is made.
    ensures nearest { IfOk result (AreNearest (contents tree.now) k q.now within) }
    ensures inline { k ≤ 16 → IsOk result }
{
    let _size = tree.size();
    let query = Query::new(k, q, within);
    let mut found = query.start(alloc);
    add_from(tree, Tag::KEEP, &query, &mut found)?;
    Ok(found.hits)
}

#[cycle(near)]
fn add_from(tree: &Tree, pending: Tag, query: &Query, found: &mut Found) -> Result<(), NoMemory>
    requires { IsBound query.now.k query.now.within found.old.hits found.old.bound }
    ensures bound { OnOk result (IsBound query.now.k query.now.within found.new.hits found.new.bound) }
    ensures found { OnOk result (found.new.hits ≡ take query.now.k (put_all (candidates (walk pending tree.now) query.now.point query.now.within) found.old.hits)) }
    ensures inline { query.now.k ≤ 16 → IsOk result }
{
    let Some(extent) = tree.extent() else {
        return Ok(());
    };
    if found.bound < extent.dist2(&query.point) {
        return Ok(());
    }
    add_under(tree, pending, query, found)
}

// Not part of `add_from`: most trees are too far to be entered, and this isn't set up for them.
#[cycle(near)]
#[inline(never)]
fn add_under(tree: &Tree, pending: Tag, query: &Query, found: &mut Found) -> Result<(), NoMemory>
    requires { IsBound query.now.k query.now.within found.old.hits found.old.bound }
    ensures bound { OnOk result (IsBound query.now.k query.now.within found.new.hits found.new.bound) }
    ensures found { OnOk result (found.new.hits ≡ take query.now.k (put_all (candidates (walk pending tree.now) query.now.point query.now.within) found.old.hits)) }
    ensures inline { query.now.k ≤ 16 → IsOk result }
{
    let _size = tree.size();
    if live_under(tree, pending) == 0 {
        return Ok(());
    }
    let Some(top) = tree.top() else {
        return Ok(());
    };
    let sides = Sides::of(&top, &query.point);
    let below = top.pending.then(pending);
    add_from(sides.near, below, query, found)?;
    if found.bound < sides.gap {
        return Ok(());
    }
    let item = top.item.relabelled(pending);
    query.add(&item, found)?;
    add_from(sides.far, below, query, found)
}

/// The k nearest live points are searched for, at most `within` millimetres away, where that is given.
#[derive(Drop)]
pub struct Query {
    pub k: usize,
    pub point: Point,
    pub within: Option<u64>,
    ghost some: { 1 ≤ k },
}

/// The nearest so far.
#[derive(Drop)]
pub struct Found {
    pub hits: Hits,
    /// A square. What is farther is too far, or comes after k hits; what is as far may come before, by coordinates or
    /// number.
    pub bound: u128,
}

impl Query {
    /// What `nearest` searches for when it is called with these.
    #[inline]
    pub fn new(k: u32, q: &Point, within: Option<u64>) -> Query
        requires { IsQuery k within }
        ensures k { result.k ≡ k }
        ensures point { result.point ≡ q.now }
        ensures within { result.within ≡ within }
    {
        Query {
            k: k as usize,
            point: *q,
            within,
        }
    }

    /// What a search begins with: no hit. Takes no memory.
    #[inline]
    pub fn start(&self, alloc: Global) -> Found
        ensures none { result.hits ≡ [] }
        ensures bound { IsBound self.now.k self.now.within result.hits result.bound }
    {
        Found {
            hits: Hits::new(alloc),
            bound: self.reach(),
        }
    }

    /// The bound before any hit is held.
    pub fn reach(&self) -> u128
        ensures { IsBound self.now.k self.now.within [] result }
    {
        match self.within {
            None => u128::MAX,
            Some(r) => r as u128 * r as u128,
        }
    }

    fn add(&self, item: &Item, found: &mut Found) -> Result<(), NoMemory>
        requires { IsBound self.now.k self.now.within found.old.hits found.old.bound }
        ensures bound { OnOk result (IsBound self.now.k self.now.within found.new.hits found.new.bound) }
        ensures found { OnOk result (found.new.hits ≡ take self.now.k (put_all (candidates (item.now ∷ []) self.now.point self.now.within) found.old.hits)) }
        ensures inline { self.now.k ≤ 16 → IsOk result }
    {
        if item.label != Label::Live {
            return Ok(());
        }
        self.offer(item.number, &item.point, found)
    }

    /// Puts a live point among those held, unless it is too far.
    #[inline]
    pub fn offer(&self, number: u32, point: &Point, found: &mut Found) -> Result<(), NoMemory>
        requires { IsBound self.now.k self.now.within found.old.hits found.old.bound }
        ensures bound { OnOk result (IsBound self.now.k self.now.within found.new.hits found.new.bound) }
        ensures found { OnOk result (found.new.hits ≡ take self.now.k (put_all (candidates (live_at number point.now ∷ []) self.now.point self.now.within) found.old.hits)) }
        ensures inline { self.now.k ≤ 16 → IsOk result }
    {
        let gap = dist2(&self.point, point);
        if found.bound < gap {
            return Ok(());
        }
        let hit = Hit {
            number,
            point: *point,
            dist2: gap,
        };
        self.put(hit, found)
    }

    // Puts a hit among those held, and draws the bound in.
    #[inline(never)]
    fn put(&self, hit: Hit, found: &mut Found) -> Result<(), NoMemory>
        requires bound { IsBound self.now.k self.now.within found.old.hits found.old.bound }
        requires near { hit.dist2 ≤ found.old.bound }
        ensures bound { OnOk result (IsBound self.now.k self.now.within found.new.hits found.new.bound) }
        ensures found { OnOk result (found.new.hits ≡ take self.now.k (put_hit hit found.old.hits)) }
        ensures inline { self.now.k ≤ 16 → IsOk result }
    {
        found.hits.put(self.k, hit)?;
        let held = found.hits.as_slice();
        if held.len() < self.k {
            return Ok(());
        }
        found.bound = found.bound.min(held[self.k - 1].dist2);
        Ok(())
    }
}
