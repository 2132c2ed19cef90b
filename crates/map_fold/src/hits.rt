//! What a search for the nearest points finds.
ghost use Rattle.std.specs.{Prelude.{◌≡◌, ◌<◌, ◌≤◌, [], ◌∷◌, ◌++◌, ◌-◌, length, take, IsOk, OnOk, OnErr}, List.{insert}};
ghost use Rattle.map_fold.specs.{Answers.{put_hit, is_nearer}, Nearest.{AreRanked}};

use map_items::{NoMemory, Sequence};
use point_geom::Point;
use smallvec::SmallVec;
use std::alloc::Global;
use std::marker::Model;

/// A live point that was found.
#[derive(Clone, Copy, Debug, Default, PartialEq, Eq)]
pub struct Hit {
    pub number: u32,
    pub point: Point,
    /// From the query, in squared millimetres.
    pub dist2: u128,
}

/// A list of hits, of which the first 16 take no memory.
#[derive(Debug, Drop)]
pub struct Hits {
    hits: SmallVec<Hit, 16>,
    // Each hit came by `put`, so they are in order.
    ranked: bool,
}

/// The hits of several searches, in the order of the searches.
pub type HitLists = Sequence<Hits>;

impl Model for Hits {
    ghost use Rattle.std.specs.Prelude.{List, ◌≡◌, ◌≤◌, true};
    ghost use Rattle.map_fold.specs.{declared.hits.Hit.{Hit}, Nearest.{AreRanked}};

    ghost Value = { List Hit };

    ghost view = { λ s. s.hits.items };

    ghost invariant = { λ s. (16 ≤ s.hits.capacity) × (s.ranked ≡ true → AreRanked s.hits.items) };
}

impl Hits {
    /// Takes no memory.
    pub fn new(alloc: Global) -> Self
        ensures { result ≡ [] }
    {
        Hits {
            hits: SmallVec::new(alloc),
            ranked: true,
        }
    }

    pub fn len(&self) -> usize
        ensures { result ≡ length self.now }
    {
        self.hits.len()
    }

    pub fn as_slice(&self) -> &[Hit]
        ensures { result.now ≡ self.now }
    {
        self.hits.as_slice()
    }

    /// On `NoMemory` the list is unchanged.
    pub fn push(&mut self, hit: Hit) -> Result<(), NoMemory>
        ensures ok { OnOk result (self.new ≡ self.old ++ hit ∷ []) }
        ensures err { OnErr result (self.new ≡ self.old) }
        ensures succeeds { length self.old < 16 → IsOk result }
    {
        self.hits.push(hit)?;
        self.ranked = false;
        Ok(())
    }

    /// Puts a hit in its place among hits in order, and keeps the nearest k. Costs a step for each hit behind it, or k
    /// steps after a `push`. On `NoMemory` the list is unchanged.
    pub fn put(&mut self, k: usize, hit: Hit) -> Result<(), NoMemory>
        requires k_from { 1 ≤ k }
        requires few { length self.old ≤ k }
        ensures ok { OnOk result (self.new ≡ take k (put_hit hit self.old)) }
        ensures err { OnErr result (self.new ≡ self.old) }
        ensures succeeds { k ≤ 16 → IsOk result }
    {
        let at = self.index_of(&hit);
        if at == k {
            return Ok(());
        }
        put_at(&mut self.hits, k, at, &hit)
    }

    fn index_of(&self, hit: &Hit) -> usize
        ensures bound { result ≤ length self.now }
        ensures value { insert self.now result hit.now ≡ put_hit hit.now self.now }
    {
        if self.ranked {
            place_from_end(self.hits.as_slice(), hit)
        } else {
            place_from_start(self.hits.as_slice(), hit)
        }
    }
}

fn place_from_start(hits: &[Hit], hit: &Hit) -> usize
    ensures bound { result ≤ length hits.now }
    ensures value { insert hits.now result hit.now ≡ put_hit hit.now hits.now }
{
    let mut at = 0;
    while at < hits.len() && is_nearer(&hits[at], hit) {
        at += 1;
    }
    at
}

fn place_from_end(hits: &[Hit], hit: &Hit) -> usize
    requires { AreRanked hits.now }
    ensures bound { result ≤ length hits.now }
    ensures value { insert hits.now result hit.now ≡ put_hit hit.now hits.now }
{
    let mut at = hits.len();
    while 0 < at && !is_nearer(&hits[at - 1], hit) {
        at -= 1;
    }
    at
}

fn put_at(hits: &mut SmallVec<Hit, 16>, k: usize, at: usize, hit: &Hit) -> Result<(), NoMemory>
    requires kept { at < k }
    requires bound { at ≤ length hits.old.items }
    requires few { length hits.old.items ≤ k }
    ensures ok { OnOk result (hits.new.items ≡ take k (insert hits.old.items at hit.now)) }
    ensures err { OnErr result (hits.new ≡ hits.old) }
    ensures capacity { hits.old.capacity ≤ hits.new.capacity }
    ensures succeeds { k ≤ hits.old.capacity → IsOk result }
{
    if hits.len() < k {
        hits.push(*hit)?;
    }
    put_before_last(hits.as_mut_slice(), at, *hit);
    Ok(())
}

fn put_before_last(hits: &mut [Hit], at: usize, hit: Hit)
    requires { at < length hits.old }
    ensures { hits.new ≡ insert (take (length hits.old - 1) hits.old) at hit }
{
    let last = hits.len() - 1;
    hits.copy_within(at..last, at + 1);
    hits[at] = hit;
}

// Distances first: most hits differ in them.
fn is_nearer(a: &Hit, b: &Hit) -> bool
    ensures { result ≡ is_nearer a.now b.now }
{
    a.dist2 < b.dist2
        || a.dist2 == b.dist2
            && a.point
                .cmp_place(&b.point)
                .then(a.number.cmp(&b.number))
                .is_lt()
}
