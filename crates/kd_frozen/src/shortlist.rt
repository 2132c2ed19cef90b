//! The nearest so far, at most 16: cells, which are seen as hits.
ghost use Rattle.std.specs.{Prelude.{◌≡◌, ◌+◌, ◌<◌, ◌≤◌, [], get_or, length, slice_set, take}, Ordering.{is_lt, nat_cmp, ordering_then}};
ghost use Rattle.point_geom.specs.Axes.{place_cmp};
ghost use Rattle.map_fold.specs.{declared.hits.Hit.{Hit}, Answers.{is_nearer, put_hit}, Nearest.{AreRanked}};
ghost use Rattle.kd_frozen.specs.{declared.shortlist.Near.{Near}, Shortlist.{hit_at, hits_of}};

use crate::cell::Cell;
use map_fold::{Hit, Hits};
use point_geom::{Axis, Point};
use std::marker::Model;

/// A cell, and its squared distance from the place, in squared millimetres.
#[derive(Clone, Copy, Debug)]
pub(crate) struct Near {
    pub(crate) cell: Cell,
    pub(crate) dist2: u64,
}

/// At most 16 hits, the nearest first, as a search of a frozen index leaves them. It takes no memory.
#[derive(Drop)]
pub struct Shortlist {
    // From `len` on they mean nothing.
    nears: [Near; 16],
    len: usize,
}

impl Model for Shortlist {
    ghost use Rattle.std.specs.Prelude.{List, ◌≡◌, ◌≤◌, length, take};
    ghost use Rattle.map_fold.specs.{declared.hits.Hit.{Hit}, Nearest.{AreRanked}};
    ghost use Rattle.kd_frozen.specs.Shortlist.{hits_of};

    ghost Value = { List Hit };

    ghost view = { λ s. hits_of (take s.len s.nears) };

    ghost invariant = { λ s. (s.len ≤ 16) × (length s.nears ≡ 16) × AreRanked (hits_of (take s.len s.nears)) };
}

impl Shortlist {
    /// No hit.
    pub fn new() -> Shortlist
        ensures { result ≡ [] }
    {
        let cell = Cell {
            point: Point::default(),
            number: 0,
            axis: Axis::X,
            share: 0,
        };
        let near = Near { cell, dist2: 0 };
        Shortlist {
            nears: [near; 16],
            len: 0,
        }
    }

    pub fn len(&self) -> usize
        ensures { result ≡ length self.now }
    {
        self.len
    }

    /// The hit in this place.
    pub fn hit(&self, place: usize) -> Hit
        requires { place < length self.now }
        ensures { (h : Hit) → result ≡ get_or self.now place h }
    {
        let nears = &self.nears[..self.len];
        hit_of(&nears[place])
    }

    /// The squared distance of the cell in this place.
    pub(crate) fn dist2_at(&self, place: usize) -> u64
        requires { place < length self.now }
        ensures { (h : Hit) → result ≡ (get_or self.now place h).dist2 }
    {
        let nears = &self.nears[..self.len];
        nears[place].dist2
    }

    /// Puts the hits where there are none.
    pub(crate) fn copy_to(&self, hits: &mut Hits)
        requires { hits.old ≡ [] }
        ensures { hits.new ≡ self.now }
    {
        push_all(&self.nears[..self.len], hits)
    }

    /// Puts a cell in its place, and keeps the nearest k.
    pub(crate) fn put(&mut self, k: usize, near: &Near)
        requires k_from { 1 ≤ k }
        requires k_to { k ≤ 16 }
        requires few { length self.old ≤ k }
        ensures { self.new ≡ take k (put_hit (hit_at near.now) self.old) }
    {
        let len = self.len;
        if len < k {
            put_among(&mut self.nears, len, near);
            self.len = len + 1;
        } else if !comes_before(&self.nears, k - 1, near) {
            put_among(&mut self.nears, k - 1, near);
        }
    }
}

fn push_all(nears: &[Near], hits: &mut Hits)
    requires few { length nears.now ≤ 16 }
    requires none { hits.old ≡ [] }
    ensures { hits.new ≡ hits_of nears.now }
{
    for near in nears {
        hits.push(hit_of(near)).unwrap();
    }
}

#[inline]
fn hit_of(near: &Near) -> Hit
    ensures { result ≡ hit_at near.now }
{
    Hit {
        number: near.cell.number,
        point: near.cell.point,
        dist2: near.dist2 as u128,
    }
}

// Puts one more among the first `len`, which are in order. What is behind it moves up by one place.
fn put_among(nears: &mut [Near], len: usize, near: &Near)
    requires room { len < length nears.old }
    requires ranked { AreRanked (hits_of (take len nears.old)) }
    ensures length { length nears.new ≡ length nears.old }
    ensures put { hits_of (take (len + 1) nears.new) ≡ put_hit (hit_at near.now) (hits_of (take len nears.old)) }
{
    let at = make_place(nears, len, near);
    nears[at] = *near;
}

// Moves what is behind it up, and returns its place.
#[inline]
fn make_place(nears: &mut [Near], len: usize, near: &Near) -> usize
    requires room { len < length nears.old }
    requires ranked { AreRanked (hits_of (take len nears.old)) }
    ensures within { result ≤ len }
    ensures length { length nears.new ≡ length nears.old }
    ensures put { hits_of (take (len + 1) (slice_set nears.new result near.now)) ≡ put_hit (hit_at near.now) (hits_of (take len nears.old)) }
{
    let mut at = len;
    while 0 < at && !comes_before(nears, at - 1, near) {
        let before = nears[at - 1];
        nears[at] = before;
        at -= 1;
    }
    at
}

// Whether the one in this place comes before another.
#[inline]
fn comes_before(nears: &[Near], place: usize, near: &Near) -> bool
    requires { place < length nears.now }
    ensures { (n : Near) → result ≡ is_nearer (hit_at (get_or nears.now place n)) (hit_at near.now) }
{
    is_nearer(&nears[place], near)
}

#[inline]
fn is_nearer(a: &Near, b: &Near) -> bool
    ensures { result ≡ is_nearer (hit_at a.now) (hit_at b.now) }
{
    a.dist2 < b.dist2 || a.dist2 == b.dist2 && is_first(&a.cell, &b.cell)
}

// Of cells that are as far. Most are not, so this is kept out of the way.
#[inline(never)]
fn is_first(a: &Cell, b: &Cell) -> bool
    ensures { result ≡ is_lt (ordering_then (place_cmp a.now.point b.now.point) (nat_cmp a.now.number b.now.number)) }
{
    a.point
        .cmp_place(&b.point)
        .then(a.number.cmp(&b.number))
        .is_lt()
}
