//! A search of a tree of which a box is frozen.
ghost use Rattle.std.specs.Prelude.{◌≡◌, ◌+◌, ◌≤◌, ◌-ℤ◌, false, unsigned_abs, IfOk, IsOk};
ghost use Rattle.point_geom.specs.{Place.{IsCoordinate, IsCornerNumber, Place}, Boxes.{holds}, Distances.{dist2}};
ghost use Rattle.map_fold.specs.{Answers.{inside_all, nearest}, Nearest.{AreNearest}};
ghost use Rattle.kd_tree.specs.Contents.{contents};
ghost use Rattle.kd_search.specs.Query.{IsQuery};

use crate::Frozen;
use kd_search::Query;
use kd_tree::Tree;
use map_fold::Hits;
use map_items::NoMemory;
use point_geom::{Cuboid, Point};
use std::alloc::Global;

/// What `kd_search::nearest` finds in the tree, of which the items in the cuboid are frozen. The tree is searched as well where
/// something outside the cuboid may come among the hits. It never is where q is in the cuboid, at least `within` from each lower
/// face and more than `within` from each upper one.
pub fn nearest_beside(
    alloc: Global,
    tree: &Tree,
    c: &Cuboid,
    frozen: &Frozen,
    k: u32,
    q: &Point,
    within: Option<u64>,
) -> Result<Hits, NoMemory>
    requires query { IsQuery k within }
    requires frozen { frozen.now ≡ inside_all (contents tree.now) c.now }
    ensures found { IfOk result (λ hits. hits ≡ nearest (contents tree.now) k q.now within) }
    ensures nearest { IfOk result (AreNearest (contents tree.now) k q.now within) }
    ensures inline { k ≤ 16 → IsOk result }
{
    let _size = tree.size();
    let query = Query::new(k, q, within);
    let mut found = query.start(alloc);
    frozen.search(&query, &mut found)?;
    if found.bound < outside_from(c, q) {
        return Ok(found.hits);
    }
    kd_search::nearest(alloc, tree, k, q, within)
}

// No point outside the cuboid is nearer than this, in squared millimetres; 0 where q is outside.
fn outside_from(c: &Cuboid, q: &Point) -> u128
    ensures { (p : Place) → holds c.now p ≡ false → result ≤ dist2 q.now p }
{
    if !c.holds(q) {
        return 0;
    }
    let (lo, hi) = (c.lo(), c.hi());
    let x = outside_on(lo.x, q.x(), hi.x);
    let y = outside_on(lo.y, q.y(), hi.y);
    let z = outside_on(lo.z, q.z(), hi.z);
    let gap = x.min(y).min(z);
    gap as u128 * gap as u128
}

// How far the nearest number outside is from one that is from lo on and below hi.
fn outside_on(lo: i64, c: i64, hi: i64) -> u64
    requires lo_range { IsCornerNumber lo }
    requires range { IsCoordinate c }
    requires hi_range { IsCornerNumber hi }
    ensures lower { result ≤ unsigned_abs (c -ℤ lo) + 1 }
    ensures upper { result ≤ unsigned_abs (hi -ℤ c) }
{
    (c.abs_diff(lo) + 1).min(hi.abs_diff(c))
}
