//! The search where all squared distances fit 64 bits, for at most 16 hits.
//!
//! It finds what the search in `search` finds, and sooner: numbers are one word, and the list is short. Each function takes the
//! bound before it, and returns that after it.
ghost use Rattle.std.specs.Prelude.{◌≡◌, ◌^◌, ◌<◌, ◌≤◌, [], ◌∷◌, take};
ghost use Rattle.point_geom.specs.Distances.{dist2};
ghost use Rattle.map_fold.specs.Answers.{candidates, put_hit};
ghost use Rattle.kd_tree.specs.Contents.{AreDistinct};
ghost use Rattle.kd_search.specs.Nearest.{IsBound, put_all};
ghost use Rattle.kd_frozen.specs.{Cells.{item_of, items_of}, Close.{AreClose, IsCloseBound}, Segments.{AreParted}, Shortlist.{hit_at}};

use crate::cell::Cell;
use crate::distance::close_dist2;
use crate::parts::Parts;
use crate::shortlist::{Near, Shortlist};
use kd_search::{Found, Query};

/// Puts the hits of a segment where there are none yet.
pub(crate) fn search_close(cells: &[Cell], query: &Query, found: &mut Found)
    requires k_to { query.now.k ≤ 16 }
    requires none { found.old.hits ≡ [] }
    requires bound { IsBound query.now.k query.now.within found.old.hits found.old.bound }
    requires parted { AreParted cells.now }
    requires distinct { AreDistinct (items_of cells.now) }
    requires close { AreClose query.now.point (items_of cells.now) }
    ensures bound { IsBound query.now.k query.now.within found.new.hits found.new.bound }
    ensures found { found.new.hits ≡ take query.now.k (put_all (candidates (items_of cells.now) query.now.point query.now.within) found.old.hits) }
{
    let mut list = Shortlist::new();
    let bound = fill(cells, query, &mut list, found.bound);
    list.copy_to(&mut found.hits);
    if bound < u64::MAX {
        found.bound = bound as u128;
    }
}

/// Adds the hits of a segment to a list. All ones are returned where the bound has more than 64 bits.
pub(crate) fn fill(cells: &[Cell], query: &Query, list: &mut Shortlist, bound: u128) -> u64
    requires k_to { query.now.k ≤ 16 }
    requires bound { IsBound query.now.k query.now.within list.old bound }
    requires parted { AreParted cells.now }
    requires distinct { AreDistinct (items_of cells.now) }
    requires close { AreClose query.now.point (items_of cells.now) }
    ensures bound { IsCloseBound query.now.k query.now.within list.new result }
    ensures found { list.new ≡ take query.now.k (put_all (candidates (items_of cells.now) query.now.point query.now.within) list.old) }
{
    let bound = bound.min(u64::MAX as u128) as u64;
    add_from(cells, query, list, bound)
}

// Adds the hits of a segment to those that are held, of which the first k are kept.
fn add_from(cells: &[Cell], query: &Query, list: &mut Shortlist, bound: u64) -> u64
    requires k_to { query.now.k ≤ 16 }
    requires bound { IsCloseBound query.now.k query.now.within list.old bound }
    requires parted { AreParted cells.now }
    requires distinct { AreDistinct (items_of cells.now) }
    requires close { AreClose query.now.point (items_of cells.now) }
    ensures bound { IsCloseBound query.now.k query.now.within list.new result }
    ensures found { list.new ≡ take query.now.k (put_all (candidates (items_of cells.now) query.now.point query.now.within) list.old) }
{
    let Some(parts) = Parts::of(cells, &query.point) else {
        return add_leaf(cells, query, list, bound);
    };
    let gap2 = parts.close_gap2(&query.point);
    let near_bound = add_from(parts.near, query, list, bound);
    if near_bound < gap2 {
        return near_bound;
    }
    let top_bound = add(parts.top, query, list, near_bound);
    add_from(parts.far, query, list, top_bound)
}

fn add_leaf(cells: &[Cell], query: &Query, list: &mut Shortlist, bound: u64) -> u64
    requires k_to { query.now.k ≤ 16 }
    requires bound { IsCloseBound query.now.k query.now.within list.old bound }
    requires distinct { AreDistinct (items_of cells.now) }
    requires close { AreClose query.now.point (items_of cells.now) }
    ensures bound { IsCloseBound query.now.k query.now.within list.new result }
    ensures found { list.new ≡ take query.now.k (put_all (candidates (items_of cells.now) query.now.point query.now.within) list.old) }
{
    let mut drawn = bound;
    for cell in cells {
        drawn = add(cell, query, list, drawn);
    }
    drawn
}

#[inline]
fn add(cell: &Cell, query: &Query, list: &mut Shortlist, bound: u64) -> u64
    requires k_to { query.now.k ≤ 16 }
    requires bound { IsCloseBound query.now.k query.now.within list.old bound }
    requires close { dist2 query.now.point cell.now.point < 2 ^ 64 }
    ensures bound { IsCloseBound query.now.k query.now.within list.new result }
    ensures found { list.new ≡ take query.now.k (put_all (candidates (item_of cell.now ∷ []) query.now.point query.now.within) list.old) }
{
    let dist2 = close_dist2(&query.point, &cell.point);
    if bound < dist2 {
        return bound;
    }
    let near = Near { cell: *cell, dist2 };
    put(&near, query, list, bound)
}

// Puts a cell among those held, and draws the bound in.
#[inline(never)]
fn put(near: &Near, query: &Query, list: &mut Shortlist, bound: u64) -> u64
    requires k_to { query.now.k ≤ 16 }
    requires bound { IsCloseBound query.now.k query.now.within list.old bound }
    requires near { near.now.dist2 ≤ bound }
    ensures bound { IsCloseBound query.now.k query.now.within list.new result }
    ensures found { list.new ≡ take query.now.k (put_hit (hit_at near.now) list.old) }
{
    list.put(query.k, near);
    if list.len() < query.k {
        return bound;
    }
    bound.min(list.dist2_at(query.k - 1))
}
