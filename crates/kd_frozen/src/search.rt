//! The search of a segment for the nearest.
ghost use Rattle.std.specs.Prelude.{◌≡◌, ◌≤◌, [], ◌∷◌, take, IsOk, OnOk};
ghost use Rattle.map_fold.specs.Answers.{candidates};
ghost use Rattle.kd_tree.specs.Contents.{AreDistinct};
ghost use Rattle.kd_search.specs.Nearest.{IsBound, put_all};
ghost use Rattle.kd_frozen.specs.{Cells.{item_of, items_of}, Segments.{AreParted}};

use crate::cell::Cell;
use crate::parts::Parts;
use kd_search::{Found, Query};
use map_items::NoMemory;

/// Adds the hits of a segment to those that are held, of which the first k are kept.
pub(crate) fn add_from(cells: &[Cell], query: &Query, found: &mut Found) -> Result<(), NoMemory>
    requires bound { IsBound query.now.k query.now.within found.old.hits found.old.bound }
    requires parted { AreParted cells.now }
    requires distinct { AreDistinct (items_of cells.now) }
    ensures bound { OnOk result (IsBound query.now.k query.now.within found.new.hits found.new.bound) }
    ensures found { OnOk result (found.new.hits ≡ take query.now.k (put_all (candidates (items_of cells.now) query.now.point query.now.within) found.old.hits)) }
    ensures inline { query.now.k ≤ 16 → IsOk result }
{
    let Some(parts) = Parts::of(cells, &query.point) else {
        return add_leaf(cells, query, found);
    };
    let gap2 = parts.gap2(&query.point);
    add_from(parts.near, query, found)?;
    if found.bound < gap2 {
        return Ok(());
    }
    add(parts.top, query, found)?;
    add_from(parts.far, query, found)
}

fn add_leaf(cells: &[Cell], query: &Query, found: &mut Found) -> Result<(), NoMemory>
    requires bound { IsBound query.now.k query.now.within found.old.hits found.old.bound }
    requires distinct { AreDistinct (items_of cells.now) }
    ensures bound { OnOk result (IsBound query.now.k query.now.within found.new.hits found.new.bound) }
    ensures found { OnOk result (found.new.hits ≡ take query.now.k (put_all (candidates (items_of cells.now) query.now.point query.now.within) found.old.hits)) }
    ensures inline { query.now.k ≤ 16 → IsOk result }
{
    for cell in cells {
        add(cell, query, found)?;
    }
    Ok(())
}

#[inline]
fn add(cell: &Cell, query: &Query, found: &mut Found) -> Result<(), NoMemory>
    requires { IsBound query.now.k query.now.within found.old.hits found.old.bound }
    ensures bound { OnOk result (IsBound query.now.k query.now.within found.new.hits found.new.bound) }
    ensures found { OnOk result (found.new.hits ≡ take query.now.k (put_all (candidates (item_of cell.now ∷ []) query.now.point query.now.within) found.old.hits)) }
    ensures inline { query.now.k ≤ 16 → IsOk result }
{
    query.offer(cell.number, &cell.point, found)
}
