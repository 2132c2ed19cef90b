//! The walks that gather live items of a tree, in no order of numbers.
ghost use Rattle.std.specs.Prelude.{◌≡◌, [], ◌∷◌, ◌++◌, OnOk};
ghost use Rattle.map_items.specs.Contents.{live_items};
ghost use Rattle.map_fold.specs.Answers.{inside_all};
ghost use Rattle.kd_tree.specs.Walk.{walk};
ghost use Rattle.kd_frozen.specs.Cells.{items_of};

use crate::cell::Cell;
use kd_tree::Tree;
use map_items::{Item, Label, NoMemory, Tag};
use point_geom::{Axis, Cuboid};

/// Puts the live items of the tree, for which this action is pending, after the cells.
pub(crate) fn gather(tree: &Tree, pending: Tag, cells: &mut Vec<Cell>) -> Result<(), NoMemory>
    ensures { OnOk result (items_of cells.new.items ≡ items_of cells.old.items ++ live_items (walk pending tree.now)) }
{
    let Some(top) = tree.top() else {
        return Ok(());
    };
    push_live(&top.item.relabelled(pending), cells)?;
    let below = top.pending.then(pending);
    gather(top.left, below, cells)?;
    gather(top.right, below, cells)
}

/// Puts those of them that are in the cuboid after the cells. A subtree that the cuboid doesn't meet is left out.
pub(crate) fn gather_inside(
    tree: &Tree,
    pending: Tag,
    c: &Cuboid,
    cells: &mut Vec<Cell>,
) -> Result<(), NoMemory>
    ensures { OnOk result (items_of cells.new.items ≡ items_of cells.old.items ++ inside_all (walk pending tree.now) c.now) }
{
    let Some(extent) = tree.extent() else {
        return Ok(());
    };
    if !c.meets(&extent) {
        return Ok(());
    }
    let Some(top) = tree.top() else {
        return Ok(());
    };
    push_inside(&top.item.relabelled(pending), c, cells)?;
    let below = top.pending.then(pending);
    gather_inside(top.left, below, c, cells)?;
    gather_inside(top.right, below, c, cells)
}

fn push_live(item: &Item, cells: &mut Vec<Cell>) -> Result<(), NoMemory>
    ensures { OnOk result (items_of cells.new.items ≡ items_of cells.old.items ++ live_items (item.now ∷ [])) }
{
    if item.label != Label::Live {
        return Ok(());
    }
    cells.push(Cell {
        point: item.point,
        number: item.number,
        axis: Axis::X,
        share: 0,
    })?;
    Ok(())
}

fn push_inside(item: &Item, c: &Cuboid, cells: &mut Vec<Cell>) -> Result<(), NoMemory>
    ensures { OnOk result (items_of cells.new.items ≡ items_of cells.old.items ++ inside_all (item.now ∷ []) c.now) }
{
    if !c.holds(&item.point) {
        return Ok(());
    }
    push_live(item, cells)
}
