//! The live points of a box by number.
ghost use Rattle.std.specs.Prelude.{◌≡◌, ◌+◌, ◌≤◌, [], ◌∷◌, ◌++◌, true, length, take, IfOk, None, OnOk};
ghost use Rattle.map_fold.specs.Answers.{inside, inside_all};
ghost use Rattle.kd_tree.specs.Contents.{contents};
ghost use Rattle.kd_search.specs.{First.{AreFirst, AreFullTo}, Inserted.{insert_all}, Pending.{items_of, nodes_of}, Query.{IsQuery}, Sides.{IsEitherWay}};

use crate::by_number::insert_by_number;
use crate::pending::{Pending, PendingTop};
use kd_tree::Tree;
use map_items::{Item, Items, NoMemory};
use point_geom::Cuboid;
use std::alloc::Global;

/// The first `most` live items in the cuboid, by number. Subtrees outside it, without a live item or, once `most` are
/// found, with greater numbers alone are left out. Each item that is met costs at most `most` steps.
///
/// So the first few of a large cuboid are found soon, unless the least numbers below many nodes are those of dropped,
/// suspended or other items: then all that the cuboid meets may be visited.
pub fn in_cuboid(alloc: Global, tree: &Tree, c: &Cuboid, most: u32) -> Result<Items, NoMemory>
    requires query { IsQuery most None }
    ensures found { IfOk result (λ items. items ≡ inside (contents tree.now) c.now most) }
{
    let mut items = Vec::new(alloc);
    add_under(&Pending::whole(tree), c, most as usize, &mut items)?;
    Ok(Items::from(items))
}

fn add_under(
    part: &Pending<'_>,
    c: &Cuboid,
    most: usize,
    items: &mut Vec<Item>,
) -> Result<(), NoMemory>
    requires most_from { 1 ≤ most }
    requires held { AreFirst most items.old.items }
    ensures held { OnOk result (AreFirst most items.new.items) }
    ensures found { OnOk result (items.new.items ≡ take most (insert_all (inside_all (items_of part.now) c.now) items.old.items)) }
{
    let Some(extent) = part.extent() else {
        return Ok(());
    };
    if !c.meets(&extent) {
        return Ok(());
    }
    if are_full_to(items.as_slice(), most, part.least()) {
        return Ok(());
    }
    let Some(top) = part.top() else {
        return Ok(());
    };
    let PendingTop {
        item,
        left,
        right,
        ..
    } = top;
    let turn = Turn::of(left, right);
    add_under(&turn.first, c, most, items)?;
    add_under(&turn.second, c, most, items)?;
    add(&item, c, most, items)
}

fn add(item: &Item, c: &Cuboid, most: usize, items: &mut Vec<Item>) -> Result<(), NoMemory>
    requires most_from { 1 ≤ most }
    requires held { AreFirst most items.old.items }
    ensures held { OnOk result (AreFirst most items.new.items) }
    ensures found { OnOk result (items.new.items ≡ take most (insert_all (inside_all (item.now ∷ []) c.now) items.old.items)) }
{
    if !item.is_live_in(c) {
        return Ok(());
    }
    if are_full_to(items.as_slice(), most, item.number) {
        return Ok(());
    }
    insert_by_number(item, most, items)
}

// Then no item of this number or a greater one comes among them.
fn are_full_to(items: &[Item], most: usize, number: u32) -> bool
    requires most_from { 1 ≤ most }
    requires held { AreFirst most items.now }
    ensures { result ≡ true → AreFullTo most items.now number }
{
    if items.len() < most {
        return false;
    }
    items[most - 1].number <= number
}

#[derive(Drop)]
struct Turn<'a> {
    first: Pending<'a>,
    second: Pending<'a>,
}

impl<'a> Turn<'a> {
    // The least number first: what is found there is likely to have the other left out.
    fn of(left: Pending<'a>, right: Pending<'a>) -> Turn<'a>
        ensures items { IsEitherWay (items_of left.entry ++ items_of right.entry) (items_of result.first) (items_of result.second) }
        ensures nodes { nodes_of result.first + nodes_of result.second ≡ nodes_of left.entry + nodes_of right.entry }
    {
        if right.least() < left.least() {
            Turn {
                first: right,
                second: left,
            }
        } else {
            Turn {
                first: left,
                second: right,
            }
        }
    }
}
