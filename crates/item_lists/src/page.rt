//! The first of some items by number. The others are never sorted.
ghost use Rattle.std.specs.Prelude.{◌≡◌, ◌<◌, length, take, IfOk};
ghost use Rattle.kd_tree.specs.Contents.{AreDistinct, by_number};
ghost use Rattle.item_lists.specs.Page.{IsFront};

use map_items::{Item, Items, NoMemory};
use std::alloc::Global;

pub(crate) fn first_by_number(
    alloc: Global,
    items: Vec<Item>,
    most: usize,
) -> Result<Items, NoMemory>
    requires distinct { AreDistinct items.items }
    ensures { IfOk result (λ page. page ≡ take most (by_number items.items)) }
{
    let mut items = items;
    if most < items.len() {
        return page(alloc, items.as_mut_slice(), most);
    }
    items.sort_unstable_by_key(|i: &Item| i.number);
    Ok(Items::from(items))
}

fn page(alloc: Global, items: &mut [Item], most: usize) -> Result<Items, NoMemory>
    requires more { most < length items.old }
    requires distinct { AreDistinct items.old }
    ensures { IfOk result (λ page. page ≡ take most (by_number items.old)) }
{
    let front = front(items, most);
    front.sort_unstable_by_key(|i: &Item| i.number);
    Ok(Items::from(Vec::from_slice(alloc, front)?))
}

// In no order.
fn front(items: &mut [Item], most: usize) -> &mut [Item]
    requires more { most < length items.old }
    requires distinct { AreDistinct items.old }
    ensures { IsFront most items.old result.now }
{
    let (front, _, _) = items.select_nth_unstable_by_key(most, |i: &Item| i.number);
    front
}
