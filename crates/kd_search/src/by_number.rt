//! Items by number, up to a count.
ghost use Rattle.std.specs.{Prelude.{◌≡◌, ◌≤◌, length, take, OnOk}, List.{insert}};
ghost use Rattle.kd_tree.specs.Contents.{insert_item};

use map_items::{Item, NoMemory};

/// Puts an item in its place among items by number, and keeps the first `most`. Costs at most `most` steps.
pub fn insert_by_number(item: &Item, most: usize, items: &mut Vec<Item>) -> Result<(), NoMemory>
    requires most_from { 1 ≤ most }
    requires few { length items.old.items ≤ most }
    ensures { OnOk result (items.new.items ≡ take most (insert_item item.now items.old.items)) }
{
    let at = index_of(items.as_slice(), item);
    if at == most {
        return Ok(());
    }
    if items.len() == most {
        items.truncate(most - 1);
    }
    items.insert(at, *item)?;
    Ok(())
}

fn index_of(items: &[Item], item: &Item) -> usize
    ensures bound { result ≤ length items.now }
    ensures value { insert items.now result item.now ≡ insert_item item.now items.now }
{
    let mut at = 0;
    while at < items.len() && items[at].number <= item.number {
        at += 1;
    }
    at
}
