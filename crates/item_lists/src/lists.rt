ghost use Rattle.std.specs.Prelude.{◌≡◌, ◌≤◌, None, take, IfOk};
ghost use Rattle.map_fold.specs.{Answers.{inside_all}, Neighbours.{ball}};
ghost use Rattle.kd_tree.specs.Contents.{contents};
ghost use Rattle.item_lists.specs.{Listed.{numbered_from}, Sought.{wanted}};

use crate::gather::{Filter, gather};
use crate::page::first_by_number;
use crate::sought::Sought;
use kd_search::count_in;
use kd_tree::Tree;
use map_items::{Items, MAX_WITHIN, NoMemory, Tag};
use point_geom::{Cuboid, Point};
use std::alloc::Global;

/// The items numbered from `from` on, live and suspended, by number: the first `most`. Where the numbers held are spread
/// evenly, about one and a quarter times `most` items are visited, with the nodes above them; otherwise all from this
/// number on.
pub fn items_from(alloc: Global, tree: &Tree, from: u32, most: usize) -> Result<Items, NoMemory>
    ensures { IfOk result (λ items. items ≡ take most (numbered_from from (contents tree.now))) }
{
    let _size = tree.size();
    let counts = tree.counts();
    let held = counts.live + counts.suspended;
    first_sought(alloc, tree, from, &Sought::Held, held, most)
}

/// The live items in the box, numbered from `from` on, by number: the first `most`. Counts the box first, and visits as
/// `items_from` does, of what the box meets.
pub fn box_items(
    alloc: Global,
    tree: &Tree,
    cuboid: &Cuboid,
    from: u32,
    most: usize,
) -> Result<Items, NoMemory>
    ensures { IfOk result (λ items. items ≡ take most (numbered_from from (inside_all (contents tree.now) cuboid.now))) }
{
    let held = count_in(tree, cuboid);
    let sought = Sought::InBox(*cuboid);
    let items = first_sought(alloc, tree, from, &sought, held, most)?;
    Ok(items)
}

/// The live items at most `r` millimetres from the place, numbered from `from` on, by number: the first `most`. All that
/// the ball meets from this number on is visited, and held until the first are chosen.
pub fn ball_items(
    alloc: Global,
    tree: &Tree,
    place: &Point,
    r: u64,
    from: u32,
    most: usize,
) -> Result<Items, NoMemory>
    requires r_to { r ≤ MAX_WITHIN }
    ensures { IfOk result (λ items. items ≡ take most (numbered_from from (ball (contents tree.now) place.now r))) }
{
    let limit = r as u128 * r as u128;
    let center = *place;
    let sought = Sought::InBall { center, limit };
    let items = list(alloc, tree, from, None, &sought, most)?;
    Ok(items)
}

// `held` is how many there are, of whatever number.
fn first_sought(
    alloc: Global,
    tree: &Tree,
    from: u32,
    sought: &Sought,
    held: u32,
    most: usize,
) -> Result<Items, NoMemory>
    ensures { IfOk result (λ items. items ≡ take most (wanted from None sought.now (contents tree.now))) }
{
    let _size = tree.size();
    let Some(bound) = likely_bound(tree, from, held, most) else {
        return list(alloc, tree, from, None, sought, most);
    };
    let page = list(alloc, tree, from, Some(bound), sought, most)?;
    if page.len() == most {
        return Ok(page);
    }
    list(alloc, tree, from, None, sought, most)
}

// A guess where `most` items end if numbers are spread evenly: else each page would gather all that remains. None where
// that is likely wanted.
fn likely_bound(tree: &Tree, from: u32, held: u32, most: usize) -> Option<u32> {
    let numbers = tree.numbers()?;
    if held as u64 <= most as u64 {
        return None;
    }
    let span = (numbers.greatest as u64 + 1).saturating_sub(numbers.least as u64);
    let width = (most as u64).saturating_mul(span) / held as u64;
    let bound = (width / 4)
        .saturating_add(width)
        .saturating_add(from as u64 + 64);
    if numbers.greatest as u64 <= bound {
        return None;
    }
    Some(bound as u32)
}

fn list(
    alloc: Global,
    tree: &Tree,
    from: u32,
    bound: Option<u32>,
    sought: &Sought,
    most: usize,
) -> Result<Items, NoMemory>
    ensures { IfOk result (λ items. items ≡ take most (wanted from bound sought.now (contents tree.now))) }
{
    let _size = tree.size();
    let mut items = Vec::new(alloc);
    let filter = Filter {
        from,
        bound,
        sought,
    };
    gather(tree, Tag::KEEP, &filter, &mut items)?;
    let page = first_by_number(alloc, items, most)?;
    Ok(page)
}
