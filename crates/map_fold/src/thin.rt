//! Downsampling of a list of items.
ghost use Rattle.std.specs.Prelude.{◌≡◌, ◌≤◌, List, ◌∷◌, ◌++◌, drop, filter, length, take, OnOk};
ghost use Rattle.point_geom.specs.Place.{Place};
ghost use Rattle.map_items.specs.{declared.item.Item.{Item}, Contents.{AreContents, centre_cmp, in_box, least, live_at, live_items, put, thin}};
ghost use Rattle.map_fold.specs.{Answers.{inside_all}, Rivals.{AreRivals}};

use crate::plain_map::mark_items;
use map_items::{Choice, Item, NoMemory, Tag};
use point_geom::{Cuboid, MAX_EDGE, Point, voxel};

// What is live in a voxel.
enum Rivals {
    None,
    One(Item),
    More,
}

// Where the point is alone in its voxel, or the one item there stays, no item is moved.
pub(crate) fn thin_one(
    items: &mut Vec<Item>,
    edge: u32,
    number: u32,
    point: &Point,
) -> Result<(), NoMemory>
    requires edge_from { 1 ≤ edge }
    requires edge_to { edge ≤ MAX_EDGE }
    requires held { AreContents 0 number items.old.items }
    ensures { OnOk result (items.new.items ≡ thin edge items.old.items number point.now) }
{
    let cube = voxel(point, edge);
    let new = Item::live(number, *point);
    match rivals_in(items.as_slice(), &cube) {
        Rivals::None => {
            items.push(new)?;
            return Ok(());
        }
        Rivals::One(rival) => {
            if !new.comes_before(&rival, &cube) {
                return Ok(());
            }
        }
        Rivals::More => {}
    }
    let winner = winner(items.as_slice(), &cube, number, point);
    mark_items(items, &Choice::within(&cube), Tag::THIN);
    put_item(items, winner.number, winner.point)
}

fn rivals_in(items: &[Item], cube: &Cuboid) -> Rivals
    ensures { AreRivals (inside_all items.now cube.now) result }
{
    let mut found = Rivals::None;
    for item in items {
        if item.is_live_in(cube) {
            found = match found {
                Rivals::None => Rivals::One(*item),
                Rivals::One(_) | Rivals::More => return Rivals::More,
            };
        }
    }
    found
}

fn winner(items: &[Item], cube: &Cuboid, number: u32, point: &Point) -> Item
    ensures { result ≡ least (centre_cmp cube.now) (live_at number point.now) (filter (in_box cube.now) (live_items items.now)) }
{
    let mut best = Item::live(number, *point);
    for item in items {
        if item.is_live_in(cube) && item.comes_before(&best, cube) {
            best = *item;
        }
    }
    best
}

fn put_item(items: &mut Vec<Item>, number: u32, point: Point) -> Result<(), NoMemory>
    ensures { OnOk result (items.new.items ≡ put items.old.items number point) }
{
    let at = index_of(items.as_slice(), number);
    let item = Item::live(number, point);
    if at < items.len() && items[at].number == number {
        items[at] = item;
        return Ok(());
    }
    items.insert(at, item)?;
    Ok(())
}

fn index_of(items: &[Item], number: u32) -> usize
    ensures bound { result ≤ length items.now }
    ensures value { (p : Place) → take result items.now ++ put (drop result items.now) number p ≡ put items.now number p }
    ensures first { (i : Item) (rest : List Item) → drop result items.now ≡ i ∷ rest → number ≤ i.number }
{
    let mut at = 0;
    while at < items.len() && items[at].number < number {
        at += 1;
    }
    at
}
