//! The plain map, a list of items.
ghost use Rattle.std.specs.{Prelude.{◌≡◌, ◌+◌, ◌≤◌, ◌&&◌, [], ◌∷◌, filter, length, map, IfOk, IsOk}, Option.{ForSome}};
ghost use Rattle.point_geom.specs.Place.{Place};
ghost use Rattle.node_labels.specs.Labels.{is_live};
ghost use Rattle.map_items.specs.Contents.{AreContents, chosen_by, in_box, mark, marked_item, totals, live_count, suspended_count};
ghost use Rattle.map_items.specs.Fold.{MapAt, mark_boxes, no_points, step, points_in, thin_points};
ghost use Rattle.map_fold.specs.{Answers.{count, inside, nearest, is_within}, Nearest.{AreNearest}, Thinned.{IsThinned}};
ghost use Rattle.map_items.specs.declared.update.Update.TheVariants as Update;

use crate::thin::thin_one;
use crate::{Hit, Hits};
use map_items::{
    Choice, Counts, Cuboids, Item, Items, Label, MAX_FOUND, MAX_POINTS, MAX_WITHIN, NoMemory,
    Points, Settings, Tag, Update,
};
use point_geom::{Cuboid, MAX_EDGE, Point, dist2};
use std::alloc::Global;
use std::marker::Model;

/// A map that scans its items: slow, and plain enough to check the quick one by.
#[derive(Debug, Drop)]
pub struct PlainMap {
    items: Vec<Item>,
    next: u32,
}

impl Model for PlainMap {
    ghost use Rattle.map_items.specs.{Fold.{MapAt}, Contents.{AreContents}};

    ghost Value = { MapAt };

    ghost view = { λ m. record { items = m.items.items; next = m.next } };

    ghost invariant = { λ m. AreContents 0 m.next m.items.items };
}

impl PlainMap {
    /// Takes no memory.
    pub fn new(alloc: Global) -> Self
        ensures { result ≡ no_points }
    {
        PlainMap {
            items: Vec::new(alloc),
            next: 0,
        }
    }

    /// How many points were submitted, which is the number of the next one.
    pub fn next(&self) -> u32
        ensures value { result ≡ self.now.next }
        ensures contents { AreContents 0 self.now.next self.now.items }
    {
        self.next
    }

    /// How many items are live and how many suspended; none are dropped.
    pub fn counts(&self) -> Counts
        ensures { result ≡ totals self.now.items }
    {
        let items = self.items.as_slice();
        Counts {
            live: live_of(items, self.next),
            suspended: suspended_of(items, self.next),
            dropped: 0,
        }
    }

    /// The map after one more update. On `NoMemory` the map is dropped.
    pub fn apply(self, settings: &Settings, update: &Update) -> Result<PlainMap, NoMemory>
        requires { self.next + points_in update.now ≤ MAX_POINTS }
        ensures stepped { IfOk result (λ m. m ≡ step settings.now.voxel update.now self) }

        // Of one thinned point: what the result is, not how it is made.
        ensures thinned { (p : Place) → update.now ≡ Update.Thin (p ∷ [])
            → IfOk result (λ m. IsThinned settings.now.voxel self.items self.next p m.items) }
    {
        match update {
            Update::Add(points) => self.add(points),
            Update::Thin(points) => self.thin(settings.voxel(), points),
            Update::Delete(boxes) => Ok(self.marked(boxes, Tag::DELETE)),
            Update::Suspend(boxes) => Ok(self.marked(boxes, Tag::SUSPEND)),
            Update::Restore(boxes) => Ok(self.marked(boxes, Tag::RESTORE)),
            Update::Expire(number) => Ok(self.expired(*number)),
        }
    }

    fn add(self, points: &Points) -> Result<PlainMap, NoMemory>
        requires { self.next + points_in (Update.Add points.now) ≤ MAX_POINTS }
        ensures { IfOk result (λ m. m ≡ step 0 (Update.Add points.now) self) }
    {
        let PlainMap {
            mut items,
            mut next,
        } = self;
        for point in points.as_slice() {
            items.push(Item::live(next, *point))?;
            next += 1;
        }
        Ok(PlainMap { items, next })
    }

    fn thin(self, edge: u32, points: &Points) -> Result<PlainMap, NoMemory>
        requires edge_from { 1 ≤ edge }
        requires edge_to { edge ≤ MAX_EDGE }
        requires room { self.next + points_in (Update.Thin points.now) ≤ MAX_POINTS }
        ensures stepped { IfOk result (λ m. m ≡ thin_points edge points.now self) }
        ensures thinned { (p : Place) → points.now ≡ p ∷ [] → IfOk result (λ m. IsThinned edge self.items self.next p m.items) }
    {
        let PlainMap {
            mut items,
            mut next,
        } = self;
        for point in points.as_slice() {
            thin_one(&mut items, edge, next, point)?;
            next += 1;
        }
        Ok(PlainMap { items, next })
    }

    fn marked(self, boxes: &Cuboids, tag: Tag) -> PlainMap
        ensures { result ≡ mark_boxes tag boxes.now self }
    {
        let PlainMap { mut items, next } = self;
        for cuboid in boxes.as_slice() {
            mark_items(&mut items, &Choice::within(cuboid), tag);
        }
        PlainMap { items, next }
    }

    fn expired(self, number: u32) -> PlainMap
        ensures { result ≡ step 0 (Update.Expire number) self }
    {
        let PlainMap { mut items, next } = self;
        mark_items(&mut items, &Choice::below(number), Tag::DELETE);
        PlainMap { items, next }
    }

    /// The first k live points by distance from q, then by x, y, z, then by number; at most `within` millimetres away,
    /// where that is given. Costs k steps an item, and no memory for k up to 16.
    pub fn nearest(
        &self,
        alloc: Global,
        k: u32,
        q: &Point,
        within: Option<u64>,
    ) -> Result<Hits, NoMemory>
        requires k_from { 1 ≤ k }
        requires k_to { k ≤ MAX_FOUND }
        requires within_to { ForSome within (λ r. r ≤ MAX_WITHIN) }
        ensures found { IfOk result (λ hits. hits ≡ nearest self.now.items k q.now within) }

        // What that list is, not how it is made.
        ensures nearest { IfOk result (AreNearest self.now.items k q.now within) }
        ensures inline { k ≤ 16 → IsOk result }
    {
        nearest_of(alloc, self.items.as_slice(), k as usize, q, within)
    }

    /// The first `most` live items in the cuboid by number. Costs a step an item.
    pub fn in_cuboid(&self, alloc: Global, c: &Cuboid, most: u32) -> Result<Items, NoMemory>
        requires most_from { 1 ≤ most }
        requires most_to { most ≤ MAX_FOUND }
        ensures { IfOk result (λ items. items ≡ inside self.now.items c.now most) }
    {
        inside_of(alloc, self.items.as_slice(), c, most as usize)
    }

    /// How many live points are in the cuboid. Costs a step an item.
    pub fn count_in(&self, c: &Cuboid) -> u32
        ensures { result ≡ count self.now.items c.now }
    {
        inside_count(self.items.as_slice(), self.next, c)
    }

    /// All items, by number.
    pub fn items(&self, alloc: Global) -> Result<Items, NoMemory>
        ensures { IfOk result (λ items. items ≡ self.now.items) }
    {
        let items = Vec::from_slice(alloc, self.items.as_slice())?;
        Ok(Items::from(items))
    }
}

pub(crate) fn mark_items(items: &mut Vec<Item>, choice: &Choice, tag: Tag)
    ensures { items.new.items ≡ mark items.old.items (chosen_by choice.now) tag }
{
    relabel(items, choice, tag);
    items.retain(|i| i.label != Label::Dropped);
}

fn relabel(items: &mut Vec<Item>, choice: &Choice, tag: Tag)
    ensures { items.new.items ≡ map (marked_item (chosen_by choice.now) tag) items.old.items }
{
    for i in 0..items.len() {
        items[i] = items[i].marked(choice, tag);
    }
}

fn live_of(items: &[Item], next: u32) -> u32
    requires { AreContents 0 next items.now }
    ensures { result ≡ live_count items.now }
{
    items.iter().filter(|i| i.label == Label::Live).count() as u32
}

fn suspended_of(items: &[Item], next: u32) -> u32
    requires { AreContents 0 next items.now }
    ensures { result ≡ suspended_count items.now }
{
    items.iter().filter(|i| i.label == Label::Suspended).count() as u32
}

fn inside_count(items: &[Item], next: u32, c: &Cuboid) -> u32
    requires { AreContents 0 next items.now }
    ensures { result ≡ length (filter (λ i. is_live i.label && in_box c.now i) items.now) }
{
    items.iter().filter(|i| i.is_live_in(c)).count() as u32
}

fn nearest_of(
    alloc: Global,
    items: &[Item],
    k: usize,
    q: &Point,
    within: Option<u64>,
) -> Result<Hits, NoMemory>
    requires k_from { 1 ≤ k }
    requires within_to { ForSome within (λ r. r ≤ MAX_WITHIN) }
    ensures found { IfOk result (λ hits. hits ≡ nearest items.now k q.now within) }
    ensures inline { k ≤ 16 → IsOk result }
{
    let mut hits = Hits::new(alloc);
    let mut left = items.len();
    while left > 0 {
        left -= 1;
        let item = &items[left];
        if item.label == Label::Live {
            let hit = Hit {
                number: item.number,
                point: item.point,
                dist2: dist2(q, &item.point),
            };
            if is_within(within, &hit) {
                hits.put(k, hit)?;
            }
        }
    }
    Ok(hits)
}

fn is_within(within: Option<u64>, hit: &Hit) -> bool
    requires { ForSome within (λ r. r ≤ MAX_WITHIN) }
    ensures { result ≡ is_within within hit.now }
{
    match within {
        None => true,
        Some(r) => hit.dist2 <= r as u128 * r as u128,
    }
}

fn inside_of(alloc: Global, items: &[Item], c: &Cuboid, most: usize) -> Result<Items, NoMemory>
    ensures { IfOk result (λ found. found ≡ inside items.now c.now most) }
{
    let mut found = Items::new(alloc);
    for item in items {
        if found.len() == most {
            return Ok(found);
        }
        if item.is_live_in(c) {
            found.push(*item)?;
        }
    }
    Ok(found)
}
