//! Checksums of what was found and of what is held.
use kd_search::nearest;
use kd_tree::Tree;
use map_fold::{Groups, HitLists, Hits, Items, NoMemory, Points};
use point_geom::{Point, dist2};
use std::alloc::Global;

/// The checksum after the 5 nearest points to each of these places.
pub fn with_answers(
    sum: u64,
    alloc: Global,
    tree: &Tree,
    places: &Points,
) -> Result<u64, NoMemory> {
    let mut sum = sum;
    for place in places.as_slice() {
        let hits = nearest(alloc, tree, 5, place, None)?;
        sum = with_hits(sum, &hits);
    }
    Ok(sum)
}

/// The checksum after the hits of each of these lists.
pub fn with_lists(sum: u64, lists: &HitLists) -> u64 {
    let mut sum = sum;
    for hits in lists.as_slice() {
        sum = with_hits(sum, hits);
    }
    sum
}

/// The checksum after these hits.
fn with_hits(sum: u64, hits: &Hits) -> u64 {
    let mut sum = sum;
    for hit in hits.as_slice() {
        sum = with(sum, hit.number, hit.dist2);
    }
    sum
}

/// The checksum after these clusters.
pub fn with_groups(sum: u64, groups: &Groups) -> u64 {
    let mut sum = sum;
    for group in groups.as_slice() {
        sum = with(sum, group.least, u128::from(group.size));
    }
    sum
}

/// The checksum after the numbers of these items.
pub fn with_numbers(sum: u64, items: &Items) -> u64 {
    let mut sum = sum;
    for item in items.as_slice() {
        sum = with(sum, item.number, 0);
    }
    sum
}

/// The checksum after all items of the tree.
pub fn with_items(sum: u64, alloc: Global, tree: &Tree) -> Result<u64, NoMemory> {
    let mut sum = sum;
    for item in tree.flatten(alloc)?.as_slice() {
        sum = with(sum, item.number, dist2(&Point::default(), &item.point));
    }
    Ok(sum)
}

/// The checksum after a number and a squared distance.
pub fn with(sum: u64, number: u32, dist2: u128) -> u64 {
    let dist2 = u64::try_from(dist2).unwrap_or(0);
    sum.wrapping_mul(31)
        .wrapping_add(number as u64)
        .wrapping_add(dist2)
}
