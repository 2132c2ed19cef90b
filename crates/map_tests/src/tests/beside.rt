//! A version beside the plain map.
use crate::tests::assertions::{holds, made, same};
use crate::tests::draws::Draws;
use kd_search::{count_in, in_cuboid, nearest};
use map_fold::{PlainMap, Settings, Update};
use point_geom::{Cuboid, Point};
use rebuild_core::Version;
use std::alloc::Global;
use std::mem;
use std::process::Abort;

// Both hold the same, and answer drawn searches so.
pub fn compare(
    rt: &impl Abort,
    alloc: Global,
    version: &Version,
    plain: &PlainMap,
    draws: &mut Draws,
) {
    same(rt, "the next number", version.next(), plain.next());
    holds(rt, "the counts", version.counts() == plain.counts());
    let query = draws.point(rt);
    let cuboid = draws.cuboid(rt);
    let both = Both { version, plain };
    both.hold_the_same(rt, alloc);
    both.find_the_same(rt, alloc, &query);
    both.show_the_same(rt, alloc, &cuboid);
    let count = count_in(version.tree(), &cuboid);
    same(rt, "the count", count, plain.count_in(&cuboid));
}

#[derive(Drop)]
struct Both<'a> {
    version: &'a Version,
    plain: &'a PlainMap,
}

impl Both<'_> {
    fn hold_the_same(&self, rt: &impl Abort, alloc: Global) {
        let items = made(rt, self.version.tree().flatten(alloc));
        let want = made(rt, self.plain.items(alloc));
        let are_same = items.as_slice() == want.as_slice();
        holds(rt, "what both hold", are_same);
    }

    fn find_the_same(&self, rt: &impl Abort, alloc: Global, query: &Point) {
        let found = made(rt, nearest(alloc, self.version.tree(), 5, query, Some(6)));
        let want = made(rt, self.plain.nearest(alloc, 5, query, Some(6)));
        let are_same = found.as_slice() == want.as_slice();
        holds(rt, "the nearest", are_same);
    }

    fn show_the_same(&self, rt: &impl Abort, alloc: Global, cuboid: &Cuboid) {
        let found = made(rt, in_cuboid(alloc, self.version.tree(), cuboid, 7));
        let want = made(rt, self.plain.in_cuboid(alloc, cuboid, 7));
        let are_same = found.as_slice() == want.as_slice();
        holds(rt, "what the box shows", are_same);
    }
}

// Does to the plain map what the update says.
pub fn updated_plainly(
    rt: &impl Abort,
    alloc: Global,
    settings: &Settings,
    plain: &mut PlainMap,
    update: &Update,
) {
    assert!(rt; update.points() <= 3_000);
    assert!(rt; plain.next() <= 4_000_000);
    let before = mem::replace(plain, PlainMap::new(alloc));
    *plain = made(rt, before.apply(settings, update));
}
