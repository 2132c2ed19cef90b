//! Scans put at once beside watched subtrees, and the same points one by one.
ghost use Rattle.std.specs.Prelude.{◌≡◌, ◌+◌, ◌<◌, ◌≤◌, max, true, length};
ghost use Rattle.kd_tree.specs.{Apart.{AreAllApart, AreApart, IsClear}, Shape.{levels, nodes}, Counter.{IsBlankOf}};
ghost use Rattle.kd_update.specs.{Crossing.{HaveRoomAtOnce}, declared.limits.TheConstants.{MAX_PASS_LEVELS}};
ghost use Rattle.kd_mark.specs.{Several.{AreLargeAt}, Watches.{paths_in}};

use crate::tests::assertions::{found, holds, made, same};
use crate::tests::draw::Draw;
use crate::tests::lists::holds_all;
use crate::tests::numbered::Numbered;
use crate::tests::watch::{all_became, drawn_map, grandchildren, held_at};
use crate::tests::watching::{Watching, are_large};
use kd_tree::{MAX_NODES, Path, Scratch, Side, Steps};
use kd_update::{MAX_PASS_LEVELS, Watch, live_items, put_all_watched};
use map_fold::MAX_POINTS;
use point_geom::Point;
use std::alloc::Global;
use std::marker::Brand;
use std::process::Abort;
use std::sync::ledger::{Blank, Ledger};

fn put_scan_beside<L: Ledger>(
    rt: &impl Abort,
    alloc: Global,
    at: Watching,
    points: &[Point],
    blank: Blank,
) -> Watching
    requires blank { IsBlankOf L.name L.parts blank }
    requires next { at.map.next + length points.now ≤ MAX_POINTS }
    requires small { length points.now < max 2 at.map.large }
    requires short { length points.now < MAX_POINTS }
    requires low { levels at.map.tree ≤ MAX_PASS_LEVELS }
    requires few { nodes at.map.tree + length points.now ≤ MAX_NODES }
    requires there { AreLargeAt at.map.large (paths_in at.watches) at.map.tree }
    requires apart { AreAllApart (paths_in at.watches) }
    requires room { HaveRoomAtOnce (length points.now) at.watches }
{
    let mut steps: Steps<L> = Steps::new(blank);
    let mut scratch = Scratch::new(alloc);
    let Watching { map, mut watches } = at;
    let (large, next) = (map.large, map.next);
    let _size = map.tree.size();
    let Ok(items) = live_items(alloc, next, points) else {
        panic!(rt; "no memory");
    };
    let Ok(tree) = put_all_watched(
        alloc,
        map.tree,
        large,
        items.as_slice(),
        &mut watches,
        &mut scratch,
        &mut steps,
    ) else {
        panic!(rt; "no memory");
    };
    let next = next + points.len() as u32;
    let map = Numbered { tree, next, large };
    Watching { map, watches }
}

// Whether neither begins with the other.
fn are_apart(one: &[Side], other: &[Side]) -> bool
    ensures { result ≡ true → AreApart one.now other.now }
{
    let Some((side, one)) = one.split_first() else {
        return false;
    };
    let Some((beside, other)) = other.split_first() else {
        return false;
    };
    match side {
        Side::Left => match beside {
            Side::Left => are_apart(one, other),
            Side::Right => true,
        },
        Side::Right => match beside {
            Side::Left => true,
            Side::Right => are_apart(one, other),
        },
    }
}

fn is_clear(path: &Path, watches: &[Watch]) -> bool
    ensures { result ≡ true → IsClear path.now (paths_in watches.now) }
{
    match watches.split_first() {
        None => true,
        Some((watch, rest)) => {
            are_apart(path.as_slice(), watch.path.as_slice()) && is_clear(path, rest)
        }
    }
}

fn are_all_apart(watches: &[Watch]) -> bool
    ensures { result ≡ true → AreAllApart (paths_in watches.now) }
{
    match watches.split_first() {
        None => true,
        Some((watch, rest)) => is_clear(&watch.path, rest) && are_all_apart(rest),
    }
}

fn have_room_at_once(count: usize, watches: &[Watch]) -> bool
    requires { count ≤ MAX_POINTS }
    ensures { result ≡ true → HaveRoomAtOnce count watches.now }
{
    match watches.split_first() {
        None => true,
        Some((watch, rest)) => {
            watch.log.room() >= count as u32 + 2 && have_room_at_once(count, rest)
        }
    }
}

impl Watching {
    // A map of drawn points, from this size on of whose subtrees none is rebuilt in what follows.
    fn started(rt: &impl Abort, alloc: Global, paths: &[Path], large: u32) -> Watching {
        let mut map = drawn_map(rt, alloc, &mut Draw { state: 7 });
        map.large = large;
        Watching::new(rt, alloc, map, paths)
    }

    fn put_singly(self, rt: &impl Abort, alloc: Global, points: &[Point]) -> Watching {
        let mut at = self;
        for point in points {
            at = at.put(rt, alloc, *point);
        }
        at
    }

    fn put_at_once(self, rt: &impl Abort, alloc: Global, points: &[Point]) -> Watching {
        let many = points.len();
        let watches = self.watches.as_slice();
        assert!(rt; many < self.map.large.max(2) as usize && many < 4_194_304);
        assert!(rt; self.map.next < 4_194_304 && self.map.tree.size() < 4_194_304);
        assert!(rt; many <= (4_194_304 - self.map.next) as usize);
        assert!(rt; many <= (4_194_304 - self.map.tree.size()) as usize);
        assert!(rt;
            self.map.tree.levels() <= MAX_PASS_LEVELS
                && are_large(&self.map.tree, self.map.large, watches)
        );
        assert!(rt; are_all_apart(watches) && have_room_at_once(many, watches));
        put_scan_beside::<Brand>(rt, alloc, self, points, Blank::new(1))
    }
}

// The same scans beside the same subtrees, point by point and at once, with an action before each.
#[derive(Drop)]
struct Both {
    singly: Watching,
    scanned: Watching,
}

impl Both {
    fn changed(self, rt: &impl Abort, alloc: Global, draw: &mut Draw, count: u32) -> Both {
        let Both { singly, scanned } = self;
        let action = draw.action(rt);
        let singly = singly.marked(rt, alloc, &action);
        let scanned = scanned.marked(rt, alloc, &action);
        let points = draw.points(rt, alloc, count);
        let singly = singly.put_singly(rt, alloc, points.as_slice());
        let scanned = scanned.put_at_once(rt, alloc, points.as_slice());
        Both { singly, scanned }
    }

    fn hold_the_same(&self, rt: &impl Abort, alloc: Global) {
        let singly = made(rt, self.singly.map.tree.flatten(alloc));
        holds_all(rt, alloc, &self.scanned.map.tree, singly.as_slice());
    }

    // As many operations are logged at each in both.
    fn have_logged(&self, rt: &impl Abort) {
        let mut others = self.singly.watches.as_slice().iter();
        for watch in self.scanned.watches.as_slice() {
            let other = found(rt, others.next());
            same(rt, "operations", watch.log.len(), other.log.len());
        }
    }
}

// What is logged makes of what each was what it holds.
fn scans_beside(rt: &impl Abort, alloc: Global, paths: &[Path], large: u32, count: u32) {
    let singly = Watching::started(rt, alloc, paths, large);
    let scanned = Watching::started(rt, alloc, paths, large);
    let olds = held_at(rt, alloc, &scanned.map.tree, paths);
    let both = scanned_often(rt, alloc, Both { singly, scanned }, count);
    both.have_logged(rt);
    all_became(rt, alloc, &both.scanned, olds);
}

fn scanned_often(rt: &impl Abort, alloc: Global, both: Both, count: u32) -> Both {
    let mut both = both;
    let mut draw = Draw { state: 11 };
    for _ in 0..5 {
        both = both.changed(rt, alloc, &mut draw, count);
        both.hold_the_same(rt, alloc);
    }
    both
}

#[test]
fn a_scan_beside_watched_subtrees_does_what_its_points_do(rt: HostRuntime) {
    let alloc = rt.alloc();
    let [first, second, ..] = grandchildren();
    let left = Path::root().down(Side::Left);
    for (large, count) in [(16, 12), (40, 39)] {
        scans_beside(&rt, alloc, &[left], large, count);
        scans_beside(&rt, alloc, &[second, first], large, count);
        scans_beside(&rt, alloc, &grandchildren(), large, count);
    }
}
