//! A map with watched subtrees, whose changes ask first for what they require.
ghost use Rattle.std.specs.Prelude.{◌≡◌, ◌<◌, true};
ghost use Rattle.kd_tree.specs.{Shape.{levels, nodes}, Counter.{IsBlankOf}};
ghost use Rattle.kd_mark.specs.{Several.{AreLargeAt}, Watch.{IsLargeAt}, Watches.{HaveRoom, paths_in}};

use crate::tests::assertions::made;
use crate::tests::draw::Action;
use crate::tests::numbered::Numbered;
use kd_tree::{MAX_LEVELS, MAX_NODES, Path, Steps, Tree};
use kd_update::{Watch, Watches, marked_watched, put_watched};
use map_fold::MAX_POINTS;
use op_logger::OpLog;
use point_geom::Point;
use std::alloc::Global;
use std::marker::Brand;
use std::process::Abort;
use std::sync::ledger::{Blank, Ledger};

// A map, and what is watched in it.
#[derive(Drop)]
pub struct Watching {
    pub map: Numbered,
    pub watches: Watches,
}

impl Watching {
    // The map with watches at these paths, where nothing is logged.
    pub fn new(rt: &impl Abort, alloc: Global, map: Numbered, paths: &[Path]) -> Watching {
        Watching {
            map,
            watches: watches_at(rt, alloc, paths),
        }
    }

    pub fn put(self, rt: &impl Abort, alloc: Global, point: Point) -> Watching {
        let watches = self.watches.as_slice();
        assert!(rt; self.map.next < 4_194_304 && self.map.tree.size() < 4_194_304);
        assert!(rt; self.map.tree.levels() < 512);
        assert!(rt; are_large(&self.map.tree, self.map.large, watches) && have_room(watches));
        put_beside::<Brand>(rt, alloc, self, point, Blank::new(1))
    }

    pub fn marked(self, rt: &impl Abort, alloc: Global, action: &Action) -> Watching {
        let watches = self.watches.as_slice();
        assert!(rt; are_large(&self.map.tree, self.map.large, watches) && have_room(watches));
        mark_beside::<Brand>(rt, alloc, self, action, Blank::new(1))
    }
}

fn watches_at(rt: &impl Abort, alloc: Global, paths: &[Path]) -> Watches {
    let mut watches = Watches::new(alloc);
    for path in paths {
        assert!(rt; watches.len() < 4);
        let log = OpLog::new(alloc);
        made(rt, watches.push(Watch { path: *path, log }));
    }
    watches
}

fn put_beside<L: Ledger>(
    rt: &impl Abort,
    alloc: Global,
    at: Watching,
    point: Point,
    blank: Blank,
) -> Watching
    requires blank { IsBlankOf L.name L.parts blank }
    requires next { at.map.next < MAX_POINTS }
    requires low { levels at.map.tree < MAX_LEVELS }
    requires few { nodes at.map.tree < MAX_NODES }
    requires there { AreLargeAt at.map.large (paths_in at.watches) at.map.tree }
    requires room { HaveRoom at.watches }
{
    let steps: &mut Steps<L> = &mut Steps::new(blank);
    let Watching { map, mut watches } = at;
    let (large, next) = (map.large, map.next);
    let Ok(tree) = put_watched(alloc, map.tree, large, next, point, &mut watches, steps) else {
        panic!(rt; "no memory");
    };
    let next = next + 1;
    let map = Numbered { tree, next, large };
    Watching { map, watches }
}

fn mark_beside<L: Ledger>(
    rt: &impl Abort,
    alloc: Global,
    at: Watching,
    action: &Action,
    blank: Blank,
) -> Watching
    requires blank { IsBlankOf L.name L.parts blank }
    requires there { AreLargeAt at.map.large (paths_in at.watches) at.map.tree }
    requires room { HaveRoom at.watches }
{
    let steps: &mut Steps<L> = &mut Steps::new(blank);
    let Watching { map, mut watches } = at;
    let Action { choice, tag } = action;
    let (large, next) = (map.large, map.next);
    let done = marked_watched(alloc, map.tree, large, choice, *tag, &mut watches, steps);
    let Ok(tree) = done else {
        panic!(rt; "no memory");
    };
    let map = Numbered { tree, next, large };
    Watching { map, watches }
}

pub fn is_large(tree: &Tree, large: u32, path: &Path) -> bool
    ensures { result ≡ true → IsLargeAt large path.now tree.now }
{
    match tree.subtree_at(path) {
        None => false,
        Some(child) => large <= child.size(),
    }
}

pub fn are_large(tree: &Tree, large: u32, watches: &[Watch]) -> bool
    ensures { result ≡ true → AreLargeAt large (paths_in watches.now) tree.now }
{
    match watches.split_first() {
        None => true,
        Some((watch, rest)) => is_large(tree, large, &watch.path) && are_large(tree, large, rest),
    }
}

fn have_room(watches: &[Watch]) -> bool
    ensures { result ≡ true → HaveRoom watches.now }
{
    match watches.split_first() {
        None => true,
        Some((watch, rest)) => watch.log.room() >= 2 && have_room(rest),
    }
}
