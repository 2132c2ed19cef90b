//! Trees whose points are numbered in turn.
ghost use Rattle.std.specs.Prelude.{◌<◌, Contains, ℕ};
ghost use Rattle.kd_tree.specs.{Shape.{numbers}, Counter.{IsBlankOf}};

use crate::tests::assertions::made;
use kd_tree::{Steps, Tree};
use kd_update::{put, settled, with_room};
use map_fold::{MAX_POINTS, NoMemory};
use point_geom::{Corner, Cuboid, CuboidError, Point};
use std::alloc::Global;
use std::marker::Brand;
use std::process::Abort;
use std::sync::ledger::{Blank, Ledger};

// A tree whose numbers lie below the next one. Updates rebuild none of its subtrees from `large` nodes on.
#[derive(Drop)]
pub struct Numbered {
    pub tree: Tree,
    pub next: u32,
    pub large: u32,
    pub ghost below: { (n : ℕ) → Contains (numbers tree) n → n < next },
}

// The map after a change.
pub type Changed = Result<Numbered, NoMemory>;

impl Numbered {
    pub fn new(large: u32) -> Numbered {
        Numbered {
            tree: Tree::empty(),
            next: 0,
            large,
        }
    }

    pub fn put(self, rt: &impl Abort, alloc: Global, point: Point) -> Numbered {
        assert!(rt; self.next < 4_194_304);
        made(rt, put_next::<Brand>(alloc, self, point, Blank::new(1)))
    }

    pub fn settled(self, alloc: Global) -> Changed {
        let tree = settled(alloc, self.tree)?;
        Ok(Numbered {
            tree,
            next: self.next,
            large: self.large,
        })
    }

    // Puts the points (x, 0, 0) for x from `from` to `to` less one, one by one.
    pub fn risen(self, rt: &impl Abort, alloc: Global, from: i64, to: i64) -> Numbered {
        let mut map = self;
        for x in from..to {
            let point = made(rt, Point::new(x, 0, 0));
            map = map.put(rt, alloc, point);
        }
        map
    }
}

fn put_next<L: Ledger>(alloc: Global, map: Numbered, point: Point, blank: Blank) -> Changed
    requires blank { IsBlankOf L.name L.parts blank }
    requires next { map.next < MAX_POINTS }
{
    let mut steps: Steps<L> = Steps::new(blank);
    put_on(alloc, map, point, &mut steps)
}

fn put_on<L: Ledger>(alloc: Global, map: Numbered, point: Point, steps: &mut Steps<L>) -> Changed
    requires next { map.next < MAX_POINTS }
{
    let _size = map.tree.size();
    let tree = with_room(alloc, map.tree, steps)?;
    let tree = put(alloc, tree, map.large, map.next, point, steps)?;
    Ok(Numbered {
        tree,
        next: map.next + 1,
        large: map.large,
    })
}

pub fn between(lo: (i64, i64, i64), hi: (i64, i64, i64)) -> Result<Cuboid, CuboidError> {
    let lo = Corner {
        x: lo.0,
        y: lo.1,
        z: lo.2,
    };
    let hi = Corner {
        x: hi.0,
        y: hi.1,
        z: hi.2,
    };
    Cuboid::new(lo, hi)
}
