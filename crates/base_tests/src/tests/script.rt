//! Operations for tests, which fit an empty tree.
ghost use Rattle.std.specs.Prelude.{◌≡◌, []};
ghost use Rattle.map_items.specs.Ops.{Fit};

use crate::tests::assertions::made;
use map_fold::{Choice, NoMemory, Op, Tag};
use point_geom::Point;
use std::alloc::Global;
use std::marker::Model;
use std::process::Abort;

// Operations, each of whose points has the next number.
#[derive(Drop)]
pub struct Script {
    ops: Vec<Op>,
    next: u32,
}

impl Model for Script {
    ghost use Rattle.std.specs.Prelude.{List, []};
    ghost use Rattle.map_items.specs.{declared.op.Op.{Op}, Contents.{AreContents}, Ops.{Fit, replay}};

    ghost Value = { List Op };

    ghost view = { λ s. s.ops.items };

    ghost invariant = { λ s. Fit [] s.ops.items × AreContents 0 s.next (replay [] s.ops.items) };
}

impl Script {
    pub fn new(alloc: Global) -> Script {
        Script {
            ops: Vec::new(alloc),
            next: 0,
        }
    }

    pub fn as_slice(&self) -> &[Op]
        ensures value { result.now ≡ self.now }
        ensures fit { Fit [] self.now }
    {
        self.ops.as_slice()
    }

    pub fn put(self, rt: &impl Abort, point: Point) -> Result<Script, NoMemory> {
        let Script { mut ops, next } = self;
        assert!(rt; next < 4_194_304);
        ops.push(Op::Put {
            number: next,
            point,
        })?;
        Ok(Script {
            ops,
            next: next + 1,
        })
    }

    pub fn mark(self, choice: Choice, tag: Tag) -> Result<Script, NoMemory> {
        let Script { mut ops, next } = self;
        ops.push(Op::Mark { choice, tag })?;
        Ok(Script { ops, next })
    }

    // Puts the points (x, 0, 0) for x from `from` to `to` less one, one by one.
    pub fn risen(self, rt: &impl Abort, from: i64, to: i64) -> Script {
        let mut script = self;
        for x in from..to {
            let point = made(rt, Point::new(x, 0, 0));
            script = made(rt, script.put(rt, point));
        }
        script
    }
}
