//! Trees of points, which have the numbers from 0 on.
ghost use Rattle.std.specs.Prelude.{◌≡◌, ◌≤◌, length, false, IfOk};
ghost use Rattle.node_labels.specs.Labels.{is_dropped};
ghost use Rattle.kd_tree.specs.{Contents.{AreDistinct, AreKept}, Counter.{IsBlankOf}};

use crate::tests::assertions::made;
use kd_tree::{MAX_NODES, Steps, Tree};
use map_fold::{Item, Label, NoMemory, Tag};
use point_geom::Point;
use std::alloc::Global;
use std::marker::Brand;
use std::process::Abort;
use std::sync::ledger::{Blank, Ledger};

// A tree of these points with this action done to all. Before it, every third is suspended.
pub fn grown(rt: &impl Abort, alloc: Global, points: &[Point], tag: Tag) -> Tree {
    assert!(rt; points.len() <= 100_000);
    let items = made(rt, items_at(alloc, points));
    made(rt, built::<Brand>(alloc, &items, tag, Blank::new(1)))
}

// All of them live.
pub fn restored(rt: &impl Abort, alloc: Global, points: &[Point]) -> Tree {
    grown(rt, alloc, points, Tag::RESTORE)
}

fn items_at(alloc: Global, points: &[Point]) -> Result<Vec<Item>, NoMemory>
    requires { length points.now ≤ 100000 }
    ensures kept { IfOk result (λ v. AreKept v.items) }
    ensures distinct { IfOk result (λ v. AreDistinct v.items) }
    ensures few { IfOk result (λ v. length v.items ≤ MAX_NODES) }
{
    let mut items = Vec::new(alloc);
    let mut number = 0;
    for point in points {
        items.push(Item {
            number,
            point: *point,
            label: label_of(number),
        })?;
        number += 1;
    }
    Ok(items)
}

fn label_of(number: u32) -> Label
    ensures { is_dropped result ≡ false }
{
    if number % 3 == 2 {
        Label::Suspended
    } else {
        Label::Live
    }
}

fn built<L: Ledger>(alloc: Global, items: &[Item], tag: Tag, blank: Blank) -> Result<Tree, NoMemory>
    requires kept { AreKept items.now }
    requires distinct { AreDistinct items.now }
    requires few { length items.now ≤ MAX_NODES }
    requires blank { IsBlankOf L.name L.parts blank }
{
    let mut steps: Steps<L> = Steps::new(blank);
    Tree::build(alloc, items, &mut steps)?.tagged(alloc, tag, &mut steps)
}
