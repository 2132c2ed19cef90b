ghost use Rattle.std.specs.Prelude.{◌≡◌, ◌+◌, ◌≤◌, ◌++◌, length, IfOk};
ghost use Rattle.map_items.specs.{Contents.{AreContents}, Fold.{add_points}};
ghost use Rattle.kd_tree.specs.{Shape.{nodes, numbers}, Contents.{contents}};
ghost use Rattle.kd_mark.specs.{Refresh.{AreAmong}, Update.{IsBalancedBelow}};
ghost use Rattle.kd_update.specs.Scan.{live_from, numbers_in};

use crate::put_all;
use kd_tree::{Scratch, Steps, Tree};
use map_items::{Item, MAX_POINTS, NoMemory};
use point_geom::Point;
use std::alloc::Global;
use std::sync::ledger::Ledger;

/// `put_all` of these points, live, under the numbers from `first` on. On `NoMemory` the tree is dropped.
pub fn put_points<L: Ledger>(
    alloc: Global,
    tree: Tree,
    large: u32,
    first: u32,
    points: &[Point],
    scratch: &mut Scratch,
    steps: &mut Steps<L>,
) -> Result<Tree, NoMemory>
    requires held { AreContents 0 first (contents tree) }
    requires few { first + length points.now ≤ MAX_POINTS }
    ensures added { IfOk result (λ t. record { items = contents t; next = first + length points.now } ≡ add_points points.now (record { items = contents tree; next = first })) }
    ensures numbers { IfOk result (λ t. AreAmong (numbers t) (numbers_in (live_from first points.now) ++ numbers tree)) }
    ensures balance { IsBalancedBelow large tree → IfOk result (λ t. IsBalancedBelow large t) }
    ensures nodes { IfOk result (λ t. nodes t ≤ nodes tree + length points.now) }
{
    let items = live_items(alloc, first, points)?;
    put_all(alloc, tree, large, items.as_slice(), scratch, steps)
}

/// Live items of these points, numbered from `first` on.
pub fn live_items(alloc: Global, first: u32, points: &[Point]) -> Result<Vec<Item>, NoMemory>
    requires few { first + length points.now ≤ MAX_POINTS }
    ensures items { IfOk result (λ v. v.items ≡ live_from first points.now) }
{
    let mut items = Vec::with_capacity(alloc, points.len())?;
    let mut number = first;
    for point in points {
        items.push(Item::live(number, *point))?;
        number += 1;
    }
    Ok(items)
}
