ghost use Rattle.std.specs.Prelude.{◌≡◌, ℕ, ◌+◌, ◌<◌, ◌≤◌, max, [], ◌∷◌, ◌++◌, length, IfOk};
ghost use Rattle.kd_tree.specs.{Shape.{levels, nodes, numbers}, Contents.{contents}};
ghost use Rattle.kd_mark.specs.{Refresh.{AreAmong}, Update.{IsBalancedBelow}};
ghost use Rattle.kd_update.specs.Scan.{IsPut, MayJoin, numbers_in, put_each};

use crate::points::insert::put_below;
use crate::scans::one_pass::put_at_once;
use crate::{MAX_PASS_LEVELS, with_room};
use kd_mark::Unwatched;
use kd_tree::{Block, MAX_LEVELS, MAX_NODES, Scratch, Steps, Tree};
use map_items::{Item, NoMemory};
use point_geom::Axis;
use std::alloc::Global;
use std::sync::ledger::Ledger;

/// The tree with these items put: each is live, and its number isn't held.
///
/// They are put in passes of fewer than `large`. Near the bounds of a tree they are put one by one, and a full one,
/// which has to be rebuilt anyway, is built with all remaining items: so a scan rebuilds it at most once, however its
/// points lie. The contents are those of `put`, done in turn; where nodes are isn't. New nodes are made in the memory
/// of the scratch, as far as that goes. On `NoMemory` the tree is dropped.
pub fn put_all<L: Ledger>(
    alloc: Global,
    tree: Tree,
    large: u32,
    items: &[Item],
    scratch: &mut Scratch,
    steps: &mut Steps<L>,
) -> Result<Tree, NoMemory>
    requires fit { MayJoin (contents tree) items.now }
    ensures contents { IfOk result (λ t. contents t ≡ put_each (contents tree) items.now) }
    ensures numbers { IfOk result (λ t. AreAmong (numbers t) (numbers_in items.now ++ numbers tree)) }
    ensures balance { IsBalancedBelow large tree → IfOk result (λ t. IsBalancedBelow large t) }
    ensures nodes { IfOk result (λ t. nodes t ≤ nodes tree + length items.now) }
{
    put_in_pieces(alloc, tree, large, items, scratch, steps)
}

fn put_in_pieces<L: Ledger>(
    alloc: Global,
    tree: Tree,
    large: u32,
    items: &[Item],
    scratch: &mut Scratch,
    steps: &mut Steps<L>,
) -> Result<Tree, NoMemory>
    requires { MayJoin (contents tree) items.now }
    ensures { IfOk result (λ t. IsPut large tree items.now t) }
{
    let mut tree = tree;
    let mut rest = items;
    while !rest.is_empty() {
        if tree.levels() >= MAX_LEVELS || tree.size() >= MAX_NODES {
            return built_with_rest(alloc, tree, rest, scratch, steps);
        }
        let size = tree.size() as usize;
        if 1 <= size && size <= rest.len() {
            return built_with_rest(alloc, tree, rest, scratch, steps);
        }
        let most = most_at_once(&tree, large);
        let (piece, more) = rest.split_at(most.min(rest.len()));
        tree = put_piece(alloc, tree, large, piece, scratch, steps)?;
        rest = more;
    }
    Ok(tree)
}

fn most_at_once(tree: &Tree, large: u32) -> usize
    ensures some { 1 ≤ result }
    ensures small { result < max 2 large }
    ensures short { result < MAX_NODES }
{
    if tree.levels() > MAX_PASS_LEVELS {
        return 1;
    }
    large.clamp(2, MAX_NODES) as usize - 1
}

// For a full tree: its remaining items and these, built by medians.
fn built_with_rest<L: Ledger>(
    alloc: Global,
    tree: Tree,
    items: &[Item],
    scratch: &mut Scratch,
    steps: &mut Steps<L>,
) -> Result<Tree, NoMemory>
    requires fit { MayJoin (contents tree) items.now }
    requires some { 1 ≤ nodes tree + levels tree }
    ensures { (large : ℕ) → IfOk result (λ t. IsPut large tree items.now t) }
{
    tree.rebuilt_with(alloc, items, scratch, steps)
}

// In one pass if there is room.
fn put_piece<L: Ledger>(
    alloc: Global,
    tree: Tree,
    large: u32,
    items: &[Item],
    scratch: &mut Scratch,
    steps: &mut Steps<L>,
) -> Result<Tree, NoMemory>
    requires fit { MayJoin (contents tree) items.now }
    requires small { length items.now < max 2 large }
    requires short { length items.now < MAX_NODES }
    ensures { IfOk result (λ t. IsPut large tree items.now t) }
{
    let _size = tree.size();
    if tree.levels() > MAX_PASS_LEVELS || tree.size() + items.len() as u32 > MAX_NODES {
        return put_singly(alloc, tree, large, items, steps);
    }
    let mut items = Vec::from_slice(alloc, items)?;
    let items = items.as_mut_slice();
    put_at_once(alloc, tree, large, items, Axis::X, scratch, steps)
}

fn put_singly<L: Ledger>(
    alloc: Global,
    tree: Tree,
    large: u32,
    items: &[Item],
    steps: &mut Steps<L>,
) -> Result<Tree, NoMemory>
    requires { MayJoin (contents tree) items.now }
    ensures { IfOk result (λ t. IsPut large tree items.now t) }
{
    let mut tree = tree;
    for item in items {
        tree = put_one(alloc, tree, large, item, steps)?;
    }
    Ok(tree)
}

fn put_one<L: Ledger>(
    alloc: Global,
    tree: Tree,
    large: u32,
    item: &Item,
    steps: &mut Steps<L>,
) -> Result<Tree, NoMemory>
    requires { MayJoin (contents tree) (item.now ∷ []) }
    ensures { IfOk result (λ t. IsPut large tree (item.now ∷ []) t) }
{
    let _size = tree.size();
    let tree = with_room(alloc, tree, steps)?;
    let block = Block::none();
    put_below(alloc, tree, large, *item, Axis::X, &Unwatched, block, steps)
}
