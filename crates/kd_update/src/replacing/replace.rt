//! Subtrees that others stand in for. Nothing here looks into the tree that is put in.
ghost use Rattle.std.specs.Prelude.{◌≡◌, ◌+◌, ◌≤◌, ◌∷◌, ◌++◌, ◌↔◌, [], true, false, length, None, Some, IfOk, IfSome, IsNone};
ghost use Rattle.kd_tree.specs.{Shape.{levels, nodes, numbers}, Contents.{contents}, Criteria.{AllMeetCriteria}, Parts.{at, replaced_at}, Apart.{IsClear}};
ghost use Rattle.kd_mark.specs.{Refresh.{AreAmong}, Update.{IsBalancedBelow}, Several.{AreLargeAt, AreSameAt, IsBalancedClear}};
ghost use Rattle.kd_update.specs.Replace.{HasRoomAt, RebuildsNoneAbove, IsNoLarger, IsReplaced, StandsFor};

use crate::Replaced;
use kd_mark::{rebuilt, rebuilt_if_due};
use kd_tree::{MAX_LEVELS, MAX_NODES, Path, Side, Steps, Tree};
use map_items::NoMemory;
use std::alloc::Global;
use std::sync::ledger::Ledger;

/// The tree with another at the path, which holds what the subtree there holds by itself, while the subtrees at other paths
/// are watched.
///
/// Nothing is pushed down. On the way out each node above the path that has from 10 nodes on, and fewer than `large`, is
/// rebuilt where it breaches a criterion. Where there would be more than 512 levels or 4,194,304 nodes, the whole tree is
/// rebuilt by medians. Where memory runs out, both trees are dropped. No run reads the other paths: a clause says what
/// stays there.
pub fn replaced<L: Ledger>(
    alloc: Global,
    tree: Tree,
    large: u32,
    path: &Path,
    with: Tree,
    others: &[Path],
    steps: &mut Steps<L>,
) -> Result<Replaced, NoMemory>
    requires stands { StandsFor path.now tree with }
    requires there { AreLargeAt large others.now tree }
    requires apart { IsClear path.now others.now }
    ensures contents { IfOk result (λ r. contents r.tree ≡ contents tree) }
    ensures numbers { IfOk result (λ r. AreAmong (numbers r.tree) (numbers with ++ numbers tree)) }
    ensures size { IfOk result (λ r. IsNoLarger (replaced_at path.now with tree) r.tree) }
    ensures balance { IsBalancedClear large (path.now ∷ others.now) tree → IsBalancedBelow large with
        → IfOk result (λ r. IsBalancedClear large others.now r.tree) }
    // Rebuilt exactly where the plain replacement has no room.
    ensures anew { IfOk result (λ r. (r.anew ≡ false) ↔ HasRoomAt path.now with tree) }
    ensures criteria { IfOk result (λ r. r.anew ≡ true → AllMeetCriteria 10 r.tree) }
    ensures medians { IfOk result (λ r. r.anew ≡ true → nodes r.tree ≡ length (contents tree)) }
    // Otherwise the same subtrees stand at the other paths.
    ensures others { IfOk result (λ r. r.anew ≡ false → AreSameAt others.now r.tree tree) }
    ensures there { IfOk result (λ r. r.anew ≡ false → AreLargeAt large others.now r.tree) }
    // Where there is room, and no node above the path is to be rebuilt, none is.
    ensures unrebuilt { HasRoomAt path.now with tree → RebuildsNoneAbove large path.now (replaced_at path.now with tree)
        → IfOk result (λ r. r.tree ≡ replaced_at path.now with tree) }
    ensures nodes_made { HasRoomAt path.now with tree → RebuildsNoneAbove large path.now (replaced_at path.now with tree)
        → steps.new ≤ steps.old + length path.now }
{
    let _size = tree.size();
    if !has_room(&tree, path, &with) {
        let tree = rebuilt(alloc, tree, steps)?;
        return Ok(Replaced { tree, anew: true });
    }
    let tree = replaced_along(alloc, tree, large, path.as_slice(), with, steps)?;
    Ok(Replaced { tree, anew: false })
}

// The same by shape, where there is room.
fn replaced_along<L: Ledger>(
    alloc: Global,
    tree: Tree,
    large: u32,
    sides: &[Side],
    with: Tree,
    steps: &mut Steps<L>,
) -> Result<Tree, NoMemory>
    requires stands { StandsFor sides.now tree with }
    requires room { HasRoomAt sides.now with tree }
    ensures replaced { IfOk result (λ t. IsReplaced large sides.now tree with t) }
    ensures nodes_made { RebuildsNoneAbove large sides.now (replaced_at sides.now with tree) → steps.new ≤ steps.old + length sides.now }
{
    let _size = tree.size();
    let Some((side, rest)) = sides.split_first() else {
        return Ok(with);
    };
    let Some(child) = child_of(&tree, *side) else {
        return Ok(Tree::empty());
    };
    let child = child.copy(alloc, steps)?;
    let child = replaced_along(alloc, child, large, rest, with, steps)?;
    let tree = tree.with_child(alloc, *side, child, steps)?;
    rebuilt_if_due(alloc, tree, large, steps)
}

fn child_of(tree: &Tree, side: Side) -> Option<&Tree>
    ensures none { IsNone result ↔ (at (side ∷ []) tree.now ≡ None) }
    ensures some { IfSome result (λ s. at (side ∷ []) tree.now ≡ Some s.now) }
{
    let Some(top) = tree.top() else {
        return None;
    };
    Some(top.child(side))
}

// Whether the tree with the other at the path would have no more levels and nodes than a tree may have.
fn has_room(tree: &Tree, path: &Path, with: &Tree) -> bool
    requires { StandsFor path.now tree.now with.now }
    ensures { result ≡ true ↔ HasRoomAt path.now with.now tree.now }
{
    let Some(node) = tree.subtree_at(path) else {
        return false;
    };
    if MAX_NODES < tree.size() - node.size() + with.size() {
        return false;
    }
    levels_with(tree, path.as_slice(), with) <= MAX_LEVELS
}

// How many levels the tree with the other at the path would have.
fn levels_with(tree: &Tree, sides: &[Side], with: &Tree) -> u32
    ensures value { result ≡ levels (replaced_at sides.now with.now tree.now) }
    ensures low { result ≤ 1024 }
{
    let _levels = tree.levels() + with.levels();
    let Some((side, rest)) = sides.split_first() else {
        return with.levels();
    };
    let Some(top) = tree.top() else {
        return 0;
    };
    match side {
        Side::Left => levels_with(top.left, rest, with).max(top.right.levels()) + 1,
        Side::Right => top.left.levels().max(levels_with(top.right, rest, with)) + 1,
    }
}
