//! Nodes taken apart and put together. The memory of a node that isn't shared is kept meanwhile, for the node that is
//! made of the parts. A shared node is never written.
ghost use Rattle.std.specs.{Prelude.{◌≡◌, ◌+◌, ◌≤◌, ◌∷◌, ◌++◌, Some, IfOk, IfErr, IfSome, IsNone, ◌↔◌}, Arc.{arc_value}};
ghost use Rattle.kd_tree.specs.{Shape.{leaf, fork, numbers}, Sound.{IsSound, IsSoundFork, IsTopSound}, Contents.{contents}};
ghost use Rattle.kd_tree.specs.{Parts.{contents_of_parts, fork_in, fork_of, joined, pushed}, View.{IsKeptAt, AreTopParts, IsTakenOf, shape_at, top_of}};

use crate::node::{Node, Root};
use crate::{Scratch, Steps, Tree};
use map_items::{Item, NoMemory, Tag};
use point_geom::Axis;
use std::alloc::Global;
use std::mem;
use std::sync::Arc;
use std::sync::ledger::Ledger;

/// A `Fork`, with the memory of its node.
#[derive(Drop)]
pub struct OpenNode {
    pub item: Item,
    pub axis: Axis,
    pub left: Tree,
    pub right: Tree,
    /// `Tree::put_together` makes the node in it.
    pub block: Block,
}

/// The memory of a node, if any is kept.
pub struct Block {
    node: Option<Arc<Node>>,
}

// Manual `Drop`, as of `Tree`.
impl Drop for Block {
    fn drop(self) {
        let Block { node: _node } = self;
    }
}

// `pending` isn't done to the children yet.
#[derive(Drop)]
pub(crate) struct Opened {
    pub(crate) item: Item,
    pub(crate) axis: Axis,
    pub(crate) pending: Tag,
    pub(crate) left: Tree,
    pub(crate) right: Tree,
    pub(crate) block: Block,
}

impl Tree {
    /// `push_down`, but the memory of a node that isn't shared is kept.
    #[inline(always)]
    pub fn take_apart<L: Ledger>(
        self,
        alloc: Global,
        steps: &mut Steps<L>,
    ) -> Result<Option<OpenNode>, NoMemory>
        ensures parts { IfOk result (λ o. fork_in o ≡ pushed self) }
        ensures none { IfOk result (λ o. IsNone o ↔ (self ≡ leaf)) }
        ensures contents { IfOk result (λ o. IfSome o (λ n. contents_of_parts (fork_of n) ≡ contents self)) }
        ensures numbers { IfOk result (λ o. IfSome o (λ n. numbers (joined (fork_of n)) ≡ numbers self)) }
        ensures sound { IfOk result (λ o. IfSome o (λ n. IsSound (joined (fork_of n)))) }
        ensures nodes_made { steps.new ≤ steps.old + 2 }
        ensures no_nodes_made { self ≡ leaf → steps.new ≡ steps.old }
    {
        match self.opened()? {
            None => Ok(None),
            Some(node) => {
                let left = node.left.tagged(alloc, node.pending, steps)?;
                let right = node.right.tagged(alloc, node.pending, steps)?;
                Ok(Some(OpenNode {
                    item: node.item,
                    axis: node.axis,
                    left,
                    right,
                    block: node.block,
                }))
            }
        }
    }

    /// `pull_up`, but the node is made in the memory that was kept.
    #[inline(always)]
    pub fn put_together<L: Ledger>(
        alloc: Global,
        node: OpenNode,
        steps: &mut Steps<L>,
    ) -> Result<Tree, NoMemory>
        requires sound { IsTopSound (joined (fork_of node)) }
        ensures shape { IfOk result (λ t. t ≡ joined (fork_of node)) }
        ensures contents { IfOk result (λ t. contents t ≡ contents_of_parts (fork_of node)) }
        ensures numbers { IfOk result (λ t. numbers t ≡ node.item.number ∷ (numbers node.left ++ numbers node.right)) }
        ensures nodes_made { steps.new ≤ steps.old + 1 }
    {
        let OpenNode {
            item,
            axis,
            left,
            right,
            block,
        } = node;
        let node = Node::made(item, axis, Tag::KEEP, left, right, steps);
        block.filled(alloc, node)
    }

    #[inline(always)]
    pub(crate) fn opened(self) -> Result<Option<Opened>, NoMemory>
        ensures { IfOk result (λ o. AreTopParts self o) }
    {
        match self.into_root() {
            Root::Empty => Ok(None),
            Root::Full { node, .. } => {
                let node = taken(node)?;
                Ok(Some(node))
            }
        }
    }

    #[inline(always)]
    pub(crate) fn opened_if_own(self) -> Result<Opened, Tree>
        ensures own { IfOk result (λ o. AreTopParts self (Some o)) }
        ensures stays { IfErr result (λ t. t ≡ self) }
    {
        match self.into_root() {
            Root::Empty => Err(Tree::empty()),
            Root::Full { levels, size, node } => match taken_if_own(node) {
                Ok(node) => Ok(node),
                Err(node) => {
                    let root = Root::Full { levels, size, node };
                    Err(Tree { root })
                }
            },
        }
    }
}

impl Opened {
    pub(crate) fn closed<L: Ledger>(
        self,
        alloc: Global,
        steps: &mut Steps<L>,
    ) -> Result<Tree, NoMemory>
        requires { IsSoundFork (top_of self) self.left self.right }
        ensures shape { IfOk result (λ t. t ≡ fork (top_of self) self.left self.right) }
        ensures nodes_made { steps.new ≡ steps.old + 1 }
    {
        let Opened {
            item,
            axis,
            pending,
            left,
            right,
            block,
        } = self;
        let node = Node::made(item, axis, pending, left, right, steps);
        block.filled(alloc, node)
    }
}

impl Block {
    pub fn none() -> Block {
        Block { node: None }
    }

    /// This memory, or the scratch's where none is kept.
    pub fn or_of(self, scratch: &mut Scratch) -> Block {
        let Block { node } = self;
        match node {
            Some(node) => Block { node: Some(node) },
            None => scratch.block(),
        }
    }

    // In this memory, where it isn't shared.
    #[inline(always)]
    pub(crate) fn filled(self, alloc: Global, node: Node) -> Result<Tree, NoMemory>
        requires { IsKeptAt node }
        ensures { IfOk result (λ t. t ≡ shape_at node) }
    {
        let levels = node.left.levels().max(node.right.levels()) as u16 + 1;
        let size = node.left.size() + node.right.size() + 1;
        let node = self.filled_with(alloc, node)?;
        let root = Root::Full { levels, size, node };
        Ok(Tree { root })
    }

    #[inline(always)]
    fn filled_with(self, alloc: Global, node: Node) -> Result<Arc<Node>, NoMemory>
        ensures { IfOk result (λ a. arc_value a ≡ node) }
    {
        let Block { node: kept } = self;
        if let Some(mut block) = kept {
            if let Some(place) = Arc::get_mut(&mut block) {
                *place = node;
                return Ok(block);
            }
        }
        let block = Arc::new(alloc, node)?;
        Ok(block)
    }
}

// The children of a shared node are copied.
#[inline(always)]
fn taken(block: Arc<Node>) -> Result<Opened, NoMemory>
    ensures { IfOk result (λ o. IsTakenOf (arc_value block) o) }
{
    match taken_if_own(block) {
        Ok(node) => Ok(node),
        Err(block) => Ok(Opened {
            item: block.item(),
            axis: block.axis,
            pending: block.pending,
            left: block.left.twin()?,
            right: block.right.twin()?,
            block: Block::none(),
        }),
    }
}

#[inline(always)]
fn taken_if_own(mut block: Arc<Node>) -> Result<Opened, Arc<Node>>
    ensures own { IfOk result (λ o. IsTakenOf (arc_value block) o) }
    ensures stays { IfErr result (λ b. arc_value b ≡ arc_value block) }
{
    let item = block.item();
    let axis = block.axis;
    let pending = block.pending;
    match Arc::get_mut(&mut block) {
        None => Err(block),
        Some(node) => {
            let left = mem::replace(&mut node.left, Tree::empty());
            let right = mem::replace(&mut node.right, Tree::empty());
            Ok(Opened {
                item,
                axis,
                pending,
                left,
                right,
                block: Block { node: Some(block) },
            })
        }
    }
}
