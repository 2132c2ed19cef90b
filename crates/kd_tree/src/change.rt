//! Changes at the top of a tree. An action on a whole tree is done to its top, and is pending there for its children.
ghost use Rattle.std.specs.Prelude.{◌≡◌, ◌+◌, ◌≤◌, ◌∷◌, ◌++◌, IfOk, IfSome, IsNone, ◌↔◌};
ghost use Rattle.node_labels.specs.Labels.{keep_tag};
ghost use Rattle.map_items.specs.Contents.{everything, mark};
ghost use Rattle.kd_tree.specs.{Shape.{leaf, numbers}, Walk.{tagged}, Sound.{IsSound, IsTopSound}, Contents.{contents}};
ghost use Rattle.kd_tree.specs.Parts.{contents_of_parts, joined, pushed, with_child};

use crate::open_node::{Block, OpenNode, Opened};
use crate::{Side, Steps, Tree};
use map_items::{Item, NoMemory, Tag};
use point_geom::Axis;
use std::alloc::Global;
use std::sync::ledger::Ledger;

/// A tree taken apart at its top. Nothing is pending for the children.
#[derive(Drop)]
pub struct Fork {
    pub item: Item,
    pub axis: Axis,
    pub left: Tree,
    pub right: Tree,
}

impl Tree {
    /// The tree after this action on all its items.
    #[inline(always)]
    pub fn tagged<L: Ledger>(
        self,
        alloc: Global,
        tag: Tag,
        steps: &mut Steps<L>,
    ) -> Result<Tree, NoMemory>
        ensures shape { IfOk result (λ t. t ≡ tagged tag self) }
        ensures contents { IfOk result (λ t. contents t ≡ mark (contents self) everything tag) }
        ensures numbers { IfOk result (λ t. numbers t ≡ numbers self) }
        ensures nodes_made { steps.new ≤ steps.old + 1 }
        ensures no_nodes_made { self ≡ leaf → steps.new ≡ steps.old }
        ensures keep { tag ≡ keep_tag → steps.new ≡ steps.old }
    {
        if tag == Tag::KEEP {
            return Ok(self);
        }
        self.retagged(alloc, tag, steps)
    }

    // Not part of `tagged`, which is inlined, since most actions are KEEP.
    fn retagged<L: Ledger>(
        self,
        alloc: Global,
        tag: Tag,
        steps: &mut Steps<L>,
    ) -> Result<Tree, NoMemory>
        ensures shape { IfOk result (λ t. t ≡ tagged tag self) }
        ensures nodes_made { steps.new ≤ steps.old + 1 }
        ensures no_nodes_made { self ≡ leaf → steps.new ≡ steps.old }
    {
        match self.opened()? {
            None => Ok(Tree::empty()),
            Some(node) => {
                let item = node.item.relabelled(tag);
                let pending = node.pending.then(tag);
                let node = Opened {
                    item,
                    pending,
                    ..node
                };
                node.closed(alloc, steps)
            }
        }
    }

    /// Takes the tree apart at its top node, if it has one. What is pending there is done to the children.
    pub fn push_down<L: Ledger>(
        self,
        alloc: Global,
        steps: &mut Steps<L>,
    ) -> Result<Option<Fork>, NoMemory>
        ensures parts { IfOk result (λ o. o ≡ pushed self) }
        ensures none { IfOk result (λ o. IsNone o ↔ (self ≡ leaf)) }
        ensures contents { IfOk result (λ o. IfSome o (λ f. contents_of_parts f ≡ contents self)) }
        ensures numbers { IfOk result (λ o. IfSome o (λ f. numbers (joined f) ≡ numbers self)) }
        ensures sound { IfOk result (λ o. IfSome o (λ f. IsSound (joined f))) }
        ensures nodes_made { steps.new ≤ steps.old + 2 }
        ensures no_nodes_made { self ≡ leaf → steps.new ≡ steps.old }
    {
        match self.take_apart(alloc, steps)? {
            None => Ok(None),
            Some(node) => Ok(Some(Fork {
                item: node.item,
                axis: node.axis,
                left: node.left,
                right: node.right,
            })),
        }
    }

    /// The tree with another child on this side. What is pending at the top is pending for that child too. An empty
    /// tree stays empty. On `NoMemory` both trees are dropped.
    pub fn with_child<L: Ledger>(
        self,
        alloc: Global,
        side: Side,
        child: Tree,
        steps: &mut Steps<L>,
    ) -> Result<Tree, NoMemory>
        requires { IsTopSound (with_child side child self) }
        ensures shape { IfOk result (λ t. t ≡ with_child side child self) }
        ensures nodes_made { steps.new ≤ steps.old + 1 }
    {
        match self.opened()? {
            None => Ok(Tree::empty()),
            Some(node) => {
                let Opened { left, right, .. } = node;
                let (left, right) = match side {
                    Side::Left => (child, right),
                    Side::Right => (left, child),
                };
                let node = Opened {
                    left,
                    right,
                    ..node
                };
                node.closed(alloc, steps)
            }
        }
    }

    /// Joins the parts to a tree with nothing pending at its top. On `NoMemory` they are dropped.
    pub fn pull_up<L: Ledger>(
        alloc: Global,
        fork: Fork,
        steps: &mut Steps<L>,
    ) -> Result<Tree, NoMemory>
        requires sound { IsTopSound (joined fork) }
        ensures shape { IfOk result (λ t. t ≡ joined fork) }
        ensures contents { IfOk result (λ t. contents t ≡ contents_of_parts fork) }
        ensures numbers { IfOk result (λ t. numbers t ≡ fork.item.number ∷ (numbers fork.left ++ numbers fork.right)) }
        ensures nodes_made { steps.new ≤ steps.old + 1 }
    {
        let Fork {
            item,
            axis,
            left,
            right,
        } = fork;
        let node = OpenNode {
            item,
            axis,
            left,
            right,
            block: Block::none(),
        };
        Tree::put_together(alloc, node, steps)
    }
}
