//! The memory of old nodes, for new ones.
use crate::{Block, Tree};
use map_items::NoMemory;
use std::alloc::Global;

// 1 MB of them.
const MAX_KEPT: usize = 8_192;

// Trees that are dropped are taken apart node by node, as memory is wanted: so a node is written just after it was
// read, while the processor has it at hand.
#[derive(Drop)]
pub(crate) struct Blocks {
    ready: Vec<Block>,
    trees: Vec<Tree>,
}

impl Blocks {
    pub(crate) fn new(alloc: Global) -> Blocks {
        Blocks {
            ready: Vec::new(alloc),
            trees: Vec::new(alloc),
        }
    }

    pub(crate) fn push(&mut self, block: Block) -> Result<(), NoMemory> {
        if self.ready.len() < MAX_KEPT {
            self.ready.push(block)?;
        }
        Ok(())
    }

    // What remains of the tree before is dropped.
    pub(crate) fn reclaim(&mut self, tree: Tree) {
        self.trees.clear();
        keep(&mut self.trees, tree)
    }

    pub(crate) fn next(&mut self) -> Block {
        match self.ready.pop() {
            None => next_of(&mut self.trees),
            Some(block) => block,
        }
    }
}

// Of the last tree whose top isn't shared. Its children take its place, and the trees behind it are dropped.
fn next_of(trees: &mut Vec<Tree>) -> Block {
    while let Some(tree) = trees.pop() {
        if let Ok(node) = tree.opened_if_own() {
            keep(trees, node.left);
            keep(trees, node.right);
            return node.block;
        }
    }
    Block::none()
}

// On `NoMemory` the tree is dropped.
fn keep(trees: &mut Vec<Tree>, tree: Tree) {
    if tree.is_empty() {
        return;
    }
    let Ok(()) = trees.push(tree) else {
        return;
    };
}
