//! Memory that is used again: a list of items, and old nodes.
ghost use Rattle.std.specs.Prelude.{◌≡◌, ◌+◌, ◌<◌, ◌≤◌, ◌^◌, ◌++◌, ℕ, IfOk, OnOk, IsPermutation, length, map};
ghost use Rattle.node_labels.specs.Labels.{keep_tag};
ghost use Rattle.kd_tree.specs.{Shape.{levels, nodes, numbers}, Walk.{walk}, Contents.{AreDistinct, AreKept, by_number, contents}, Criteria.{AllMeetCriteria}};
ghost use Rattle.kd_tree.specs.Build.{IsBuilt};

use crate::blocks::Blocks;
use crate::build::built;
use crate::flatten::{gather_pending, push_kept};
use crate::{Block, MAX_NODES, Steps, Tree};
use map_items::{Item, NoMemory, Tag};
use std::alloc::Global;
use std::sync::ledger::Ledger;

// A subtree of at least this many items is built in fresh memory, where its nodes lie near one another.
const FRESH_FROM: usize = 8_192;

/// Memory for new nodes and for rebuilding. What it holds between two calls means nothing.
pub struct Scratch {
    items: Vec<Item>,
    blocks: Blocks,
}

// Manual `Drop`, as of `Tree`.
impl Drop for Scratch {
    fn drop(self) {
        let Scratch {
            items: _items,
            blocks: _blocks,
        } = self;
    }
}

impl Scratch {
    /// Takes no memory.
    pub fn new(alloc: Global) -> Scratch {
        Scratch {
            items: Vec::new(alloc),
            blocks: Blocks::new(alloc),
        }
    }

    /// Takes in a tree for the memory of the nodes that aren't shared. What remains of the one before is dropped.
    pub fn reclaim(&mut self, tree: Tree) {
        self.blocks.reclaim(tree)
    }

    /// The memory of a node, if it has any.
    pub fn block(&mut self) -> Block {
        self.blocks.next()
    }
}

impl Tree {
    /// The remaining items of the tree and these, built by medians as `build` does it. Fewer than 8,192 nodes are made
    /// in the memory of old ones that aren't shared, as far as it goes; more in fresh memory, while a second list is
    /// held. Memory that isn't used stays with the scratch.
    pub fn rebuilt_with<L: Ledger>(
        self,
        alloc: Global,
        more: &[Item],
        scratch: &mut Scratch,
        steps: &mut Steps<L>,
    ) -> Result<Tree, NoMemory>
        requires kept { AreKept more.now }
        requires distinct { AreDistinct (walk keep_tag self ++ more.now) }
        requires few { length (walk keep_tag self) + length more.now ≤ MAX_NODES }
        ensures shape { IfOk result (λ t. IsBuilt (walk keep_tag self ++ more.now) t) }
        ensures contents { IfOk result (λ t. contents t ≡ by_number (walk keep_tag self ++ more.now)) }
        ensures criteria { IfOk result (λ t. AllMeetCriteria 10 t) }
        ensures numbers { IfOk result (λ t. IsPermutation (map (λ i. i.number) (walk keep_tag self ++ more.now)) (numbers t)) }
        ensures nodes { IfOk result (λ t. nodes t ≡ length (walk keep_tag self ++ more.now)) }
        ensures levels { (n : ℕ) → length (walk keep_tag self ++ more.now) < 2 ^ n → IfOk result (λ t. levels t ≤ n) }
        ensures once { OnOk result (steps.new ≡ steps.old + length (walk keep_tag self ++ more.now)) }
        ensures nodes_made { steps.new ≤ steps.old + length (walk keep_tag self ++ more.now) }
    {
        let _size = self.size();
        let counts = self.counts();
        let held = (counts.live + counts.suspended) as usize;
        scratch.items.clear();
        scratch.items.reserve(held + more.len())?;
        empty_pending(self, Tag::KEEP, &mut scratch.items, &mut scratch.blocks)?;
        scratch.items.extend_from_slice(more)?;
        built_in(
            alloc,
            scratch.items.as_mut_slice(),
            &mut scratch.blocks,
            steps,
        )
    }
}

// Many nodes are made in fresh memory, side by side: when it is asked for a large list, as in `build`, glibc joins what
// was freed in small pieces.
fn built_in<L: Ledger>(
    alloc: Global,
    items: &mut [Item],
    blocks: &mut Blocks,
    steps: &mut Steps<L>,
) -> Result<Tree, NoMemory>
    requires kept { AreKept items.old }
    requires distinct { AreDistinct items.old }
    requires few { length items.old ≤ MAX_NODES }
    ensures shape { IfOk result (λ t. IsBuilt items.old t) }
    ensures once { OnOk result (steps.new ≡ steps.old + length items.old) }
    ensures nodes_made { steps.new ≤ steps.old + length items.old }
{
    if items.len() < FRESH_FROM {
        return built(alloc, items, blocks, steps);
    }
    Tree::build(alloc, items, steps)
}

// What is below a shared node is read, and stays.
fn empty_pending(
    tree: Tree,
    pending: Tag,
    items: &mut Vec<Item>,
    blocks: &mut Blocks,
) -> Result<(), NoMemory>
    ensures { OnOk result (items.new.items ≡ items.old.items ++ walk pending tree) }
{
    match tree.opened_if_own() {
        Err(tree) => gather_pending(&tree, pending, items),
        Ok(node) => {
            push_kept(items, node.item.relabelled(pending))?;
            blocks.push(node.block)?;
            let below = node.pending.then(pending);
            empty_pending(node.left, below, items, blocks)?;
            empty_pending(node.right, below, items, blocks)
        }
    }
}
