//! Subtrees as a search meets them: the action that is pending above is done to items as they are looked at.
ghost use Rattle.std.specs.Prelude.{◌≡◌, [], length, IfNone, IfSome};
ghost use Rattle.node_labels.specs.Labels.{keep_tag};
ghost use Rattle.map_items.specs.Contents.{live_items};
ghost use Rattle.kd_tree.specs.Walk.{walk};
ghost use Rattle.kd_search.specs.{First.{AreFrom}, Points.{AreIn}, Pending.{IsTopOf, items_of}};

use kd_tree::Tree;
use map_items::{Item, Tag};
use point_geom::{Axis, Extent};

#[derive(Drop)]
pub(crate) struct Pending<'a> {
    tree: &'a Tree,
    pending: Tag,
}

/// The action from above is done to the item's label, and pending for the children after the node's own.
#[derive(Drop)]
pub(crate) struct PendingTop<'a> {
    pub(crate) item: Item,
    pub(crate) axis: Axis,
    pub(crate) left: Pending<'a>,
    pub(crate) right: Pending<'a>,
}

impl<'a> Pending<'a> {
    pub(crate) fn whole(tree: &'a Tree) -> Pending<'a>
        ensures { items_of result ≡ walk keep_tag tree.now }
    {
        Pending {
            tree,
            pending: Tag::KEEP,
        }
    }

    /// Dropped items are in it too.
    pub(crate) fn extent(&self) -> Option<Extent>
        ensures none { IfNone result (items_of self.now ≡ []) }
        ensures some { IfSome result (λ e. AreIn e (items_of self.now)) }
    {
        self.tree.extent()
    }

    /// Of dropped nodes too; the greatest `u32` where there are none.
    pub(crate) fn least(&self) -> u32
        ensures { AreFrom result (items_of self.now) }
    {
        match self.tree.numbers() {
            None => u32::MAX,
            Some(numbers) => numbers.least,
        }
    }

    pub(crate) fn live(&self) -> u32
        ensures { result ≡ length (live_items (items_of self.now)) }
    {
        live_under(self.tree, self.pending)
    }

    /// None where no item is live.
    pub(crate) fn top(&self) -> Option<PendingTop<'a>>
        ensures none { IfNone result (live_items (items_of self.now) ≡ []) }
        ensures some { IfSome result (λ t. IsTopOf self.now t) }
    {
        if self.live() == 0 {
            return None;
        }
        let _size = self.tree.size();
        match self.tree.top() {
            None => None,
            Some(top) => {
                let pending = top.pending.then(self.pending);
                Some(PendingTop {
                    item: top.item.relabelled(self.pending),
                    axis: top.axis,
                    left: Pending {
                        tree: top.left,
                        pending,
                    },
                    right: Pending {
                        tree: top.right,
                        pending,
                    },
                })
            }
        }
    }
}

/// How many items are live where this action is pending above the tree, in constant time.
pub fn live_under(tree: &Tree, pending: Tag) -> u32
    ensures { result ≡ length (live_items (walk pending tree.now)) }
{
    let _size = tree.size();
    tree.counts().apply(pending).live
}
