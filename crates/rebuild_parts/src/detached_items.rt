//! What detached subtrees held: trees until somebody lists them, and then lists.
ghost use Rattle.std.specs.Prelude.{◌≡◌, ◌↔◌, true, IfOk};
ghost use Rattle.map_items.specs.Contents.{AreContents};
ghost use Rattle.kd_tree.specs.{Contents.{contents}, Counter.{IsBlankOf}};

use crate::Built;
use crate::same_items::{are_same, holds};
use kd_tree::{Steps, Tree};
use map_items::{Items, MAX_POINTS, NoMemory};
use std::alloc::Global;
use std::marker::{Brand, Model};
use std::sync::Arc;
use std::sync::ledger::{Blank, Ledger};

/// What a detached subtree held, by itself, when it was detached. Contracts see a list of items, also where it is a
/// tree, which shares its nodes with the map's.
pub struct DetachedItems {
    held: Listing,
}

// Manual, as `Job`'s.
impl Drop for DetachedItems {
    fn drop(self) {
        let DetachedItems { held: _held } = self;
    }
}

#[derive(Drop)]
enum Listing {
    Unlisted(Arc<Tree>),
    Listed(Arc<Items>),
}

impl Model for DetachedItems {
    ghost use Rattle.std.specs.Prelude.{List};
    ghost use Rattle.map_items.specs.{declared.item.Item.{Item}, Contents.{AreContents}};

    ghost Value = { List Item };

    ghost use Rattle.rebuild_parts.specs.DetachedItems.{items_held};

    ghost view = { λ h. items_held h.held };

    ghost use Rattle.map_items.specs.declared.limits.TheConstants.{MAX_POINTS};

    ghost invariant = { λ h. AreContents 0 MAX_POINTS (items_held h.held) };
}

impl DetachedItems {
    /// What the tree holds, in the same time for each tree.
    pub fn of(alloc: Global, tree: &Tree) -> Result<DetachedItems, NoMemory>
        requires { AreContents 0 MAX_POINTS (contents tree.now) }
        ensures { IfOk result (λ h. h ≡ contents tree.now) }
    {
        let copy = copied_by::<Brand>(alloc, tree, Blank::new(1))?;
        let tree = Arc::new(alloc, copy)?;
        Ok(DetachedItems {
            held: Listing::Unlisted(tree),
        })
    }

    pub(crate) fn listed(items: Arc<Items>) -> DetachedItems
        requires { AreContents 0 MAX_POINTS items.value }
        ensures { result ≡ items.value }
    {
        DetachedItems {
            held: Listing::Listed(items),
        }
    }

    /// The same once more: a pointer is copied.
    pub fn try_clone(&self) -> Result<DetachedItems, NoMemory>
        ensures { IfOk result (λ h. h ≡ self.now) }
    {
        let held = match &self.held {
            Listing::Unlisted(tree) => Listing::Unlisted(Arc::try_clone(tree)?),
            Listing::Listed(items) => Listing::Listed(Arc::try_clone(items)?),
        };
        Ok(DetachedItems { held })
    }

    // A tree of n items takes time in the order of n log n.
    pub(crate) fn list(&self, alloc: Global) -> Result<Arc<Items>, NoMemory>
        ensures value { IfOk result (λ items. items.value ≡ self.now) }
        ensures lawful { AreContents 0 MAX_POINTS self.now }
    {
        match &self.held {
            Listing::Unlisted(tree) => {
                let items = Arc::new(alloc, tree.flatten(alloc)?)?;
                Ok(items)
            }
            Listing::Listed(items) => {
                let items = Arc::try_clone(items)?;
                Ok(items)
            }
        }
    }

    /// Whether the value was built of these items. A list is compared item by item; a tree takes time in the order of n
    /// log n.
    pub fn is_of(&self, built: &Built) -> bool
        ensures { result ≡ true ↔ (self.now ≡ built.now.items) }
    {
        let items = built.job.items.as_slice();
        match &self.held {
            Listing::Unlisted(tree) => holds(tree, items),
            Listing::Listed(list) => are_same(list.as_slice(), items),
        }
    }
}

pub(crate) fn copied_by<L: Ledger>(
    alloc: Global,
    tree: &Tree,
    blank: Blank,
) -> Result<Tree, NoMemory>
    requires blank { IsBlankOf L.name L.parts blank }
    ensures { IfOk result (λ t. t ≡ tree.now) }
{
    let mut steps: Steps<L> = Steps::new(blank);
    tree.copy(alloc, &mut steps)
}
