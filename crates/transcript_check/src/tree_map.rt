//! A tree of its own for a replay.
ghost use Rattle.std.specs.Prelude.{◌≡◌, ◌+◌, ◌≤◌, IfOk};
ghost use Rattle.map_items.specs.Fold.{points_in, step};
ghost use Rattle.kd_tree.specs.Counter.{IsBlankOf};

use crate::held_map::{HeldMap, Replied};
use crate::on_tree::{tree_reply, tree_totals};
use kd_tree::{Scratch, Steps, Tree};
use kd_update::Watches;
use map_items::{MAX_LARGE, MAX_POINTS, NoMemory, Settings, Update};
use map_update::{Draft, changed};
use scan_log::Command;
use std::alloc::Global;
use std::marker::{Brand, Model};
use std::sync::ledger::{Blank, Ledger};

/// A map whose items are in a tree that nobody else has: it keeps no version and no history, and detaches nothing.
pub struct TreeMap {
    draft: Draft,
    next: u32,
    scratch: Scratch,
}

impl Model for TreeMap {
    ghost use Rattle.map_items.specs.{Fold.{MapAt}, declared.limits.TheConstants.{MAX_LARGE}};
    ghost use Rattle.kd_tree.specs.Maps.{map_of};
    ghost use Rattle.map_update.specs.Draft.{IsLawfulDraft};

    ghost Value = { MapAt };

    ghost view = { λ m. map_of m.draft.tree m.next };

    ghost invariant = { λ m. IsLawfulDraft MAX_LARGE m.next m.draft };
}

// Manual `Drop`: a derived one is proved at every exit of every owner.
impl Drop for TreeMap {
    fn drop(self) {
        let TreeMap {
            draft: _draft,
            next: _next,
            scratch: _scratch,
        } = self;
    }
}

impl HeldMap for TreeMap {
    ghost holds = { λ m. m };

    // Takes no memory.
    fn empty(alloc: Global) -> TreeMap {
        let tree = Tree::empty();
        let watches = Watches::new(alloc);
        TreeMap {
            draft: Draft { tree, watches },
            next: 0,
            scratch: Scratch::new(alloc),
        }
    }

    // What got unbalanced is rebuilt with the update, where it has fewer than `MAX_LARGE` nodes.
    fn apply(
        self,
        alloc: Global,
        settings: &Settings,
        update: &Update,
    ) -> Result<TreeMap, NoMemory> {
        self.apply_by::<Brand>(alloc, settings, update, Blank::new(1))
    }

    fn reply(&self, alloc: Global, command: Option<&Command>, mark: u64) -> Replied {
        let tree = &self.draft.tree;
        match command {
            Some(command) => tree_reply(alloc, tree, mark, command),
            None => Ok(tree_totals(tree, mark)),
        }
    }
}

impl TreeMap {
    // With a counter of nodes that nobody reads.
    fn apply_by<L: Ledger>(
        self,
        alloc: Global,
        settings: &Settings,
        update: &Update,
        blank: Blank,
    ) -> Result<TreeMap, NoMemory>
        requires points { self.next + points_in update.now ≤ MAX_POINTS }
        requires blank { IsBlankOf L.name L.parts blank }
        ensures { IfOk result (λ m. m ≡ step settings.now.voxel update.now self) }
    {
        let TreeMap {
            draft,
            next,
            mut scratch,
        } = self;
        let mut steps: Steps<L> = Steps::new(blank);
        let wide = Settings::new(settings.voxel(), MAX_LARGE);
        let draft = changed(alloc, draft, &wide, next, update, &mut scratch, &mut steps)?;
        let next = next + update.points() as u32;
        Ok(TreeMap {
            draft,
            next,
            scratch,
        })
    }
}
