ghost use Rattle.std.specs.Prelude.{◌≡◌, IfOk};
ghost use Rattle.rebuild_core.specs.Steps.{plan_with};

use crate::MapState;
use kd_tree::{Steps, Tree};
use map_items::{Entry, NoMemory};
use rebuild_parts::{PartLog, Version};
use std::alloc::Global;
use std::marker::Model;
use std::sync::Arc;
use std::sync::ledger::Ledger;

/// What a step stores, for which all memory is taken.
pub struct Planned {
    pub(crate) tree: Tree,
    pub(crate) next: u32,
    pub(crate) version: Arc<Version>,
    pub(crate) entry: Option<Entry>,
    pub(crate) logs: Vec<PartLog>,
}

impl Model for Planned {
    ghost use Rattle.rebuild_core.specs.Steps.{PlannedAt};

    ghost Value = { PlannedAt };

    ghost use Rattle.std.specs.Coded.{codes};
    ghost use Rattle.kd_tree.specs.ShapeCode.{coded_shape};

    ghost coded = { Prim.hlevel (codes, coded_shape) };

    ghost view = { λ p. record { tree = p.tree; next = p.next; version = p.version.value; entry = p.entry; logs = p.logs.items } };
}

// Manual, as `Job`'s.
impl Drop for Planned {
    fn drop(self) {
        let Planned {
            tree: _tree,
            next: _next,
            version: _version,
            entry: _entry,
            logs: _logs,
        } = self;
    }
}

type Parts = (Tree, u32, Arc<Version>, Option<Entry>, Vec<PartLog>);

impl Planned {
    pub(crate) fn parts(self) -> Parts
        ensures { self ≡ record { tree = result.0; next = result.1; version = result.2.value; entry = result.3; logs = result.4.items } }
    {
        let Planned {
            tree,
            next,
            version,
            entry,
            logs,
        } = self;
        (tree, next, version, entry, logs)
    }

    /// The version that the state is to have.
    pub fn version(&self) -> &Arc<Version>
        ensures { result.now.value ≡ self.now.version }
    {
        &self.version
    }

    /// The history's new entry, if any.
    pub fn entry(&self) -> &Option<Entry>
        ensures { result.now ≡ self.now.entry }
    {
        &self.entry
    }
}

impl MapState {
    // For a step that is no update.
    pub(crate) fn plan_with<L: Ledger>(
        &self,
        alloc: Global,
        tree: Tree,
        logs: Vec<PartLog>,
        steps: &mut Steps<L>,
    ) -> Result<Planned, NoMemory>
        ensures planned { IfOk result (λ p. p ≡ plan_with tree logs.items self.now.state) }
        ensures no_nodes_made { steps.new ≡ steps.old }
    {
        let (next, len) = (self.next, self.history.len() as u64);
        let version = Version::shared(alloc, &tree, next, len, steps)?;
        Ok(Planned {
            tree,
            next,
            version,
            entry: None,
            logs,
        })
    }
}
