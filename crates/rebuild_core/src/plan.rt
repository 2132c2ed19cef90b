ghost use Rattle.std.specs.Prelude.{◌≡◌, ◌+◌, ◌≤◌, length, IfOk, IfErr, OnOk, OnErr};
ghost use Rattle.map_items.specs.Fold.{points_in};
ghost use Rattle.kd_update.specs.Detached.{watches_of};
ghost use Rattle.kd_tree.specs.Counter.{IsBlankOf};
ghost use Rattle.rebuild_parts.specs.Logs.{planned_parts};
ghost use Rattle.rebuild_core.specs.Outcome.{IsLeftByUpdate, MakesNodes};
ghost use Rattle.rebuild_core.specs.Steps.{HasRoom, IsPlanDraft, IsFault, IsSettlePlan, IsSettleStep, IsUpdatePlan, IsUpdateStep};

use crate::{MapState, Planned};
use kd_tree::{Scratch, Steps, Tree};
use kd_update::settled;
use map_items::{Entry, MAX_POINTS, NoMemory, Update};
use map_update::{Draft, changed};
use rebuild_parts::{PartLog, StateFault, Version, forgotten, logs_of, watched};
use std::alloc::Global;
use std::marker::Brand;
use std::sync::ledger::{Blank, Ledger};

/// The most updates of a history.
pub const MAX_UPDATES: u64 = 1_048_576;

#[derive(Drop)]
struct PlanDraft {
    tree: Tree,
    logs: Vec<PartLog>,
}

impl MapState {
    /// Makes an update of this caller, and returns how many entries the history has then. A refusal drops the update.
    /// The time is that of its operations on the tree, and of a copy of each detached subtree's log, which shares all
    /// but its newest operations.
    ///
    /// What crosses a detached subtree is logged for it, and no node above it, at its top or in it is rebuilt. Before a
    /// point is put into a full tree, the tree is rebuilt and all detached subtrees are forgotten; otherwise, before
    /// each operation, those whose logs have no room for two are rebuilt where they are, and forgotten. For points put
    /// at once both rules apply before them all, with room for their number, and with the levels as before.
    pub fn update<L: Ledger>(
        &mut self,
        alloc: Global,
        caller: u8,
        update: Update,
        steps: &mut Steps<L>,
    ) -> Result<u64, StateFault>
        requires caller_from { 1 ≤ caller }
        requires caller_to { caller ≤ 8 }
        ensures stepped { OnOk result (IsUpdateStep caller update self.old.state self.new.state) }
        ensures len { IfOk result (λ n. n ≡ length self.new.state.history) }
        ensures room { OnOk result (HasRoom update self.old.state) }
        ensures leaves { OnOk result (IsLeftByUpdate update self.old.state self.new.state.parts self.new.state.tree) }

        ensures refused { IfErr result (IsFault update self.old.state) }
        ensures same { OnErr result (self.new.state ≡ self.old.state) }

        // On errors too.
        ensures nodes { MakesNodes update self.old.state steps.old steps.new }
    {
        let planned = self.plan_update(alloc, caller, update, steps)?;
        Ok(self.enter_step(planned))
    }

    /// Plans `update`, and takes its memory and room for an entry.
    pub fn plan_update<L: Ledger>(
        &mut self,
        alloc: Global,
        caller: u8,
        update: Update,
        steps: &mut Steps<L>,
    ) -> Result<Planned, StateFault>
        requires caller_from { 1 ≤ caller }
        requires caller_to { caller ≤ 8 }
        ensures same { self.new.state ≡ self.old.state }
        ensures planned { IfOk result (IsUpdatePlan caller update self.old.state) }
        ensures room { OnOk result (HasRoom update self.old.state) }
        ensures spare { OnOk result (1 ≤ self.new.spare) }
        ensures leaves { IfOk result (λ p. IsLeftByUpdate update self.old.state (planned_parts p.logs self.old.state.parts) p.tree) }

        ensures refused { IfErr result (IsFault update self.old.state) }
        ensures nodes { MakesNodes update self.old.state steps.old steps.new }
    {
        let next = self.next_after(&update)?;
        let mut scratch = self.take_scratch(alloc);
        let draft = self.plan_draft(alloc, &update, &mut scratch, steps);
        self.put_scratch(scratch);
        let draft = draft?;
        let planned = self.plan_of(alloc, caller, update, next, draft, steps)?;
        Ok(planned)
    }

    fn plan_of<L: Ledger>(
        &mut self,
        alloc: Global,
        caller: u8,
        update: Update,
        next: u32,
        draft: PlanDraft,
        steps: &mut Steps<L>,
    ) -> Result<Planned, NoMemory>
        requires caller_from { 1 ≤ caller }
        requires caller_to { caller ≤ 8 }
        requires room { HasRoom update self.old.state }
        requires next { next ≡ self.old.state.next + points_in update }
        requires plan_draft { IsPlanDraft update self.old.state draft }
        ensures same { self.new.state ≡ self.old.state }
        ensures planned { IfOk result (IsUpdatePlan caller update self.old.state) }
        ensures spare { OnOk result (1 ≤ self.new.spare) }
        ensures tree { IfOk result (λ p. p.tree ≡ draft.tree) }
        ensures logs { IfOk result (λ p. p.logs ≡ draft.logs.items) }
        ensures no_nodes_made { steps.new ≡ steps.old }
    {
        let PlanDraft { tree, logs } = draft;
        let _size = tree.size();
        let len = self.history.len() as u64;
        self.history.reserve(1)?;
        let version = Version::shared(alloc, &tree, next, len + 1, steps)?;
        let seq = self.made[caller as usize - 1];
        let entry = Some(Entry {
            caller,
            seq,
            update,
        });
        Ok(Planned {
            tree,
            next,
            version,
            entry,
            logs,
        })
    }

    fn next_after(&self, update: &Update) -> Result<u32, StateFault>
        ensures next { IfOk result (λ n. n ≡ self.now.state.next + points_in update.now) }
        ensures room { OnOk result (HasRoom update.now self.now.state) }

        ensures refused { IfErr result (IsFault update.now self.now.state) }
    {
        let len = self.history.len() as u64;
        if len == MAX_UPDATES {
            return Err(StateFault::TooManyUpdates { len });
        }
        let next = self.next;
        let asked = update.points() as u64;
        if ((MAX_POINTS - next) as u64) < asked {
            return Err(StateFault::TooManyPoints { next, asked });
        }
        Ok(next + asked as u32)
    }

    // Nodes are made in the memory of the scratch, as far as that goes.
    fn plan_draft<L: Ledger>(
        &self,
        alloc: Global,
        update: &Update,
        scratch: &mut Scratch,
        steps: &mut Steps<L>,
    ) -> Result<PlanDraft, NoMemory>
        requires few { self.now.state.next + points_in update.now ≤ MAX_POINTS }
        ensures plan_draft { IfOk result (IsPlanDraft update.now self.now.state) }
        ensures leaves { IfOk result (λ d. IsLeftByUpdate update.now self.now.state (planned_parts d.logs.items self.now.state.parts) d.tree) }
        ensures nodes { MakesNodes update.now self.now.state steps.old steps.new }
    {
        let copy = self.copied(alloc, steps)?;
        let (settings, next) = (&self.settings, self.next);
        let draft = changed(alloc, copy, settings, next, update, scratch, steps)?;
        let Draft { tree, watches } = draft;
        let logs = logs_of(alloc, self.parts.as_slice(), watches)?;
        Ok(PlanDraft { tree, logs })
    }

    fn copied<L: Ledger>(&self, alloc: Global, steps: &mut Steps<L>) -> Result<Draft, NoMemory>
        ensures tree { IfOk result (λ d. d.tree ≡ self.now.state.tree) }
        ensures watches { IfOk result (λ d. d.watches ≡ watches_of self.now.state.parts) }
        ensures nodes_made { steps.new ≡ steps.old }
    {
        let tree = self.tree.copy(alloc, steps)?;
        let watches = watched(alloc, self.parts.as_slice())?;
        Ok(Draft { tree, watches })
    }

    /// Rebuilds what breaches a criterion, as `settled` does, and forgets all detached subtrees.
    pub fn settle(&mut self, alloc: Global) -> Result<(), NoMemory>
        ensures settled { OnOk result (IsSettleStep self.old.state self.new.state) }
        ensures same { OnErr result (self.new.state ≡ self.old.state) }
        ensures spare { self.new.spare ≡ self.old.spare }
    {
        let planned = self.plan_settle(alloc)?;
        self.enter_step(planned);
        Ok(())
    }

    /// Plans `settle`, and takes its memory.
    pub fn plan_settle(&mut self, alloc: Global) -> Result<Planned, NoMemory>
        ensures same { self.new.state ≡ self.old.state }
        ensures spare { self.new.spare ≡ self.old.spare }
        ensures planned { IfOk result (IsSettlePlan self.old.state) }
    {
        self.settled_by::<Brand>(alloc, Blank::new(1))
    }

    fn settled_by<L: Ledger>(&self, alloc: Global, blank: Blank) -> Result<Planned, NoMemory>
        requires blank { IsBlankOf L.name L.parts blank }
        ensures { IfOk result (IsSettlePlan self.now.state) }
    {
        let mut steps: Steps<L> = Steps::new(blank);
        let tree = self.tree.copy(alloc, &mut steps)?;
        let tree = settled(alloc, tree)?;
        let _size = tree.size();
        let logs = forgotten(alloc, self.parts.as_slice())?;
        self.plan_with(alloc, tree, logs, &mut steps)
    }
}
