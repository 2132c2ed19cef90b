ghost use Rattle.std.specs.Prelude.{◌≡◌, ◌+◌, ◌≤◌, length, IfErr, IfOk, OnErr, OnOk};
ghost use Rattle.kd_tree.specs.Parts.{replaced_at};
ghost use Rattle.kd_mark.specs.Update.{IsBalancedBelow};
ghost use Rattle.rebuild_parts.specs.Built.{BuiltAt};
ghost use Rattle.rebuild_core.specs.Known.{IsTreeOf};
ghost use Rattle.kd_update.specs.Detached.{AreItemsOf};
ghost use Rattle.rebuild_core.specs.Swap.{IsLate, IsLeftUnrebuilt, IsNear, IsUnrebuiltSwap, IsSwapFault, IsSwapPlan, IsSwapStep, MakesPath, MaySwap};

use crate::{MapState, Planned};
use kd_tree::{Steps, Tree};
use kd_update::{Replaced, replaced};
use map_items::{NoMemory, Op, Ops};
use rebuild_parts::{
    Built, Late, MAX_UNFORCED, Part, SwapFault, forgotten_for, others_of, replayed_onto,
};
use std::alloc::Global;
use std::sync::ledger::Ledger;

/// A built value that wasn't swapped in, as it was.
#[derive(Drop)]
pub struct SwapLeft {
    pub built: Built,
    pub fault: SwapFault,
}

impl MapState {
    /// Puts the built value's tree in the place of its detached subtree, after the pending operations, and forgets that
    /// subtree. The time is that of these operations, of comparing the items, and of the nodes above: the tree is only
    /// rebuilt if it was made with another `large` and is unbalanced. No clause says so where operations are pending or
    /// a node above is rebuilt.
    ///
    /// Without force more than `MAX_UNFORCED` pending operations are refused. Where there would be more than 512 levels
    /// or 4,194,304 nodes, the whole tree is rebuilt and all detached subtrees are forgotten.
    pub fn swap<L: Ledger>(
        &mut self,
        alloc: Global,
        built: Built,
        force: bool,
        steps: &mut Steps<L>,
    ) -> Result<(), SwapLeft>
        ensures swapped { OnOk result (IsSwapStep built self.old.state self.new.state) }
        ensures may { OnOk result (MaySwap built force self.old.state) }

        ensures refused { IfErr result (λ l. IsSwapFault built force self.old.state l.fault) }
        ensures same { OnErr result (self.new.state ≡ self.old.state) }
        ensures spare { self.new.spare ≡ self.old.spare }
        ensures handed_back { IfErr result (λ l. l.built ≡ built) }

        ensures unrebuilt { OnOk result (IsLeftUnrebuilt built self.old.state self.new.state.tree) }
        // On errors too.
        ensures nodes_made { MakesPath built self.old.state steps.old steps.new }
    {
        match self.plan_swap(alloc, &built, force, steps) {
            Err(fault) => Err(SwapLeft { built, fault }),
            Ok(planned) => {
                self.enter_step(planned);
                Ok(())
            }
        }
    }

    /// Plans `swap`, and takes its memory.
    pub fn plan_swap<L: Ledger>(
        &mut self,
        alloc: Global,
        built: &Built,
        force: bool,
        steps: &mut Steps<L>,
    ) -> Result<Planned, SwapFault>
        ensures same { self.new.state ≡ self.old.state }
        ensures spare { self.new.spare ≡ self.old.spare }
        ensures planned { IfOk result (IsSwapPlan built.now self.old.state) }
        ensures may { OnOk result (MaySwap built.now force self.old.state) }

        ensures refused { IfErr result (IsSwapFault built.now force self.old.state) }
        ensures unrebuilt { IfOk result (λ x. IsLeftUnrebuilt built.now self.old.state x.tree) }
        ensures nodes_made { MakesPath built.now self.old.state steps.old steps.new }
    {
        let Some(part) = self.part_built(built) else {
            return Err(SwapFault::Stale {
                ticket: built.ticket(),
            });
        };
        let done = built.done().len() as u32;
        let left = part.log.len() - done;
        if !force && MAX_UNFORCED < left {
            return Err(SwapFault::Behind { left });
        }
        let ops = part.log.after(alloc, done)?;
        let copy = built.tree().copy(alloc, steps)?;
        let planned = self.swapped(alloc, part, copy, built.large(), ops.as_slice(), steps)?;
        Ok(planned)
    }

    /// Plans the swap of a value at most `most` operations behind, done in its own nodes where nobody else has them.
    /// One further behind is handed back with its pending operations. The caller compares the items, by
    /// `DetachedItems::is_of` with what `detached_items` returns.
    pub fn plan_swap_or_log<L: Ledger>(
        &self,
        alloc: Global,
        built: Built,
        most: u32,
        steps: &mut Steps<L>,
    ) -> Result<Planned, Late>
        requires known { AreItemsOf built.ticket built.items self.now.state.parts }
        ensures planned { IfOk result (IsSwapPlan built self.now.state) }
        ensures near { OnOk result (IsNear built most self.now.state) }

        ensures refused { IfErr result (IsLate built most self.now.state) }
        ensures unrebuilt { IfOk result (λ x. IsLeftUnrebuilt built self.now.state x.tree) }
        ensures nodes_made { MakesPath built self.now.state steps.old steps.new }
    {
        let Some(part) = self.part_known(&built) else {
            return Err(Late::Stale { built });
        };
        let done = built.done().len() as u32;
        let left = part.log.len() - done;
        let ops = part.log.after(alloc, done)?;
        if most < left {
            return Err(Late::Behind {
                built,
                ops: Ops::from(ops),
            });
        }
        let (tree, large) = built.into_tree();
        let planned = self.swapped(alloc, part, tree, large, ops.as_slice(), steps)?;
        Ok(planned)
    }

    fn swapped<L: Ledger>(
        &self,
        alloc: Global,
        part: &Part,
        tree: Tree,
        made_with: u32,
        ops: &[Op],
        steps: &mut Steps<L>,
    ) -> Result<Planned, NoMemory>
        requires of { (b : BuiltAt) × IsTreeOf b part.now self.now.state.parts tree ops.now }
        requires balanced { IsBalancedBelow made_with tree }
        ensures planned { (b : BuiltAt) → IsTreeOf b part.now self.now.state.parts tree ops.now
            → IfOk result (IsSwapPlan b self.now.state) }
        ensures unrebuilt { (b : BuiltAt) → IsTreeOf b part.now self.now.state.parts tree ops.now → IsUnrebuiltSwap b part.now self.now.state
            → IfOk result (λ x. x.tree ≡ replaced_at part.now.path b.tree self.now.state.tree) }
        ensures nodes_made { (b : BuiltAt) → IsTreeOf b part.now self.now.state.parts tree ops.now → IsUnrebuiltSwap b part.now self.now.state
            → steps.new ≤ steps.old + length part.now.path }
    {
        let large = self.settings.large();
        let parts = self.parts.as_slice();
        let with = replayed_onto(alloc, tree, made_with, large, ops, steps)?;
        let others = others_of(alloc, parts, part.ticket)?;
        let tree = self.tree.copy(alloc, steps)?;
        let (path, others) = (&part.path, others.as_slice());
        let Replaced { tree, anew } = replaced(alloc, tree, large, path, with, others, steps)?;
        let _size = tree.size();
        let logs = forgotten_for(alloc, parts, part.ticket, anew)?;
        self.plan_with(alloc, tree, logs, steps)
    }
}
