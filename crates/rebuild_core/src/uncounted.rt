//! Steps for callers that count no nodes. Each makes a counter that nothing reads.
ghost use Rattle.std.specs.Prelude.{◌≡◌, ◌≤◌, length, IfErr, IfOk, OnErr, OnOk};
ghost use Rattle.kd_tree.specs.Counter.{IsBlankOf};
ghost use Rattle.kd_update.specs.Detached.{AreItemsOf};
ghost use Rattle.rebuild_core.specs.{Steps.{HasRoom, IsFault, IsUpdatePlan, IsUpdateStep}, Swap.{IsLate, IsNear, IsSwapFault, IsSwapPlan, IsSwapStep, MaySwap}};

use crate::{MapState, Planned, SwapLeft};
use kd_tree::Steps;
use map_items::Update;
use rebuild_parts::{Built, Late, StateFault};
use std::alloc::Global;
use std::marker::Brand;
use std::sync::ledger::{Blank, Ledger};

impl MapState {
    pub fn update_uncounted(
        &mut self,
        alloc: Global,
        caller: u8,
        update: Update,
    ) -> Result<u64, StateFault>
        requires caller_from { 1 ≤ caller }
        requires caller_to { caller ≤ 8 }
        ensures stepped { OnOk result (IsUpdateStep caller update self.old.state self.new.state) }
        ensures len { IfOk result (λ n. n ≡ length self.new.state.history) }
        ensures room { OnOk result (HasRoom update self.old.state) }

        ensures refused { IfErr result (IsFault update self.old.state) }
        ensures same { OnErr result (self.new.state ≡ self.old.state) }
    {
        let planned = self.plan_update_uncounted(alloc, caller, update)?;
        Ok(self.enter_step(planned))
    }

    pub fn plan_update_uncounted(
        &mut self,
        alloc: Global,
        caller: u8,
        update: Update,
    ) -> Result<Planned, StateFault>
        requires caller_from { 1 ≤ caller }
        requires caller_to { caller ≤ 8 }
        ensures same { self.new.state ≡ self.old.state }
        ensures planned { IfOk result (IsUpdatePlan caller update self.old.state) }
        ensures room { OnOk result (HasRoom update self.old.state) }
        ensures spare { OnOk result (1 ≤ self.new.spare) }

        ensures refused { IfErr result (IsFault update self.old.state) }
    {
        self.plan_update_by::<Brand>(alloc, caller, update, Blank::new(1))
    }

    fn plan_update_by<L: Ledger>(
        &mut self,
        alloc: Global,
        caller: u8,
        update: Update,
        blank: Blank,
    ) -> Result<Planned, StateFault>
        requires caller_from { 1 ≤ caller }
        requires caller_to { caller ≤ 8 }
        requires blank { IsBlankOf L.name L.parts blank }
        ensures same { self.new.state ≡ self.old.state }
        ensures planned { IfOk result (IsUpdatePlan caller update self.old.state) }
        ensures room { OnOk result (HasRoom update self.old.state) }
        ensures spare { OnOk result (1 ≤ self.new.spare) }

        ensures refused { IfErr result (IsFault update self.old.state) }
    {
        let mut steps: Steps<L> = Steps::new(blank);
        self.plan_update(alloc, caller, update, &mut steps)
    }

    pub fn swap_uncounted(
        &mut self,
        alloc: Global,
        built: Built,
        force: bool,
    ) -> Result<(), SwapLeft>
        ensures swapped { OnOk result (IsSwapStep built self.old.state self.new.state) }
        ensures may { OnOk result (MaySwap built force self.old.state) }

        ensures refused { IfErr result (λ l. IsSwapFault built force self.old.state l.fault) }
        ensures same { OnErr result (self.new.state ≡ self.old.state) }
        ensures handed_back { IfErr result (λ l. l.built ≡ built) }
    {
        self.swap_by::<Brand>(alloc, built, force, Blank::new(1))
    }

    fn swap_by<L: Ledger>(
        &mut self,
        alloc: Global,
        built: Built,
        force: bool,
        blank: Blank,
    ) -> Result<(), SwapLeft>
        requires blank { IsBlankOf L.name L.parts blank }
        ensures swapped { OnOk result (IsSwapStep built self.old.state self.new.state) }
        ensures may { OnOk result (MaySwap built force self.old.state) }

        ensures refused { IfErr result (λ l. IsSwapFault built force self.old.state l.fault) }
        ensures same { OnErr result (self.new.state ≡ self.old.state) }
        ensures handed_back { IfErr result (λ l. l.built ≡ built) }
    {
        let mut steps: Steps<L> = Steps::new(blank);
        self.swap(alloc, built, force, &mut steps)
    }

    pub fn plan_swap_or_log_uncounted(
        &self,
        alloc: Global,
        built: Built,
        most: u32,
    ) -> Result<Planned, Late>
        requires known { AreItemsOf built.ticket built.items self.now.state.parts }
        ensures planned { IfOk result (IsSwapPlan built self.now.state) }
        ensures near { OnOk result (IsNear built most self.now.state) }

        ensures refused { IfErr result (IsLate built most self.now.state) }
    {
        self.plan_swap_or_log_by::<Brand>(alloc, built, most, Blank::new(1))
    }

    fn plan_swap_or_log_by<L: Ledger>(
        &self,
        alloc: Global,
        built: Built,
        most: u32,
        blank: Blank,
    ) -> Result<Planned, Late>
        requires known { AreItemsOf built.ticket built.items self.now.state.parts }
        requires blank { IsBlankOf L.name L.parts blank }
        ensures planned { IfOk result (IsSwapPlan built self.now.state) }
        ensures near { OnOk result (IsNear built most self.now.state) }

        ensures refused { IfErr result (IsLate built most self.now.state) }
    {
        let mut steps: Steps<L> = Steps::new(blank);
        self.plan_swap_or_log(alloc, built, most, &mut steps)
    }
}
