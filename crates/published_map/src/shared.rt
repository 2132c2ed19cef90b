//! The map that callers share.
ghost use Rattle.std.specs.Prelude.{◌≡◌, ◌+◌, ◌<◌, ℕ, length, slice_get, Some, IfOk, map};
ghost use Rattle.rebuild_core.specs.Lawful.{IsLawful};
ghost use Rattle.shown_versions.specs.Marks.{seen_by_new, callers_of, IsDistinct, AllMetNow, AllEnded};
ghost use Rattle.published_map.specs.{Answers.{Updated}, Ends.{ended_of}, Held.{IsOpenedAs}};

use crate::ended::{Ended, ended_all};
use crate::locked::Locked;
use crate::meet::{meet, meet_last};
use crate::opened::Opened;
use crate::pass::Pass;
use crate::retired::Retired;
use crate::start::{made_passes, opened_pair};
use map_items::{NoMemory, Update};
use rebuild_core::MapState;
use rebuild_parts::StateFault;
use shown_versions::MapName;
use std::alloc::Global;
use std::sync::ledger::Blank;
use std::sync::{Mutex, MutexGuard, Wait};

/// A map that several callers share, each with a pass. A call with `rt` takes the lock, and waits for those before it. What a turn
/// drops is freed after it, and by a worker what a swap took out of the tree, though no clause says so. End it by `finish` or
/// `close`.
pub struct Shared<L: MapName> {
    pub(crate) lock: Mutex<Locked<L>>,
}

impl<L: MapName> Shared<L> {
    /// Shares an opened map, and makes a pass for each caller, from caller 1 on. The blank is the ledger of the map's name, with a
    /// part for each caller.
    pub fn start<R: Wait>(
        rt: &R,
        alloc: Global,
        blank: Blank,
        opened: Opened,
    ) -> Result<(Shared<L>, Vec<Pass<L>>), NoMemory>
        requires opened { IsOpenedAs L.name L.parts L.callers L.marks L.voxel blank opened }
        ensures passes { IfOk result (λ r. length r.1.items ≡ L.callers) }
        ensures new { IfOk result (λ r. (k : ℕ) → k < L.callers → slice_get r.1.items k ≡ Some (seen_by_new (k + 1))) }
    {
        let Opened {
            state,
            mut marks,
            callers,
        } = opened;
        let writer = opened_pair(alloc, &state, &mut marks, callers)?;
        let (book, mut share) = blank.open::<L>();
        let audit_share = share.empty();
        match made_passes(alloc, &writer, share, callers) {
            Ok(passes) => {
                let lock = Mutex::new(Locked {
                    state,
                    writer,
                    marks,
                    book,
                    audit_share,
                    retired: Retired::new(),
                    marked: Vec::new(alloc),
                });
                Ok((Shared { lock }, passes))
            }
            Err(fault) => {
                writer.take(rt);
                Err(fault)
            }
        }
    }

    /// Makes an update of the pass's caller as `MapState::update` does, and publishes its version, which the pass keeps. Returns
    /// the length of the history. A refusal drops the update.
    pub fn update<R: Wait>(
        &self,
        rt: &R,
        alloc: Global,
        pass: &mut Pass<L>,
        update: Update,
    ) -> Result<u64, StateFault>
        ensures { Updated L.voxel result pass.old pass.new update }
    {
        // The pass may be the last that keeps its version.
        let kept = pass.kept.try_clone().ok();
        let mut locked = self.lock.lock(rt);
        let all_detached_items = locked.all_detached_items();
        let is_newest = locked.is_newest(&pass.kept);
        let (done, spent) = locked.update(rt, alloc, pass, update);
        let kept = if is_newest {
            kept
        } else {
            locked.retired.after_pass(kept)
        };
        MutexGuard::unlock(locked);
        drop((kept, spent, all_detached_items));
        done
    }

    /// Rebuilds what breaches a criterion, as `MapState::settle` does, and publishes the version.
    pub fn settle<R: Wait>(&self, rt: &R, alloc: Global) -> Result<(), NoMemory> {
        let mut locked = self.lock.lock(rt);
        let all_detached_items = locked.all_detached_items();
        let (done, spent) = locked.settle(rt, alloc);
        MutexGuard::unlock(locked);
        drop((spent, all_detached_items));
        done
    }

    /// All passes see the whole history at one moment. Each caller's updates in it are those made by its pass.
    pub fn meet<R: Wait>(&self, rt: &R, passes: &mut [Pass<L>])
        requires all { length passes.old ≡ L.callers }
        requires parts { L.callers ≡ L.parts }
        requires distinct { IsDistinct (callers_of passes.old) }
        ensures { AllMetNow passes.old passes.new }
    {
        let mut locked = self.lock.lock(rt);
        meet(rt, &mut *locked, passes);
        MutexGuard::unlock(locked);
    }

    /// Ends the map. Returns its state and what each caller did, in the order of the passes. On `NoMemory` the state is dropped.
    pub fn finish<R: Wait>(
        self,
        rt: &R,
        alloc: Global,
        passes: Vec<Pass<L>>,
    ) -> Result<(MapState, Vec<Ended>), NoMemory>
        requires all { length passes.items ≡ L.callers }
        requires parts { L.callers ≡ L.parts }
        requires distinct { IsDistinct (callers_of passes.items) }
        ensures lawful { IfOk result (λ r. IsLawful r.0.state) }
        ensures voxel { IfOk result (λ r. r.0.state.settings.voxel ≡ L.voxel) }
        ensures ended { IfOk result (λ r. AllEnded r.0.state.history passes.items) }
        ensures told { IfOk result (λ r. r.1.items ≡ map ended_of passes.items) }
    {
        let Shared { lock } = self;
        let mut locked = lock.into_inner();
        let mut passes = passes;
        let ended = ended_all(alloc, passes.as_slice());
        meet_last(rt, &mut locked, passes.as_mut_slice());
        let state = locked.end(rt);
        Ok((state, ended?))
    }

    /// Ends the map without its passes.
    pub fn close<R: Wait>(self, rt: &R) {
        let Shared { lock } = self;
        let locked = lock.into_inner();
        let _state = locked.end(rt);
    }
}
