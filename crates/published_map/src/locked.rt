//! What the lock guards. What a turn returns to be dropped is dropped once the lock is given back.
ghost use Rattle.std.specs.Prelude.{◌≡◌, ◌≤◌, None, IfErr, IfOk, IfSome, OnErr, OnOk};
ghost use mathlib.Core.List.{IsPrefix};
ghost use Rattle.rebuild_core.specs.{Lawful.{IsLawful}, Steps.{IsFault, IsSettleStep, entered}};
ghost use Rattle.shown_versions.specs.Marks.{Added, Grown, IsMade};
ghost use Rattle.published_map.specs.Answers.{Updated};

use crate::marked_subtree::MarkedSubtree;
use crate::pass::Pass;
use crate::retired::{Retired, Versions};
use crate::turn::{read_newest, take_step};
use left_right::Absorb;
use map_items::{Entry, NoMemory, Update};
use rebuild_core::{MapState, Planned};
use rebuild_parts::{DetachedItems, StateFault, Version};
use shown_versions::{MapName, MapWriter, MarkList, Published};
use std::alloc::Global;
use std::marker::Model;
use std::sync::ledger::{Book, Share};
use std::sync::{Arc, Wait};

/// The state, the writer's place, the marks and the book of all updates. Contracts see the state.
pub struct Locked<L: MapName>
where
    Published<L>: Absorb<Published<L>, State = [Entry; 0]>,
{
    pub(crate) state: MapState,
    pub(crate) writer: MapWriter<L>,
    pub(crate) marks: MarkList,
    pub(crate) book: Book<L>,
    // It has no part, and is lent to audits.
    pub(crate) audit_share: Share<L>,
    pub(crate) retired: Retired<L>,
    // The last of each slot.
    pub(crate) marked: Vec<MarkedSubtree<L>>,
}

impl<L: MapName> Model for Locked<L>
where
    Published<L>: Absorb<Published<L>, State = [Entry; 0]>,
{
    ghost use Rattle.std.specs.Prelude.{◌≡◌};
    ghost use Rattle.left_right.specs.Sides.{view as seat_view};
    ghost use Rattle.rebuild_core.specs.Lawful.{Stored};
    ghost use Rattle.published_map.specs.{Held.{IsWhole}, MarkedSubtrees.{AreTrueOf}};

    ghost Value = { Stored };

    ghost use Rattle.std.specs.Coded.{codes};
    ghost use Rattle.kd_tree.specs.ShapeCode.{coded_shape};

    ghost coded = { Prim.hlevel (codes, coded_shape) };

    ghost view = { λ s. s.state };

    ghost invariant = { λ s. (s.marks ≡ L.marks) × (s.state.state.settings.voxel ≡ L.voxel) × IsWhole (seat_view s.writer.desk.place) s.writer.desk.shown.value s.state.state.history s.book.total s.audit_share.parts s.audit_share.amount × AreTrueOf s.state.state s.marked.items };
}

impl<L: MapName> Locked<L> {
    /// `None` where it can't be shared once more.
    fn version(&self) -> Option<Arc<Version>>
        ensures { IfSome result (λ v. v.value ≡ self.now.state.version) }
    {
        Arc::try_clone(self.state.version()).ok()
    }

    // Retires what an update replaced, before which so many subtrees were detached. One whose log was full is rebuilt, and not
    // detached any more.
    fn retire(&mut self, former: Option<Arc<Version>>, detached: usize) -> Option<Arc<Version>>
        ensures same { self.new ≡ self.old }
    {
        let is_small = self.state.count_detached() == detached;
        let spent = self.retired.after_step(&mut self.state, former, is_small);
        self.retired.leave(spent)
    }

    /// What a swap or settling would free under the lock. The state has the second no more.
    pub fn take_versions(&mut self) -> Versions
        ensures same { self.new ≡ self.old }
    {
        (self.version(), self.state.take_former())
    }

    /// Retires what `take_versions` returned. After a refusal the other side still shows what is kept already, and the next update
    /// gets its memory after all.
    pub fn retire_swapped(&mut self, versions: Versions, has_published: bool) -> Versions
        ensures same { self.new ≡ self.old }
    {
        let (published, reused) = versions;
        if has_published {
            let spent = self.retired.after_step(&mut self.state, published, false);
            return (spent, reused);
        }
        if let Some(version) = reused {
            self.state.recycle(version);
        }
        (published, None)
    }

    pub fn is_newest(&self, kept: &Published<L>) -> bool {
        self.writer.published().mark().is_same(kept.mark())
    }

    /// Shares what the detached subtrees held: a turn that may free some drops it later.
    pub fn all_detached_items(&self) -> [Option<DetachedItems>; 4] {
        [
            self.state.detached_items_in(1),
            self.state.detached_items_in(2),
            self.state.detached_items_in(3),
            self.state.detached_items_in(4),
        ]
    }

    fn agree<R: Wait>(&mut self, rt: &R, pass: &mut Pass<L>)
        ensures same { self.new ≡ self.old }
        ensures pass { pass.new ≡ pass.old }
        ensures begins { IsPrefix pass.old.seen self.old.state.history }
    {
        let _whole = read_newest(rt, self.writer.published(), &mut pass.reader);
    }

    pub fn give<R: Wait>(&mut self, rt: &R, pass: &mut Pass<L>)
        ensures same { self.new ≡ self.old }
        ensures grown { Grown pass.old pass.new }
        ensures seen { pass.new.seen ≡ self.old.state.history }
        ensures made { IsMade self.old.state.history pass.new }
    {
        pass.kept = read_newest(rt, self.writer.published(), &mut pass.reader);
    }

    /// All memory is taken before the version is published.
    pub fn update<R: Wait>(
        &mut self,
        rt: &R,
        alloc: Global,
        pass: &mut Pass<L>,
        update: Update,
    ) -> (Result<u64, StateFault>, Option<Arc<Version>>)
        ensures updated { Updated L.voxel result.0 pass.old pass.new update }
        ensures same { OnErr result.0 (self.new.state ≡ self.old.state) }
    {
        let former = self.version();
        let detached = self.state.count_detached();
        let _history = self.state.history();
        self.agree(rt, pass);
        let fault = match self.make(rt, alloc, pass, update) {
            Ok(mark) => return (Ok(mark), self.retire(former, detached)),
            Err(fault) => fault,
        };
        if fault != StateFault::NoMemory {
            self.give(rt, pass);
        }
        (Err(fault), former)
    }

    fn make<R: Wait>(
        &mut self,
        rt: &R,
        alloc: Global,
        pass: &mut Pass<L>,
        update: Update,
    ) -> Result<u64, StateFault>
        requires begins { IsPrefix pass.old.seen self.old.state.history }
        ensures made { IfOk result (Added pass.old pass.new update) }

        ensures refused { IfErr result (IsFault update self.old.state) }
        ensures same { OnErr result (self.new.state ≡ self.old.state) }
        ensures pass { OnErr result (pass.new ≡ pass.old) }
    {
        let place = self.state.history().len() as u64;
        let planned = self
            .state
            .plan_update_uncounted(alloc, pass.caller, update)?;
        pass.marks.reserve(1)?;
        let (marks, state, writer) = (&mut self.marks, &mut self.state, &mut self.writer);
        let mark = take_step(rt, marks, state, writer, planned)?;
        self.book.add(&mut pass.share, 1);
        let shown = self.writer.published();
        pass.kept = read_newest(rt, shown, &mut pass.reader);
        pass.marks.push_reserved(place);
        Ok(mark)
    }

    pub fn settle<R: Wait>(&mut self, rt: &R, alloc: Global) -> (Result<(), NoMemory>, Versions)
        ensures settled { OnOk result.0 (IsSettleStep self.old.state self.new.state) }
        ensures same { OnErr result.0 (self.new.state ≡ self.old.state) }
    {
        let versions = self.take_versions();
        let done = match self.state.plan_settle(alloc) {
            Ok(planned) => self.step(rt, planned),
            Err(none) => Err(none),
        };
        let spent = self.retire_swapped(versions, done.is_ok());
        (done, spent)
    }

    // For a step that is no update.
    pub(crate) fn step<R: Wait>(&mut self, rt: &R, planned: Planned) -> Result<(), NoMemory>
        requires lawful { IsLawful (entered planned self.old.state) }
        requires none { planned.entry ≡ None }
        ensures entered { OnOk result (self.new.state ≡ entered planned self.old.state) }
        ensures same { OnErr result (self.new.state ≡ self.old.state) }
    {
        let (marks, state, writer) = (&mut self.marks, &mut self.state, &mut self.writer);
        take_step(rt, marks, state, writer, planned)?;
        Ok(())
    }

    pub fn end<R: Wait>(self, rt: &R) -> MapState
        ensures same { result ≡ self }
        ensures lawful { IsLawful result.state }
        ensures voxel { result.state.settings.voxel ≡ L.voxel }
    {
        let Locked {
            state,
            writer,
            marks: _marks,
            book: _book,
            audit_share: _audit_share,
            retired: _retired,
            marked: _marked,
        } = self;
        writer.take(rt);
        let _history = state.history();
        state
    }
}
