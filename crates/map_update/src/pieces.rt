//! Boxes thinned and items put in as few passes as may be, while a tree is watched. Nothing here knows where they come from.
ghost use Rattle.std.specs.Prelude.{◌≡◌, ℕ, ◌<◌, ◌≤◌, List, length, All, IfOk};
ghost use Rattle.node_labels.specs.Labels.{thin_tag};
ghost use Rattle.map_items.specs.Contents.{mark};
ghost use Rattle.kd_tree.specs.Contents.{contents};
ghost use Rattle.kd_update.specs.{Crossing.{HaveRoomAtOnce}, Scan.{MayJoin, put_each}, Detached.{PartAt}};
ghost use Rattle.map_update.specs.{Clearing.{in_some}, Draft.{IsDraft, IsDraftLeft, IsLawfulDraft, IsDrafted, KeepsDraft, KeepsWatched}, Pieces.{MayPass}};

use crate::clear::cleared_at_once;
use crate::draft::{Draft, Drafted};
use kd_mark::Watch;
use kd_tree::{MAX_NODES, Scratch, Steps};
use kd_update::{MAX_PASS_LEVELS, PASS_FROM, put_all, put_all_watched};
use map_items::{Choice, Item, Tag};
use point_geom::Cuboid;
use std::alloc::Global;
use std::sync::ledger::Ledger;

impl Draft {
    // Drops what is live in any of the cuboids: in one pass where nothing is watched, and else box by box, as each is
    // logged.
    pub(crate) fn cleared<L: Ledger>(
        self,
        alloc: Global,
        large: u32,
        cuboids: &mut [Cuboid],
        steps: &mut Steps<L>,
    ) -> Drafted
        requires draft { (next : ℕ) × IsLawfulDraft large next self }
        ensures contents { IfOk result (λ w. contents w.tree ≡ mark (contents self.tree) (in_some cuboids.old) thin_tag) }
        ensures draft { (next : ℕ) → KeepsDraft large next next self result }
        ensures drafted { IfOk result (IsDrafted 0 (length cuboids.old) self) }
    {
        if self.watches.len() > 0 {
            return self.cleared_singly(alloc, large, cuboids, steps);
        }
        let Draft { tree, watches } = self;
        let _size = tree.size();
        let tree = cleared_at_once(alloc, tree, large, cuboids, steps)?;
        Ok(Draft { tree, watches })
    }

    fn cleared_singly<L: Ledger>(
        self,
        alloc: Global,
        large: u32,
        cuboids: &[Cuboid],
        steps: &mut Steps<L>,
    ) -> Drafted
        requires draft { (next : ℕ) × IsLawfulDraft large next self }
        ensures contents { IfOk result (λ w. contents w.tree ≡ mark (contents self.tree) (in_some cuboids.now) thin_tag) }
        ensures draft { (next : ℕ) → KeepsDraft large next next self result }
        ensures drafted { IfOk result (IsDrafted 0 (length cuboids.now) self) }
    {
        let _size = self.tree.size();
        let mut draft = self;
        for cuboid in cuboids {
            draft = draft.marked(alloc, large, &Choice::within(cuboid), Tag::THIN, steps)?;
        }
        Ok(draft)
    }

    // `put_all` where nothing is watched. Else a pass takes what each log has room for, and where that is little an
    // item is put alone, after full logs are forgotten.
    pub(crate) fn put_items<L: Ledger>(
        self,
        alloc: Global,
        large: u32,
        items: &[Item],
        scratch: &mut Scratch,
        steps: &mut Steps<L>,
    ) -> Drafted
        requires draft { (next : ℕ) × IsLawfulDraft large next self × All (λ i. i.number < next) items.now }
        requires fit { MayJoin (contents self.tree) items.now }
        ensures contents { IfOk result (λ w. contents w.tree ≡ put_each (contents self.tree) items.now) }
        ensures draft { (next last : ℕ) (ps : List PartAt) → All (λ i. i.number < next) items.now → IsDraft large next last ps self
            → IfOk result (IsDraftLeft large next last ps) }
        ensures kept { KeepsWatched (length items.now) (length items.now) self result }
    {
        if self.watches.len() == 0 {
            let Draft { tree, watches } = self;
            let tree = put_all(alloc, tree, large, items, scratch, steps)?;
            return Ok(Draft { tree, watches });
        }
        let mut draft = self;
        let mut rest = items;
        while !rest.is_empty() {
            let count = draft.most_at_once(large, rest.len());
            let (piece, more) = rest.split_at(count);
            draft = draft.put_piece(alloc, large, piece, scratch, steps)?;
            rest = more;
        }
        Ok(draft)
    }

    // A voxel adds a mark, which may be two operations, and a point to a log; and the points may add an action that is
    // handed down to them.
    pub(crate) fn may_thin_at_once(&self, points: usize) -> bool {
        self.watches.len() == 0 || points < least_room(self.watches.as_slice()) as usize / 3
    }

    // One alone where a pass would take few.
    fn most_at_once(&self, large: u32, wanted: usize) -> usize
        requires { 1 ≤ wanted }
        ensures some { 1 ≤ result }
        ensures within { result ≤ wanted }
        ensures pass { 1 < result → MayPass large result self.now }
    {
        let size = self.tree.size();
        if self.tree.levels() > MAX_PASS_LEVELS || size >= MAX_NODES {
            return 1;
        }
        let room = least_room(self.watches.as_slice());
        let most = (large.clamp(2, MAX_NODES) - 1)
            .min(MAX_NODES - size)
            .min(room) as usize;
        let count = most.min(wanted);
        if count < PASS_FROM {
            return 1;
        }
        count
    }

    fn put_piece<L: Ledger>(
        self,
        alloc: Global,
        large: u32,
        piece: &[Item],
        scratch: &mut Scratch,
        steps: &mut Steps<L>,
    ) -> Drafted
        requires draft { (next : ℕ) × IsLawfulDraft large next self }
        requires fit { MayJoin (contents self.tree) piece.now }
        requires pass { 1 < length piece.now → MayPass large (length piece.now) self }
        ensures contents { IfOk result (λ w. contents w.tree ≡ put_each (contents self.tree) piece.now) }
        ensures draft { (next last : ℕ) (ps : List PartAt) → All (λ i. i.number < next) piece.now → IsDraft large next last ps self
            → IfOk result (IsDraftLeft large next last ps) }
        ensures drafted { IfOk result (IsDrafted (length piece.now) (length piece.now) self) }
    {
        let Some((item, others)) = piece.split_first() else {
            return Ok(self);
        };
        if others.is_empty() {
            return self.put(alloc, large, item.number, item.point, steps);
        }
        let Draft { tree, mut watches } = self;
        let tree = put_all_watched(alloc, tree, large, piece, &mut watches, scratch, steps)?;
        Ok(Draft { tree, watches })
    }
}

// With two operations to spare in each.
fn least_room(watches: &[Watch]) -> u32
    ensures { (n : ℕ) → 1 ≤ n → n ≤ result → HaveRoomAtOnce n watches.now }
{
    let Some((watch, rest)) = watches.split_first() else {
        return MAX_NODES;
    };
    watch.log.room().saturating_sub(2).min(least_room(rest))
}
