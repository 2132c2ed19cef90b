//! Points that have won their voxels, and wait to be put at once. Nothing here knows the state.
ghost use Rattle.std.specs.Prelude.{◌≡◌, ℕ, ◌+◌, ◌*◌, ◌≤◌, ◌<◌, [], ◌∷◌, ◌++◌, ◌↔◌, ◌==◌, if◌then◌else◌, All, length, IfOk, IfSome, IsNone};
ghost use Rattle.point_geom.specs.Boxes.{unit_box, voxel};
ghost use Rattle.node_labels.specs.{Labels.{thin_tag}, declared.label.Label.TheVariants.{Live}};
ghost use Rattle.map_fold.specs.Answers.{count, inside_all};
ghost use Rattle.map_items.specs.{Contents.{in_box, mark, put, thin}, Fold.{thin_points}, Ops.{IsUnheld}};
ghost use Rattle.kd_tree.specs.{Shape.{numbers}, Contents.{contents}, Maps.{map_of}};
ghost use Rattle.kd_search.specs.Best.{IsBest};
ghost use Rattle.map_update.specs.Draft.{IsLawfulDraft, KeepsDraft, KeepsWatched};
ghost use Rattle.map_update.specs.Waiting.{IsClear, IsJoined, IsWaiting, contents_of, left_in};

use crate::draft::{Draft, Drafted};
use crate::entrants::{Entrant, firsts};
use kd_search::{Rivals, rivals_in};
use kd_tree::{Scratch, Steps};
use map_items::{Item, MAX_POINTS, NoMemory, Settings};
use point_geom::{Cuboid, Point};
use std::alloc::Global;
use std::sync::ledger::Ledger;

// A tree, boxes that are to be thinned in it, and live items that are to be put then. A rejected point makes no node.
#[derive(Drop)]
pub(crate) struct Waiting {
    pub(crate) draft: Draft,
    pub(crate) cuboids: Vec<Cuboid>,
    pub(crate) items: Vec<Item>,
}

// The result doesn't depend on the order of the voxels, and in a voxel only the first point counts: so the tree is
// searched once a voxel and stays as it is meanwhile; then all voxels that lose something are thinned at once, and all
// that won are put at once.
pub(crate) fn thinned_at_once<L: Ledger>(
    alloc: Global,
    draft: Draft,
    settings: &Settings,
    next: u32,
    points: &[Point],
    scratch: &mut Scratch,
    steps: &mut Steps<L>,
) -> Drafted
    requires draft { IsLawfulDraft settings.now.large next draft }
    requires few { next + length points.now ≤ MAX_POINTS }
    ensures stepped { IfOk result (λ w. map_of w.tree (next + length points.now) ≡ thin_points settings.now.voxel points.now (map_of draft.tree next)) }
    ensures draft { KeepsDraft settings.now.large next (next + length points.now) draft result }
    ensures kept { KeepsWatched (length points.now) (2 * length points.now) draft result }
{
    let large = settings.large();
    let high = next + points.len() as u32;
    let entrants = firsts(alloc, settings, next, points)?;
    let _size = draft.tree.size();
    let mut waiting = Waiting::none(alloc, draft);
    for entrant in entrants.as_slice() {
        waiting = waiting.thinned(settings, high, entrant)?;
    }
    waiting.put(alloc, large, high, scratch, steps)
}

impl Waiting {
    fn none(alloc: Global, draft: Draft) -> Waiting
        ensures held { contents_of result ≡ contents draft.tree }
        ensures waiting { (high : ℕ) → All (λ n. n < high) (numbers draft.tree) → IsWaiting high result }
        ensures same { result.draft ≡ draft }
        ensures unthinned { result.cuboids.items ≡ [] }
        ensures none { result.items.items ≡ [] }
    {
        let _size = draft.tree.size();
        Waiting {
            draft,
            cuboids: Vec::new(alloc),
            items: Vec::new(alloc),
        }
    }

    fn put<L: Ledger>(
        self,
        alloc: Global,
        large: u32,
        high: u32,
        scratch: &mut Scratch,
        steps: &mut Steps<L>,
    ) -> Drafted
        requires waiting { IsWaiting high self }
        requires draft { IsLawfulDraft large high self.draft }
        requires few { high ≤ MAX_POINTS }
        ensures held { IfOk result (λ w. contents w.tree ≡ contents_of self) }
        ensures draft { KeepsDraft large high high self.draft result }
        ensures kept { KeepsWatched (length self.items.items) (length self.cuboids.items + length self.items.items) self.draft result }
    {
        let Waiting {
            draft,
            mut cuboids,
            items,
        } = self;
        let _size = draft.tree.size();
        let draft = draft.cleared(alloc, large, cuboids.as_mut_slice(), steps)?;
        draft.put_items(alloc, large, items.as_slice(), scratch, steps)
    }

    // Nothing that waits lies in the entrant's voxel, and no box that is to be thinned meets it, so the tree alone is
    // searched.
    fn thinned(self, settings: &Settings, high: u32, entrant: &Entrant) -> Result<Waiting, NoMemory>
        requires waiting { IsWaiting high self }
        requires cube { entrant.now.cube ≡ voxel settings.now.voxel entrant.now.item.point }
        requires live { entrant.now.item.label ≡ Live }
        requires below { entrant.now.item.number < high }
        requires new { IsUnheld entrant.now.item.number (contents_of self) }
        requires clear { IsClear entrant.now.cube self }
        ensures held { IfOk result (λ w. contents_of w ≡ thin settings.now.voxel (contents_of self) entrant.now.item.number entrant.now.item.point) }
        ensures waiting { IfOk result (λ w. IsWaiting high w) }
        ensures joined { IfOk result (IsJoined entrant.now.cube self) }
        ensures draft { IfOk result (λ w. w.draft ≡ self.draft) }
    {
        let _edge = settings.voxel();
        let Entrant { item: new, cube } = *entrant;
        let Rivals { best, count } = self.rivals(high, &cube);
        let Some(best) = best else {
            return self.with(high, new);
        };
        if new.comes_before(&best, &cube) {
            let cleared = self.cleared(high, &lost(&best, count, &cube))?;
            return cleared.with(high, new);
        }
        if count == 1 {
            return Ok(self);
        }
        let cleared = self.cleared(high, &cube)?;
        cleared.with(high, best)
    }

    fn rivals(&self, high: u32, cuboid: &Cuboid) -> Rivals
        requires waiting { IsWaiting high self.now }
        requires clear { IsClear cuboid.now self.now }
        ensures none { IsNone result.best ↔ (inside_all (contents_of self.now) cuboid.now ≡ []) }
        ensures best { IfSome result.best (IsBest (contents_of self.now) cuboid.now) }
        ensures count { result.count ≡ count (contents_of self.now) cuboid.now }
    {
        let _size = self.draft.tree.size();
        rivals_in(&self.draft.tree, cuboid)
    }

    fn cleared(self, high: u32, cuboid: &Cuboid) -> Result<Waiting, NoMemory>
        requires waiting { IsWaiting high self }
        requires clear { IsClear cuboid.now self }
        ensures held { IfOk result (λ w. contents_of w ≡ mark (contents_of self) (in_box cuboid.now) thin_tag) }
        ensures waiting { IfOk result (λ w. IsWaiting high w) }
        ensures same { IfOk result (λ w. w.items.items ≡ self.items.items) }
        ensures one { IfOk result (λ w. w.cuboids.items ≡ self.cuboids.items ++ cuboid.now ∷ []) }
        ensures draft { IfOk result (λ w. w.draft ≡ self.draft) }
    {
        let Waiting {
            draft,
            mut cuboids,
            items,
        } = self;
        let _size = draft.tree.size();
        cuboids.push(*cuboid)?;
        Ok(Waiting {
            draft,
            cuboids,
            items,
        })
    }

    fn with(self, high: u32, item: Item) -> Result<Waiting, NoMemory>
        requires waiting { IsWaiting high self }
        requires live { item.label ≡ Live }
        requires below { item.number < high }
        requires new { IsUnheld item.number (contents_of self) }
        ensures held { IfOk result (λ w. contents_of w ≡ put (contents_of self) item.number item.point) }
        ensures waiting { IfOk result (λ w. IsWaiting high w) }
        ensures one { IfOk result (λ w. w.items.items ≡ self.items.items ++ item ∷ []) }
        ensures same { IfOk result (λ w. w.cuboids.items ≡ self.cuboids.items) }
        ensures draft { IfOk result (λ w. w.draft ≡ self.draft) }
    {
        let Waiting {
            draft,
            cuboids,
            mut items,
        } = self;
        items.push(item)?;
        Ok(Waiting {
            draft,
            cuboids,
            items,
        })
    }
}

// Where the voxel loses one item, its place alone: fewer nodes meet that.
fn lost(best: &Item, count: u32, cube: &Cuboid) -> Cuboid
    ensures { result ≡ (if count == 1 then unit_box best.now.point else cube.now) }
{
    if count == 1 {
        Cuboid::unit(&best.point)
    } else {
        *cube
    }
}
