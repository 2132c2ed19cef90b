//! Points that thin their voxels, while a tree is watched. Nothing here knows the state.
ghost use Rattle.std.specs.Prelude.{◌≡◌, ◌+◌, ◌*◌, ◌≤◌, ◌<◌, [], ◌∷◌, length, IfOk};
ghost use Rattle.point_geom.specs.Place.{Place};
ghost use Rattle.node_labels.specs.Labels.{thin_tag};
ghost use Rattle.map_items.specs.{Contents.{in_box, mark, put, thin}, Fold.{thin_points}, Ops.{IsUnheld}};
ghost use Rattle.kd_tree.specs.{Contents.{contents}, Maps.{map_of}};
ghost use Rattle.map_update.specs.{Draft.{IsLawfulDraft, IsDrafted, KeepsDraft, KeepsWatched}, OnePoint.{IsRejected}};

use crate::draft::{Draft, Drafted};
use crate::update::added_one;
use crate::waiting::thinned_at_once;
use kd_search::{Rivals, rivals_in};
use kd_tree::{Scratch, Steps};
use kd_update::PASS_FROM;
use map_items::{Choice, Item, MAX_POINTS, Points, Settings, Tag};
use point_geom::{Cuboid, Point, voxel};
use std::alloc::Global;
use std::sync::ledger::Ledger;

pub(crate) fn thinned<L: Ledger>(
    alloc: Global,
    draft: Draft,
    settings: &Settings,
    next: u32,
    points: &Points,
    scratch: &mut Scratch,
    steps: &mut Steps<L>,
) -> Drafted
    requires draft { IsLawfulDraft settings.now.large next draft }
    requires few { next + length points.now ≤ MAX_POINTS }
    ensures stepped { IfOk result (λ w. map_of w.tree (next + length points.now) ≡ thin_points settings.now.voxel points.now (map_of draft.tree next)) }
    ensures draft { KeepsDraft settings.now.large next (next + length points.now) draft result }
    ensures kept { KeepsWatched (length points.now) (2 * length points.now) draft result }
    ensures rejected { (p : Place) → points.now ≡ p ∷ [] → IsRejected settings.now.voxel (map_of draft.tree next) p
        → IfOk result (λ w. w.tree ≡ draft.tree) }
    ensures no_nodes_made { (p : Place) → points.now ≡ p ∷ [] → IsRejected settings.now.voxel (map_of draft.tree next) p
        → steps.new ≡ steps.old }
{
    if points.len() >= PASS_FROM && draft.may_thin_at_once(points.len()) {
        let points = points.as_slice();
        return thinned_at_once(alloc, draft, settings, next, points, scratch, steps);
    }
    let mut draft = draft;
    let mut next = next;
    for point in points.as_slice() {
        draft = thinned_one(alloc, draft, settings, next, *point, steps)?;
        next += 1;
    }
    Ok(draft)
}

// A point that changes nothing makes no node.
fn thinned_one<L: Ledger>(
    alloc: Global,
    draft: Draft,
    settings: &Settings,
    next: u32,
    point: Point,
    steps: &mut Steps<L>,
) -> Drafted
    requires draft { IsLawfulDraft settings.now.large next draft }
    requires few { next < MAX_POINTS }
    ensures contents { IfOk result (λ w. contents w.tree ≡ thin settings.now.voxel (contents draft.tree) next point) }
    ensures draft { KeepsDraft settings.now.large next (next + 1) draft result }
    ensures drafted { IfOk result (IsDrafted 1 2 draft) }
    ensures rejected { IsRejected settings.now.voxel (map_of draft.tree next) point → IfOk result (λ w. w.tree ≡ draft.tree) }
    ensures no_nodes_made { IsRejected settings.now.voxel (map_of draft.tree next) point → steps.new ≡ steps.old }
{
    let _size = draft.tree.size();
    let large = settings.large();
    let cube = voxel(&point, settings.voxel());
    let Rivals { best, count } = rivals_in(&draft.tree, &cube);
    let Some(held) = best else {
        return added_one(alloc, draft, large, next, point, steps);
    };
    let new = Item::live(next, point);
    if new.comes_before(&held, &cube) {
        return left_alone(alloc, draft, large, next, &cube, new, steps);
    }
    if count == 1 {
        return Ok(draft);
    }
    left_alone(alloc, draft, large, next, &cube, held, steps)
}

fn left_alone<L: Ledger>(
    alloc: Global,
    draft: Draft,
    large: u32,
    next: u32,
    cuboid: &Cuboid,
    item: Item,
    steps: &mut Steps<L>,
) -> Drafted
    requires draft { IsLawfulDraft large next draft }
    requires few { next < MAX_POINTS }
    requires below { item.number < next + 1 }
    requires new { IsUnheld item.number (mark (contents draft.tree) (in_box cuboid.now) thin_tag) }
    ensures contents { IfOk result (λ w. contents w.tree ≡ put (mark (contents draft.tree) (in_box cuboid.now) thin_tag) item.number item.point) }
    ensures draft { KeepsDraft large next (next + 1) draft result }
    ensures drafted { IfOk result (IsDrafted 1 2 draft) }
{
    let draft = draft.marked(alloc, large, &Choice::within(cuboid), Tag::THIN, steps)?;
    let _size = draft.tree.size();
    draft.put(alloc, large, item.number, item.point, steps)
}
