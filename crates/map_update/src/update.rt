//! What an update makes of a tree and of what is watched of it, operation by operation.
ghost use Rattle.std.specs.Prelude.{◌≡◌, ◌+◌, ◌<◌, ◌≤◌, [], ◌∷◌, Some, length, IfOk};
ghost use Rattle.point_geom.specs.Place.{Place};
ghost use Rattle.map_items.specs.{declared.op.Op.{Op}, declared.op.Op.TheVariants.{Put}, Contents.{put}, Fold.{add_points, mark_boxes, points_in, step}};
ghost use Rattle.kd_tree.specs.{Contents.{contents}, Maps.{map_of}};
ghost use Rattle.map_update.specs.{Draft.{DoesPlainly, IsLawfulDraft, IsDrafted, KeepsDraft, KeepsWatched, MakesFew}, OnePoint.{IsRejected}};
ghost use Rattle.map_update.specs.Single.{most_ops, only_mark, only_op};

use crate::draft::{Draft, Drafted};
use crate::thin::thinned;
use kd_tree::{Scratch, Steps};
use kd_update::{PASS_FROM, live_items};
use map_items::{Choice, Cuboids, MAX_POINTS, Points, Settings, Tag, Update};
use point_geom::Point;
use std::alloc::Global;
use std::sync::ledger::Ledger;

/// The draft after the update, where `next` points were submitted before. What crosses a watched subtree is logged for
/// it; one whose log has no room for two operations more is rebuilt where it is before, and forgotten. On an
/// operation's way, what breaches a criterion is rebuilt if it is smaller than `large` and nothing in it is watched. On
/// `NoMemory` the draft is dropped. The time is that of the operations, by the subtrees that they meet; of a scan that
/// of few passes over what it meets.
pub fn changed<L: Ledger>(
    alloc: Global,
    draft: Draft,
    settings: &Settings,
    next: u32,
    update: &Update,
    scratch: &mut Scratch,
    steps: &mut Steps<L>,
) -> Drafted
    requires draft { IsLawfulDraft settings.now.large next draft }
    requires few { next + points_in update.now ≤ MAX_POINTS }
    ensures stepped { IfOk result (λ w. map_of w.tree (next + points_in update.now) ≡ step settings.now.voxel update.now (map_of draft.tree next)) }
    ensures draft { KeepsDraft settings.now.large next (next + points_in update.now) draft result }
    ensures kept { KeepsWatched (points_in update.now) (most_ops update.now) draft result }
    ensures unrebuilt { (op : Op) → only_op next update.now ≡ Some op → DoesPlainly settings.now.large op draft result }
    ensures nodes_made { (op : Op) → only_op next update.now ≡ Some op → MakesFew settings.now.large op draft steps.old steps.new }
    ensures rejected { (p : Place) → update.now ≡ Update.Thin (p ∷ []) → IsRejected settings.now.voxel (map_of draft.tree next) p
        → IfOk result (λ w. w.tree ≡ draft.tree) }
    ensures no_nodes_made { (p : Place) → update.now ≡ Update.Thin (p ∷ []) → IsRejected settings.now.voxel (map_of draft.tree next) p
        → steps.new ≡ steps.old }
{
    let large = settings.large();
    match update {
        Update::Add(points) => added(alloc, draft, large, next, points, scratch, steps),
        Update::Thin(points) => thinned(alloc, draft, settings, next, points, scratch, steps),
        Update::Delete(boxes) => marked_each(alloc, draft, large, next, boxes, Tag::DELETE, steps),
        Update::Suspend(boxes) => marked_each(
            alloc,
            draft,
            large,
            next,
            boxes,
            Tag::SUSPEND,
            steps,
        ),
        Update::Restore(boxes) => marked_each(
            alloc,
            draft,
            large,
            next,
            boxes,
            Tag::RESTORE,
            steps,
        ),
        Update::Expire(number) => {
            let choice = Choice::below(*number);
            draft.marked(alloc, large, &choice, Tag::DELETE, steps)
        }
    }
}

fn added<L: Ledger>(
    alloc: Global,
    draft: Draft,
    large: u32,
    next: u32,
    points: &Points,
    scratch: &mut Scratch,
    steps: &mut Steps<L>,
) -> Drafted
    requires draft { IsLawfulDraft large next draft }
    requires few { next + length points.now ≤ MAX_POINTS }
    ensures stepped { IfOk result (λ w. map_of w.tree (next + length points.now) ≡ add_points points.now (map_of draft.tree next)) }
    ensures draft { KeepsDraft large next (next + length points.now) draft result }
    ensures kept { KeepsWatched (length points.now) (length points.now) draft result }
    ensures unrebuilt { (op : Op) → only_op next (Update.Add points.now) ≡ Some op → DoesPlainly large op draft result }
    ensures nodes_made { (op : Op) → only_op next (Update.Add points.now) ≡ Some op → MakesFew large op draft steps.old steps.new }
{
    if points.len() >= PASS_FROM {
        let _size = draft.tree.size();
        let items = live_items(alloc, next, points.as_slice())?;
        return draft.put_items(alloc, large, items.as_slice(), scratch, steps);
    }
    let mut draft = draft;
    let mut next = next;
    for point in points.as_slice() {
        draft = added_one(alloc, draft, large, next, *point, steps)?;
        next += 1;
    }
    Ok(draft)
}

pub(crate) fn added_one<L: Ledger>(
    alloc: Global,
    draft: Draft,
    large: u32,
    next: u32,
    point: Point,
    steps: &mut Steps<L>,
) -> Drafted
    requires draft { IsLawfulDraft large next draft }
    requires few { next < MAX_POINTS }
    ensures contents { IfOk result (λ w. contents w.tree ≡ put (contents draft.tree) next point) }
    ensures draft { KeepsDraft large next (next + 1) draft result }
    ensures drafted { IfOk result (IsDrafted 1 1 draft) }
    ensures unrebuilt { DoesPlainly large (Put next point) draft result }
    ensures nodes_made { MakesFew large (Put next point) draft steps.old steps.new }
{
    let _size = draft.tree.size();
    draft.put(alloc, large, next, point, steps)
}

fn marked_each<L: Ledger>(
    alloc: Global,
    draft: Draft,
    large: u32,
    next: u32,
    boxes: &Cuboids,
    tag: Tag,
    steps: &mut Steps<L>,
) -> Drafted
    requires draft { IsLawfulDraft large next draft }
    ensures stepped { IfOk result (λ w. map_of w.tree next ≡ mark_boxes tag boxes.now (map_of draft.tree next)) }
    ensures draft { KeepsDraft large next next draft result }
    ensures kept { KeepsWatched 0 (length boxes.now) draft result }
    ensures unrebuilt { (op : Op) → only_mark tag boxes.now ≡ Some op → DoesPlainly large op draft result }
    ensures nodes_made { (op : Op) → only_mark tag boxes.now ≡ Some op → MakesFew large op draft steps.old steps.new }
{
    let mut draft = draft;
    for cuboid in boxes.as_slice() {
        draft = draft.marked(alloc, large, &Choice::within(cuboid), tag, steps)?;
    }
    Ok(draft)
}
