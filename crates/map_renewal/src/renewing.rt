ghost use Rattle.std.specs.Prelude.{◌≡◌, ◌+◌, ◌<◌, ◌≤◌, [], ◌∷◌, ◌++◌, length, IfOk, OnOk};
ghost use Rattle.node_labels.specs.declared.label.Label.TheVariants.{Live, Suspended};
ghost use Rattle.map_items.specs.Contents.{live_items};
ghost use Rattle.kd_tree.specs.Contents.{contents};
ghost use Rattle.rebuild_core.specs.Steps.{HasRoom, IsUpdateStep};
ghost use Rattle.map_renewal.specs.Renewed.{IsAdded, all_places, numbered_as, points_of, points_with, renewed_items, suspended_items};

use crate::everywhere::{everywhere, look_at};
use map_fold::{Cuboids, Item, Label, MAX_POINTS, NoMemory, Points, Settings, Update};
use point_geom::Point;
use rebuild_core::{MAX_UPDATES, MapState, StateFault, Version};
use std::alloc::Global;

/// A new map of the version's points: first the suspended ones, numbered from 0 on, and then the live ones, each kind
/// in its old order. So only numbers change. The history has three updates at most.
pub fn renewed(alloc: Global, version: &Version, settings: Settings) -> Result<MapState, NoMemory>
    ensures held { IfOk result (λ s. contents s.state.tree ≡ renewed_items (contents version.now.tree)) }
    ensures next { IfOk result (λ s. s.state.next ≡ length (contents version.now.tree)) }
    ensures settings { IfOk result (λ s. s.state.settings ≡ settings) }
    ensures short { IfOk result (λ s. length s.state.history ≤ 3) }

    // So points and intensities are the same, in the same order.
    ensures live { IfOk result (λ s. points_of (live_items (contents s.state.tree)) ≡ points_of (live_items (contents version.now.tree))) }
    ensures suspended { IfOk result (λ s. points_of (suspended_items (contents s.state.tree)) ≡ points_of (suspended_items (contents version.now.tree))) }
{
    let _size = version.tree().size();
    let items = version.tree().flatten(alloc)?;
    let suspended = points_with(alloc, items.as_slice(), Label::Suspended)?;
    let live = points_with(alloc, items.as_slice(), Label::Live)?;
    let state = of_points(alloc, suspended.as_slice(), live.as_slice(), settings)?;
    Ok(state)
}

fn of_points(
    alloc: Global,
    suspended: &[Point],
    live: &[Point],
    settings: Settings,
) -> Result<MapState, NoMemory>
    requires few { length suspended.now + length live.now ≤ MAX_POINTS }
    ensures held { IfOk result (λ s. contents s.state.tree ≡ numbered_as Suspended 0 suspended.now ++ numbered_as Live (length suspended.now) live.now) }
    ensures next { IfOk result (λ s. s.state.next ≡ length suspended.now + length live.now) }
    ensures settings { IfOk result (λ s. s.state.settings ≡ settings) }
    ensures short { IfOk result (λ s. length s.state.history ≤ 3) }
{
    look_at(suspended);
    let mut state = MapState::new(alloc, settings)?;
    add(alloc, &mut state, suspended)?;
    one_more(alloc, &mut state, Update::Suspend(all_of_it(alloc)?))?;
    add(alloc, &mut state, live)?;
    Ok(state)
}

// An empty list makes no update.
fn add(alloc: Global, state: &mut MapState, points: &[Point]) -> Result<(), NoMemory>
    requires few { state.old.state.next + length points.now ≤ MAX_POINTS }
    requires short { length state.old.state.history < MAX_UPDATES }
    ensures { OnOk result (IsAdded points.now state.old.state state.new.state) }
{
    if points.is_empty() {
        return Ok(());
    }
    let points = Points::from(Vec::from_slice(alloc, points)?);
    one_more(alloc, state, Update::Add(points))
}

fn points_with(alloc: Global, items: &[Item], label: Label) -> Result<Points, NoMemory>
    ensures { IfOk result (λ points. points ≡ points_with label items.now) }
{
    let mut points = Points::new(alloc);
    for item in items {
        if item.label == label {
            points.push(item.point)?;
        }
    }
    Ok(points)
}

fn all_of_it(alloc: Global) -> Result<Cuboids, NoMemory>
    ensures { IfOk result (λ boxes. boxes ≡ all_places ∷ []) }
{
    let mut boxes = Cuboids::new(alloc);
    boxes.push(everywhere())?;
    Ok(boxes)
}

// There is room for it, so only `NoMemory` refuses it.
fn one_more(alloc: Global, state: &mut MapState, update: Update) -> Result<(), NoMemory>
    requires room { HasRoom update state.old.state }
    ensures { OnOk result (IsUpdateStep 1 update state.old.state state.new.state) }
{
    match state.update_uncounted(alloc, 1, update) {
        Ok(_) => Ok(()),
        Err(StateFault::NoMemory) => Err(NoMemory),
        Err(StateFault::TooManyUpdates { .. } | StateFault::TooManyPoints { .. }) => unreachable!(),
    }
}
