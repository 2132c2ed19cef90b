//! How sharing begins.
ghost use Rattle.std.specs.Prelude.{◌≡◌, ◌+◌, ◌<◌, ◌≤◌, ℕ, [], length, slice_get, Some, IfOk};
ghost use Rattle.left_right.specs.Sides.{view};
ghost use Rattle.shown_versions.specs.Marks.{seen_by_new};

use crate::pass::Pass;
use map_items::NoMemory;
use rebuild_core::MapState;
use shown_versions::{
    MapName, MapWriter, Mark, MarkList, Page, Published, make_pair, place_reader,
};
use std::alloc::Global;
use std::sync::Arc;
use std::sync::ledger::Share;

/// Both sides show the state's version.
pub fn opened_pair<L: MapName>(
    alloc: Global,
    state: &MapState,
    marks: &mut MarkList,
    callers: u8,
) -> Result<MapWriter<L>, NoMemory>
    requires callers { 1 ≤ callers }
    requires marks { marks.old ≡ L.marks }
    requires empty { state.now.state.history ≡ [] }
    requires voxel { state.now.state.settings.voxel ≡ L.voxel }
    ensures same { marks.new ≡ marks.old }
    ensures shown { IfOk result (λ w. w.desk.shown.value ≡ []) }
    ensures known { IfOk result (λ w. view w.desk.place ≡ []) }
{
    let first = opening(state, marks)?;
    let second = first.try_clone()?;
    Ok(make_pair(alloc, first, second, callers as usize)?)
}

fn opening<L: MapName>(state: &MapState, marks: &mut MarkList) -> Result<Published<L>, NoMemory>
    requires marks { marks.old ≡ L.marks }
    requires empty { state.now.state.history ≡ [] }
    requires voxel { state.now.state.settings.voxel ≡ L.voxel }
    ensures same { marks.new ≡ marks.old }
    ensures shown { IfOk result (λ s. s ≡ []) }
{
    let _history = state.history();
    let version = Arc::try_clone(state.version())?;
    let Some(mark) = Mark::of(marks, &Page::of(state.told(), &None)) else {
        return Err(NoMemory);
    };
    Ok(Published::new(version, mark))
}

fn made_pass<L: MapName>(
    alloc: Global,
    caller: u8,
    writer: &MapWriter<L>,
    share: Share<L>,
) -> Result<Pass<L>, NoMemory>
    requires caller_from { 1 ≤ caller }
    requires caller_to { caller ≤ 8 }
    requires empty { writer.now.desk.shown.value ≡ [] }
    requires part { share.parts ≡ 1 }
    requires amount { share.amount ≡ 0 }
    ensures { IfOk result (λ p. p ≡ seen_by_new caller) }
{
    let reader = place_reader(writer)?;
    let kept = writer.published().try_clone()?;
    Ok(Pass::new(alloc, caller, reader, kept, share))
}

pub fn made_passes<L: MapName>(
    alloc: Global,
    writer: &MapWriter<L>,
    share: Share<L>,
    callers: u8,
) -> Result<Vec<Pass<L>>, NoMemory>
    requires few { callers ≤ 8 }
    requires empty { writer.now.desk.shown.value ≡ [] }
    requires parts { share.parts ≡ callers }
    requires amount { share.amount ≡ 0 }
    ensures all { IfOk result (λ v. length v.items ≡ callers) }
    ensures new { IfOk result (λ v. (k : ℕ) → k < callers → slice_get v.items k ≡ Some (seen_by_new (k + 1))) }
{
    let mut share = share;
    let mut passes = Vec::new(alloc);
    for index in 0..callers {
        let pass = made_pass(alloc, index + 1, writer, share.split_off(1, 0))?;
        let Ok(()) = passes.push(pass) else {
            return Err(NoMemory);
        };
    }
    Ok(passes)
}
