//! What a turn of the lock does with the state, the writer's place and a reader's.
ghost use Rattle.std.specs.Prelude.{◌≡◌, ◌≤◌, true, is_some, length, IfOk, OnErr, OnOk};
ghost use mathlib.Core.List.{IsPrefix};
ghost use Rattle.left_right.specs.Sides.{view};
ghost use Rattle.rebuild_core.specs.{Lawful.{IsLawful}, Steps.{entered}};
ghost use Rattle.shown_versions.specs.Rules.{IsPublishedAs};
ghost use Rattle.published_map.specs.Turns.{history_after};

use map_items::NoMemory;
use rebuild_core::{MapState, Planned};
use shown_versions::{
    MapName, MapReader, MapWriter, Mark, MarkList, Page, Published, publish, read_latest,
};
use std::sync::{Arc, Wait};

fn shown_by<L: MapName>(
    marks: &mut MarkList,
    state: &MapState,
    planned: &Planned,
) -> Result<Published<L>, NoMemory>
    requires marks { marks.old ≡ L.marks }
    requires voxel { state.now.state.settings.voxel ≡ L.voxel }
    requires lawful { IsLawful (entered planned.now state.now.state) }
    ensures same { marks.new ≡ marks.old }
    ensures shown { IfOk result (λ s. s ≡ history_after planned.now state.now.state) }
{
    let version = Arc::try_clone(planned.version())?;
    let Some(mark) = Mark::of(marks, &Page::of(state.told(), planned.entry())) else {
        return Err(NoMemory);
    };
    Ok(Published::new(version, mark))
}

fn publish_step<L: MapName, R: Wait>(
    rt: &R,
    state: &mut MapState,
    writer: &mut MapWriter<L>,
    planned: Planned,
    shown: Published<L>,
) -> Result<u64, NoMemory>
    requires at { IsPublishedAs (view writer.old.desk.place) writer.old.desk.shown.value state.old.state.history }
    requires lawful { IsLawful (entered planned state.old.state) }
    requires room { is_some planned.entry ≡ true → 1 ≤ state.old.spare }
    requires shown { shown ≡ history_after planned state.old.state }
    ensures at { IsPublishedAs (view writer.new.desk.place) writer.new.desk.shown.value state.new.state.history }
    ensures entered { OnOk result (state.new.state ≡ entered planned state.old.state) }
    ensures len { IfOk result (λ n. n ≡ length state.new.state.history) }

    ensures same { OnErr result (state.new.state ≡ state.old.state) }
{
    publish_version(rt, writer, shown)?;
    Ok(state.enter_step(planned))
}

fn publish_version<L: MapName, R: Wait>(
    rt: &R,
    writer: &mut MapWriter<L>,
    shown: Published<L>,
) -> Result<(), NoMemory>
    requires known { view writer.old.desk.place ≡ writer.old.desk.shown.value }
    requires longer { IsPrefix writer.old.desk.shown.value shown }
    ensures known { view writer.new.desk.place ≡ writer.new.desk.shown.value }
    ensures shown { OnOk result (writer.new.desk.shown.value ≡ shown) }

    ensures same { OnErr result (writer.new.desk.shown.value ≡ writer.old.desk.shown.value) }
{
    let Ok(()) = writer.append(shown) else {
        return Err(NoMemory);
    };
    let Ok(()) = publish(writer, rt) else {
        return Err(NoMemory);
    };
    Ok(())
}

/// Publishes a planned step and enters it. Returns the length of the history.
pub fn take_step<L: MapName, R: Wait>(
    rt: &R,
    marks: &mut MarkList,
    state: &mut MapState,
    writer: &mut MapWriter<L>,
    planned: Planned,
) -> Result<u64, NoMemory>
    requires marks { marks.old ≡ L.marks }
    requires voxel { state.old.state.settings.voxel ≡ L.voxel }
    requires at { IsPublishedAs (view writer.old.desk.place) writer.old.desk.shown.value state.old.state.history }
    requires lawful { IsLawful (entered planned state.old.state) }
    requires room { is_some planned.entry ≡ true → 1 ≤ state.old.spare }
    ensures marks { marks.new ≡ marks.old }
    ensures at { IsPublishedAs (view writer.new.desk.place) writer.new.desk.shown.value state.new.state.history }
    ensures entered { OnOk result (state.new.state ≡ entered planned state.old.state) }
    ensures len { IfOk result (λ n. n ≡ length state.new.state.history) }

    ensures same { OnErr result (state.new.state ≡ state.old.state) }
{
    let shown = shown_by::<L>(marks, state, &planned)?;
    publish_step(rt, state, writer, planned, shown)
}

/// Under the lock the reader's first try gets what is published, but no clause says so.
pub fn read_newest<L: MapName, R: Wait>(
    rt: &R,
    shown: &Published<L>,
    reader: &mut MapReader<L>,
) -> Published<L>
    ensures same { result ≡ shown.now }
    ensures at { view reader.new.place ≡ shown.now }
    ensures begins { IsPrefix (view reader.old.place) shown.now }
{
    for _ in rt.forever() {
        if let Some(found) = read_latest(reader) {
            if found.mark().is_same(shown.mark()) {
                return found;
            }
        }
    }
    unreachable!()
}
