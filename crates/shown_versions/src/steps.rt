//! The steps on the published version.
ghost use Rattle.std.specs.Prelude.{◌≡◌, ◌^◌, ◌<◌, [], fold, drop, IfOk, IfSome, MatchResult};
ghost use mathlib.Core.List.{IsPrefix};
ghost use Rattle.left_right.specs.Sides.{view};

use crate::name::MapName;
use crate::published::Published;
use crate::rule::{Enters, Follows, Publishes};
use core::mem::replace_with;
use left_right::reader::Reader;
use left_right::writer::Writer;
use map_items::Entry;
use std::alloc::{AllocError, Global};
use std::collections::LinkedList;
use std::sync::Wait;

/// A reader's place, which knows the history of the version that it got last.
pub type MapReader<L> = Reader<Published<L>, LinkedList<Entry>, Follows>;

/// The writer's place, which has both sides.
pub type MapWriter<L> = Writer<Published<L>, Published<L>, LinkedList<Entry>, Follows>;

/// Makes both sides, for at most `readers` readers.
pub fn make_pair<L: MapName>(
    alloc: Global,
    first: Published<L>,
    second: Published<L>,
    readers: usize,
) -> Result<MapWriter<L>, AllocError>
    requires readers { (0 < readers) × (readers < 2 ^ 32) }
    requires opening { (first ≡ []) × (second ≡ []) }
    ensures { IfOk result (λ w. (w.desk.shown.value ≡ []) × (view w.desk.place ≡ [])) }
{
    Writer::new(alloc, first, second, readers)
}

pub fn place_reader<L: MapName>(writer: &MapWriter<L>) -> Result<MapReader<L>, AllocError>
    ensures { IfOk result (λ r. view r.place ≡ []) }
{
    writer.factory().reader()
}

fn published_by_rule<L: MapName, R: Wait>(
    writer: MapWriter<L>,
    rt: &R,
) -> (MapWriter<L>, Result<(), AllocError>)
    requires knows { view writer.desk.place ≡ writer.desk.shown.value }
    requires grows { IsPrefix writer.desk.shown.value (fold (λ _ s. s) writer.desk.shown.value (drop writer.behind writer.log.items)) }
    ensures values { MatchResult result.1 (λ _. result.0.desk.shown.value ≡ fold (λ _ s. s) writer.desk.shown.value (drop writer.behind writer.log.items)) (λ _. result.0.desk.shown.value ≡ writer.desk.shown.value) }
    ensures knows { view result.0.desk.place ≡ result.0.desk.shown.value }
{
    writer.publish_as::<Publishes, R>(rt)
}

fn entered_by_rule<L: MapName>(reader: MapReader<L>) -> (MapReader<L>, Option<Published<L>>)
    ensures keeps { IsPrefix (view reader.place) (view result.0.place) }
    ensures seen { IfSome result.1 (λ s. view result.0.place ≡ s) }
{
    match reader.enter_as::<Enters>() {
        Ok(reading) => {
            let shown = reading.get().try_clone().ok();
            (reading.leave(), shown)
        }
        Err(reader) => (reader, None),
    }
}

/// Publishes the last pending version.
pub fn publish<L: MapName, R: Wait>(writer: &mut MapWriter<L>, rt: &R) -> Result<(), AllocError>
    requires knows { view writer.old.desk.place ≡ writer.old.desk.shown.value }
    requires grows { IsPrefix writer.old.desk.shown.value (fold (λ _ s. s) writer.old.desk.shown.value (drop writer.old.behind writer.old.log.items)) }
    ensures values { MatchResult result (λ _. writer.new.desk.shown.value ≡ fold (λ _ s. s) writer.old.desk.shown.value (drop writer.old.behind writer.old.log.items)) (λ _. writer.new.desk.shown.value ≡ writer.old.desk.shown.value) }
    ensures knows { view writer.new.desk.place ≡ writer.new.desk.shown.value }
{
    replace_with(writer, rt, |writer, rt| published_by_rule(writer, rt))
}

/// The published version. `None` where none is handed out, or none can be shared.
pub fn read_latest<L: MapName>(reader: &mut MapReader<L>) -> Option<Published<L>>
    ensures keeps { IsPrefix (view reader.old.place) (view reader.new.place) }
    ensures seen { IfSome result (λ s. view reader.new.place ≡ s) }
{
    replace_with(reader, (), |reader, _unit| entered_by_rule(reader))
}
