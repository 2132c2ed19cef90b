//! Maps, made and freed.
ghost use Rattle.std.specs.Prelude.{◌≡◌, ◌≢◌, IfOk, None};
ghost use Rattle.map_items.specs.Sizes.{AreSizes};
ghost use Rattle.rebuild_core.specs.Lawful.{new_state};
ghost use Rattle.map_c.specs.{Maps.{IsNew, IsNewRefusal}, Status.{done}};
ghost use Rattle.map_c.specs.declared.handles.content.Content.TheVariants as content_is;

use crate::{Content, DONE, Handle, Map, Refusal, boxed};
use map_fold::{NoMemory, Settings};
use rebuild_core::MapState;
use std::alloc::Global;

/// Makes an empty map, with voxels of 1 to 1,000,000 millimetres. A subtree of `large` nodes, from 16 to 1,000,000, is large.
#[unsafe(no_mangle)]
pub extern "C" fn corv_map_new(alloc: Global, voxel: u32, large: u32, map: &mut Handle) -> i32
    ensures made { result ≡ done → IsNew voxel large map.new.held.content }
    ensures sizes { result ≡ done → AreSizes (record { voxel = voxel; large = large }) }
    ensures was_empty { result ≡ done → map.old.held.content ≡ None }
    ensures refused { result ≢ done → IsNewRefusal voxel large map.old.held.content result }
    ensures same { result ≢ done → map.new.held.content ≡ map.old.held.content }
{
    if !map.is_empty() {
        return Refusal::Full.status();
    }
    if voxel < 1 || 1_000_000 < voxel || large < 16 || 1_000_000 < large {
        return Refusal::BadNumber.status();
    }
    match made(alloc, Settings::new(voxel, large)) {
        Err(_) => Refusal::NoMemory.status(),
        Ok(content) => {
            *map = Handle::of(content);
            DONE
        }
    }
}

fn made(alloc: Global, settings: Settings) -> Result<Box<Content>, NoMemory>
    ensures { IfOk result (λ content. content.value ≡ content_is.Map (new_state settings)) }
{
    let state = MapState::new(alloc, settings)?;
    boxed(alloc, Content::Map(Map { state }))
}

/// Frees what the handle holds.
#[unsafe(no_mangle)]
pub extern "C" fn corv_map_free(alloc: Global, map: &mut Handle)
    ensures { map.new.held.content ≡ None }
{
    let _content = map.take(alloc);
}
