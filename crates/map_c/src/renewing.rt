//! New maps that hold what a handle shows.
ghost use Rattle.std.specs.Prelude.{◌≡◌, ◌≢◌, IfErr, IfOk, None, Some};
ghost use Rattle.map_items.specs.Sizes.{AreSizes};
ghost use Rattle.map_c.specs.{Renewal.{IsRenewRefusal, IsRenewed, IsRenewedOf}, Status.{code, done}};

use crate::handles::macros::ask;
use crate::{Content, DONE, Handle, Map, Refusal, boxed, shown};
use map_fold::{NoMemory, Settings};
use map_renewal::renewed;
use rebuild_core::Version;
use std::alloc::Global;

/// Makes a map of what the view or the map holds: the suspended points under the numbers from 0 on, and after them the live ones,
/// each kind in the order of its numbers. Its history is empty at first.
#[unsafe(no_mangle)]
pub extern "C" fn corv_view_renew(
    alloc: Global,
    view: &mut Handle,
    voxel: u32,
    large: u32,
    map: &mut Handle,
) -> i32
    ensures renewed { result ≡ done → IsRenewed voxel large view.old.held.content map.new.held.content }
    ensures was_empty { result ≡ done → map.old.held.content ≡ None }
    ensures refused { result ≢ done → IsRenewRefusal voxel large view.old.held.content map.old.held.content result }
    ensures same { result ≢ done → map.new.held.content ≡ map.old.held.content }
    ensures view_same { view.new.held.content ≡ view.old.held.content }
{
    if !map.is_empty() {
        return Refusal::Full.status();
    }
    *map = Handle::of(ask!(alloc, view, |content| {
        renewed_from(alloc, &content, voxel, large)
    }));
    DONE
}

fn renewed_from(
    alloc: Global,
    content: &Content,
    voxel: u32,
    large: u32,
) -> Result<Box<Content>, Refusal>
    ensures made { IfOk result (λ made. IsRenewed voxel large (Some content.now) (Some made.value)) }
    ensures refused { IfErr result (λ r. IsRenewRefusal voxel large (Some content.now) None (code r)) }
{
    let version = shown(content)?;
    if voxel < 1 || 1_000_000 < voxel || large < 16 || 1_000_000 < large {
        return Err(Refusal::BadNumber);
    }
    let made = made(alloc, version, Settings::new(voxel, large))?;
    Ok(made)
}

fn made(alloc: Global, version: &Version, settings: Settings) -> Result<Box<Content>, NoMemory>
    ensures { IfOk result (λ made. IsRenewedOf settings version.now made.value) }
{
    let state = renewed(alloc, version, settings)?;
    boxed(alloc, Content::Map(Map { state }))
}
