//! Frozen indexes of a map, of a view and of a box of a view, made, copied and freed. They don't follow the map's updates.
ghost use Rattle.std.specs.Prelude.{◌≡◌, IfErr, IfOk, None, Some};
ghost use Rattle.map_c.specs.{Answers.{IsViewRefusal}, Frozen.{IsBoxFrozen, IsBoxRefusal, IsCopyOf, IsCopyRefusal, IsFrozen, IsFrozenOf, IsMadeInto}};
ghost use Rattle.map_c.specs.Status.{code};
ghost use Rattle.map_c.specs.declared.handles.content.Content.TheVariants as is;

use crate::handles::macros::ask;
use crate::{
    Around, Bounds, Content, DONE, Handle, Index, Refusal, boxed, frozen_index, read_box, shown,
};
use kd_frozen::Frozen;
use map_fold::NoMemory;
use point_geom::Cuboid;
use rebuild_core::Version;
use std::alloc::Global;
use std::sync::Arc;

/// Makes a frozen index of what is live in the map now.
#[unsafe(no_mangle)]
pub extern "C" fn corv_map_freeze(alloc: Global, map: &mut Handle, frozen: &mut Handle) -> i32
    ensures { IsMadeInto (IsFrozen map.old.held.content frozen.new.held.content)
        (IsViewRefusal map.old.held.content frozen.old.held.content)
        map.old.held.content map.new.held.content frozen.old.held.content frozen.new.held.content result }
{
    if !frozen.is_empty() {
        return Refusal::Full.status();
    }
    *frozen = Handle::of(ask!(alloc, map, |content| index_of(alloc, &content)));
    DONE
}

fn index_of(alloc: Global, content: &Content) -> Result<Box<Content>, Refusal>
    ensures made { IfOk result (λ index. IsFrozen (Some content.now) (Some index.value)) }
    ensures refused { IfErr result (λ r. IsViewRefusal (Some content.now) None (code r)) }
{
    let version = shown(content)?;
    Ok(made_of(alloc, version)?)
}

fn made_of(alloc: Global, version: &Version) -> Result<Box<Content>, NoMemory>
    ensures { IfOk result (λ index. IsFrozenOf version.now index.value) }
{
    let live = Frozen::of(alloc, version.tree())?;
    let frozen = Arc::new(alloc, live)?;
    let index = Index {
        frozen,
        around: None,
    };
    boxed(alloc, Content::Frozen(index))
}

/// As of a map, of what is live in the view.
#[unsafe(no_mangle)]
pub extern "C" fn corv_view_freeze(alloc: Global, view: &mut Handle, frozen: &mut Handle) -> i32
    ensures { IsMadeInto (IsFrozen view.old.held.content frozen.new.held.content)
        (IsViewRefusal view.old.held.content frozen.old.held.content)
        view.old.held.content view.new.held.content frozen.old.held.content frozen.new.held.content result }
{
    corv_map_freeze(alloc, view, frozen)
}

/// The same, for places in a box, of which alone the points are laid side by side. The index keeps the view, which is searched where
/// a nearer point may lie outside.
#[unsafe(no_mangle)]
pub extern "C" fn corv_view_freeze_box(
    alloc: Global,
    view: &mut Handle,
    bounds: &Bounds,
    frozen: &mut Handle,
) -> i32
    ensures { IsMadeInto (IsBoxFrozen bounds.now view.old.held.content frozen.new.held.content)
        (IsBoxRefusal bounds.now view.old.held.content frozen.old.held.content)
        view.old.held.content view.new.held.content frozen.old.held.content frozen.new.held.content result }
{
    if !frozen.is_empty() {
        return Refusal::Full.status();
    }
    *frozen = Handle::of(ask!(alloc, view, |content| { box_of(alloc, &content, bounds) }));
    DONE
}

fn box_of(alloc: Global, content: &Content, bounds: &Bounds) -> Result<Box<Content>, Refusal>
    ensures made { IfOk result (λ index. IsBoxFrozen bounds.now (Some content.now) (Some index.value)) }
    ensures refused { IfErr result (λ r. IsBoxRefusal bounds.now (Some content.now) None (code r)) }
{
    let version = shown(content)?;
    let cuboid = read_box(bounds)?;
    Ok(laid_of(alloc, version, cuboid)?)
}

fn laid_of(alloc: Global, version: &Arc<Version>, cuboid: Cuboid) -> Result<Box<Content>, NoMemory>
    ensures { IfOk result (λ index. IsFrozenOf version.now.value index.value) }
{
    let inside = Frozen::inside(alloc, version.tree(), &cuboid)?;
    let frozen = Arc::new(alloc, inside)?;
    let version = Arc::try_clone(version)?;
    let index = Index {
        frozen,
        around: Some(Around { version, cuboid }),
    };
    boxed(alloc, Content::Frozen(index))
}

/// Makes another handle of the same index, which isn't copied.
#[unsafe(no_mangle)]
pub extern "C" fn corv_frozen_copy(alloc: Global, frozen: &mut Handle, copy: &mut Handle) -> i32
    ensures { IsMadeInto (IsCopyOf frozen.old.held.content copy.new.held.content)
        (IsCopyRefusal frozen.old.held.content copy.old.held.content)
        frozen.old.held.content frozen.new.held.content copy.old.held.content copy.new.held.content result }
{
    if !copy.is_empty() {
        return Refusal::Full.status();
    }
    *copy = Handle::of(ask!(alloc, frozen, |content| copy_of(alloc, &content)));
    DONE
}

fn copy_of(alloc: Global, content: &Content) -> Result<Box<Content>, Refusal>
    ensures made { IfOk result (λ copy. IsCopyOf (Some content.now) (Some copy.value)) }
    ensures refused { IfErr result (λ r. IsCopyRefusal (Some content.now) None (code r)) }
{
    let index = frozen_index(content)?;
    Ok(shared(alloc, index)?)
}

fn shared(alloc: Global, index: &Index) -> Result<Box<Content>, NoMemory>
    ensures { IfOk result (λ copy. copy.value ≡ is.Frozen index.now) }
{
    let other = index.share()?;
    boxed(alloc, Content::Frozen(other))
}

/// Frees what the handle holds. The index goes with its last handle.
#[unsafe(no_mangle)]
pub extern "C" fn corv_frozen_free(alloc: Global, frozen: &mut Handle)
    ensures { frozen.new.held.content ≡ None }
{
    let _content = frozen.take(alloc);
}
