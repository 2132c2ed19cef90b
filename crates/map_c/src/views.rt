//! Views, made, copied and freed.
ghost use Rattle.std.specs.Prelude.{◌≡◌, IfErr, IfOk, None, Some};
ghost use Rattle.map_c.specs.{Answers.{IsViewOf, IsViewRefusal, IsViewed}, Status.{code}};
ghost use Rattle.map_c.specs.declared.handles.content.Content.TheVariants as is;

use crate::handles::macros::ask;
use crate::{Content, DONE, Handle, Refusal, View, boxed, shown};
use map_fold::NoMemory;
use rebuild_core::Version;
use std::alloc::Global;
use std::sync::Arc;

/// Makes a view of what the map holds now, which stays as it is while the map goes on.
#[unsafe(no_mangle)]
pub extern "C" fn corv_map_view(alloc: Global, map: &mut Handle, view: &mut Handle) -> i32
    ensures { IsViewed map.old.held.content map.new.held.content view.old.held.content view.new.held.content result }
{
    if !view.is_empty() {
        return Refusal::Full.status();
    }
    *view = Handle::of(ask!(alloc, map, |content| view_of(alloc, &content)));
    DONE
}

fn view_of(alloc: Global, content: &Content) -> Result<Box<Content>, Refusal>
    ensures made { IfOk result (λ view. IsViewOf (Some content.now) (Some view.value)) }
    ensures refused { IfErr result (λ r. IsViewRefusal (Some content.now) None (code r)) }
{
    let version = shown(content)?;
    Ok(seen(alloc, version)?)
}

fn seen(alloc: Global, version: &Arc<Version>) -> Result<Box<Content>, NoMemory>
    ensures { IfOk result (λ view. view.value ≡ is.View version.now.value) }
{
    let version = Arc::try_clone(version)?;
    boxed(alloc, Content::View(View { version }))
}

/// Shares the view.
#[unsafe(no_mangle)]
pub extern "C" fn corv_view_copy(alloc: Global, view: &mut Handle, copy: &mut Handle) -> i32
    ensures { IsViewed view.old.held.content view.new.held.content copy.old.held.content copy.new.held.content result }
{
    corv_map_view(alloc, view, copy)
}

/// Frees what the handle holds.
#[unsafe(no_mangle)]
pub extern "C" fn corv_view_free(alloc: Global, view: &mut Handle)
    ensures { view.new.held.content ≡ None }
{
    let _content = view.take(alloc);
}
