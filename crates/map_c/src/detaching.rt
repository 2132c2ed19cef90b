//! Subtrees, detached as jobs.
ghost use Rattle.std.specs.Prelude.{◌≡◌, ◌≢◌, ◌≤◌, IfErr, IfOk, None, OnErr, Some};
ghost use Rattle.rebuild_core.specs.Detach.{IsSlot};
ghost use Rattle.map_c.specs.{Swapping.{IsDetachRefusal, IsDetached}, Status.{code, done}};
ghost use Rattle.map_c.specs.declared.handles.content.Content.TheVariants as is;

use crate::{Content, DONE, DetachedJob, Handle, Map, Refusal, boxed};
use std::alloc::Global;

/// Returns the job of the slot, from 1 to 4: of the subtree that was detached into it before, or else of the first large one that
/// is to be rebuilt.
#[unsafe(no_mangle)]
pub extern "C" fn corv_map_detach(
    alloc: Global,
    map: &mut Handle,
    slot: u32,
    job: &mut Handle,
) -> i32
    ensures detached { result ≡ done → IsDetached slot map.old.held.content map.new.held.content job.new.held.content }
    ensures slot { result ≡ done → IsSlot slot }
    ensures was_empty { result ≡ done → job.old.held.content ≡ None }
    ensures refused { result ≢ done → IsDetachRefusal slot map.old.held.content job.old.held.content result }
    ensures same { result ≢ done → map.new.held.content ≡ map.old.held.content }
    ensures job_same { result ≢ done → job.new.held.content ≡ job.old.held.content }
{
    if map.is_empty() {
        return Refusal::Empty.status();
    }
    if !job.is_empty() {
        return Refusal::Full.status();
    }
    if slot < 1 || 4 < slot {
        return Refusal::BadNumber.status();
    }
    let Some(mut content) = map.take(alloc) else {
        return Refusal::Empty.status();
    };
    let detached = detached(alloc, &mut content, slot as u8);
    *map = Handle::of(content);
    match detached {
        Err(refusal) => refusal.status(),
        Ok(made) => {
            *job = Handle::of(made);
            DONE
        }
    }
}

// The memory for the job's handle is taken first, so that on `NoMemory` nothing is detached.
fn detached(alloc: Global, content: &mut Content, slot: u8) -> Result<Box<Content>, Refusal>
    requires slot_from { 1 ≤ slot }
    requires slot_to { slot ≤ 4 }
    ensures detached { IfOk result (λ job. IsDetached slot (Some content.old) (Some content.new) (Some job.value)) }
    ensures refused { IfErr result (λ r. IsDetachRefusal slot (Some content.old) None (code r)) }
    ensures same { OnErr result (content.new ≡ content.old) }
{
    let mut place = boxed(alloc, Content::Nothing)?;
    let Content::Map(kept) = content else {
        return Err(Refusal::Empty);
    };
    let job = job_of(alloc, kept, slot)?;
    *place = Content::Job(job);
    Ok(place)
}

fn job_of(alloc: Global, kept: &mut Map, slot: u8) -> Result<DetachedJob, Refusal>
    requires slot_from { 1 ≤ slot }
    requires slot_to { slot ≤ 4 }
    ensures detached { IfOk result (λ job. IsDetached slot (Some (is.Map kept.old)) (Some (is.Map kept.new)) (Some (is.Job job))) }
    ensures refused { IfErr result (λ r. IsDetachRefusal slot (Some (is.Map kept.old)) None (code r)) }
    ensures same { OnErr result (kept.new ≡ kept.old) }
{
    let large = kept.state.settings().large();
    match kept.state.detach(alloc, slot)? {
        None => Err(Refusal::NothingToDetach),
        Some(job) => Ok(DetachedJob { job, large }),
    }
}

/// Frees what the handle holds.
#[unsafe(no_mangle)]
pub extern "C" fn corv_job_free(alloc: Global, job: &mut Handle)
    ensures { job.new.held.content ≡ None }
{
    let _content = job.take(alloc);
}
