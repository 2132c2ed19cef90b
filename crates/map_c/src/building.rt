//! Detached subtrees, rebuilt and brought up to date. Nothing here asks the map.
ghost use Rattle.std.specs.Prelude.{◌≡◌, ◌≢◌, None};
ghost use Rattle.map_c.specs.{Building.{IsBuildRefusal, IsJobBuilt, IsReplayRefusal, IsReplayed}, Status.{done}};

use crate::{DONE, Handle, Refusal, build, replay, status_of};
use std::alloc::Global;

/// Rebuilds the job's subtree, and leaves the job's handle empty.
#[unsafe(no_mangle)]
pub extern "C" fn corv_job_build(alloc: Global, job: &mut Handle, built: &mut Handle) -> i32
    ensures built { result ≡ done → IsJobBuilt job.old.held.content built.new.held.content }
    ensures empty { result ≡ done → job.new.held.content ≡ None }
    ensures was_empty { result ≡ done → built.old.held.content ≡ None }
    ensures refused { result ≢ done → IsBuildRefusal job.old.held.content built.old.held.content result }
    ensures same { result ≢ done → job.new.held.content ≡ job.old.held.content }
    ensures built_same { result ≢ done → built.new.held.content ≡ built.old.held.content }
{
    let Some(mut content) = job.take(alloc) else {
        return Refusal::Empty.status();
    };
    if !built.is_empty() {
        *job = Handle::of(content);
        return Refusal::Full.status();
    }
    match build(alloc, &mut content) {
        Err(refusal) => {
            *job = Handle::of(content);
            refusal.status()
        }
        Ok(()) => {
            *built = Handle::of(content);
            DONE
        }
    }
}

/// Replays the pending operations on the built subtree.
#[unsafe(no_mangle)]
pub extern "C" fn corv_built_replay(alloc: Global, built: &mut Handle) -> i32
    ensures replayed { result ≡ done → IsReplayed built.old.held.content built.new.held.content }
    ensures refused { result ≢ done → IsReplayRefusal built.old.held.content result }
    ensures same { result ≢ done → built.new.held.content ≡ built.old.held.content }
{
    let Some(mut content) = built.take(alloc) else {
        return Refusal::Empty.status();
    };
    let status = status_of(replay(alloc, &mut content));
    *built = Handle::of(content);
    status
}

/// Frees what the handle holds.
#[unsafe(no_mangle)]
pub extern "C" fn corv_built_free(alloc: Global, built: &mut Handle)
    ensures { built.new.held.content ≡ None }
{
    let _content = built.take(alloc);
}
