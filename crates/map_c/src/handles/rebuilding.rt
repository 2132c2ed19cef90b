//! Jobs that are built, and built subtrees that are brought up to date, each in the place of the content that it was.
ghost use Rattle.std.specs.Prelude.{◌≡◌, IfErr, None, OnErr, OnOk, Some};
ghost use Rattle.map_c.specs.{Building.{IsBuildRefusal, IsJobBuilt, IsReplayRefusal, IsReplayed}, Status.{code}};

use crate::handles::built_subtree::BuiltSubtree;
use crate::handles::content::Content;
use crate::handles::detached_job::DetachedJob;
use crate::handles::refusal::Refusal;
use rebuild_core::{BuiltLeft, JobLeft};
use std::alloc::Global;
use std::mem;

/// Rebuilds the job's subtree.
pub fn build(alloc: Global, content: &mut Content) -> Result<(), Refusal>
    ensures built { OnOk result (IsJobBuilt (Some content.old) (Some content.new)) }
    ensures refused { IfErr result (λ r. IsBuildRefusal (Some content.old) None (code r)) }
    ensures same { OnErr result (content.new ≡ content.old) }
{
    match mem::replace(content, Content::Nothing) {
        Content::Job(DetachedJob { job, large }) => match job.build(alloc, large) {
            Ok(built) => {
                *content = Content::Built(BuiltSubtree::new(alloc, built, large));
                Ok(())
            }
            Err(JobLeft { job }) => {
                *content = Content::Job(DetachedJob { job, large });
                Err(Refusal::NoMemory)
            }
        },
        other => {
            *content = other;
            Err(Refusal::Empty)
        }
    }
}

/// Replays the pending operations on the built subtree.
pub fn replay(alloc: Global, content: &mut Content) -> Result<(), Refusal>
    ensures replayed { OnOk result (IsReplayed (Some content.old) (Some content.new)) }
    ensures refused { IfErr result (λ r. IsReplayRefusal (Some content.old) (code r)) }
    ensures same { OnErr result (content.new ≡ content.old) }
{
    match mem::replace(content, Content::Nothing) {
        Content::Built(BuiltSubtree { built, left, large }) => {
            match built.replay(alloc, large, left.as_slice()) {
                Ok(built) => {
                    *content = Content::Built(BuiltSubtree::new(alloc, built, large));
                    Ok(())
                }
                Err(BuiltLeft { built }) => {
                    *content = Content::Built(BuiltSubtree { built, left, large });
                    Err(Refusal::NoMemory)
                }
            }
        }
        other => {
            *content = other;
            Err(Refusal::Empty)
        }
    }
}
