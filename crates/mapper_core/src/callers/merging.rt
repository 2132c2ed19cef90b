//! Replies of all callers, put in the log's order.
ghost use Rattle.std.specs.Prelude.{◌≡◌, ℕ, [], OnOk};
ghost use Rattle.scan_log.specs.Commands.{IsBy};
ghost use Rattle.mapper_core.specs.Meetings.{AreReplies, HasReply, Takes, MergedTo};

use super::queue::Queue;
use map_items::NoMemory;
use mapper_base::Replies;
use scan_log::{Command, Reply};

// Callers are counted from 1.
fn take_for(queues: &mut [Queue], caller: u8) -> Reply
    requires { HasReply queues.old caller }
    ensures { Takes queues.old queues.new caller result }
{
    let place = caller as usize - 1;
    match queues[place].take() {
        Some(reply) => reply,
        None => unreachable!(),
    }
}

/// Appends the callers' replies, in the order of the commands.
pub fn merge(
    commands: &[Command],
    queues: &mut [Queue],
    replies: &mut Replies,
) -> Result<(), NoMemory>
    requires { (voxel : ℕ) × AreReplies voxel commands.now queues.old }
    ensures { OnOk result ((voxel : ℕ) → MergedTo voxel commands.now [] queues.old queues.new replies.old replies.new) }
{
    for command in commands {
        let reply = take_for(queues, caller_of(command));
        replies.push(reply)?;
    }
    Ok(())
}

// There is no barrier here, so each command has a caller.
fn caller_of(command: &Command) -> u8
    requires { (x : ℕ) × IsBy command.now x }
    ensures { IsBy command.now result }
{
    match command.caller() {
        Some(caller) => caller,
        None => unreachable!(),
    }
}
