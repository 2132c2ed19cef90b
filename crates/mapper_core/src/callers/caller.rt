//! What a caller's thread does.
ghost use Rattle.std.specs.{Prelude.{◌≡◌, ◌≤◌, ◌+◌, true, length, IfOk, None}, List.{AllByRecursion}};
ghost use Rattle.scan_log.specs.Commands.{command_update, is_by};
ghost use Rattle.scan_log.specs.declared.command.Command.TheVariants as command_of;
ghost use Rattle.kd_tree.specs.Contents.{contents};
ghost use Rattle.scan_log.specs.{Plain.{IsPlain}, Transcript.{reply_on}};
ghost use Rattle.mapper_core.specs.Mine.{Tried, Turned};

use super::alarm::{Bells, Signals};
use super::queue::Queue;
use batch_near::nearest_each;
use map_fold::NearsReply;
use map_items::{NoMemory, Update};
use mapper_base::tree_reply;
use published_map::{MapName, Pass, Shared};
use rebuild_parts::{StateFault, Version};
use rebuild_worker::Gate;
use scan_log::{Command, MAX_COMMANDS, Reply};
use std::alloc::Global;
use std::sync::Wait;
use std::thread::Threads;

#[tactic(auto, using(crate::proofs::OneCaller::change_tried))]
fn change<L: MapName, R: Wait>(
    rt: &R,
    alloc: Global,
    shared: &Shared<L>,
    bells: &Bells,
    pass: &mut Pass<L>,
    update: &Update,
) -> Result<Option<Reply>, NoMemory>
    ensures { IfOk result (λ r. Tried L.voxel (command_of.Change pass.old.caller update.now) pass.old pass.new r) }
{
    let copy = update.copy(alloc)?;
    match shared.update(rt, alloc, pass, copy) {
        Ok(mark) => {
            bells.ring();
            Ok(Some(Reply::Done { mark }))
        }
        Err(StateFault::TooManyUpdates { .. }) => Ok(None),
        Err(StateFault::TooManyPoints { .. }) => Ok(None),
        Err(StateFault::NoMemory) => Err(NoMemory),
    }
}

// For a command that makes no update, at the newest version.
fn query<L: MapName, R: Threads + Sync>(
    rt: &R,
    alloc: Global,
    pass: &mut Pass<L>,
    command: &Command,
) -> Result<Option<Reply>, NoMemory>
    requires plain { IsPlain command.now }
    requires unchanging { command_update command.now ≡ None }
    ensures { IfOk result (λ r. Tried L.voxel command.now pass.old pass.new r) }
{
    pass.renew();
    let version = pass.version();
    let reply = version_reply(rt, alloc, version, command)?;
    Ok(Some(reply))
}

// It gets the version alone, so no later one comes between a search and its mark.
fn version_reply<R: Threads + Sync>(
    rt: &R,
    alloc: Global,
    version: &Version,
    command: &Command,
) -> Result<Reply, NoMemory>
    requires { IsPlain command.now }
    ensures { IfOk result (λ r. r ≡ reply_on (contents version.now.tree) command.now version.now.len) }
{
    match command {
        Command::Nears { k, points, .. } => {
            let lists = nearest_each(rt, alloc, version.tree(), *k, points, None)?;
            let mark = version.len();
            Ok(Reply::Nears(NearsReply { mark, lists }))
        }
        _ => tree_reply(alloc, version.tree(), version.len(), command),
    }
}

#[tactic(auto, using(crate::proofs::OneCaller::change_by))]
fn answer<L: MapName, R: Threads + Wait + Sync>(
    rt: &R,
    alloc: Global,
    shared: &Shared<L>,
    bells: &Bells,
    pass: &mut Pass<L>,
    command: &Command,
) -> Result<Option<Reply>, NoMemory>
    requires own { is_by pass.old.caller command.now ≡ true }
    requires plain { IsPlain command.now }
    ensures { IfOk result (λ r. Tried L.voxel command.now pass.old pass.new r) }
{
    match command {
        Command::Change { update, .. } => change(rt, alloc, shared, bells, pass, update),
        _ => query(rt, alloc, pass, command),
    }
}

/// Runs the commands of the pass's caller in order. Where a limit of the map refuses an update, the caller ends before it: that
/// this never happens shows only when all callers meet.
pub fn run_own<L: MapName, G: Gate, R: Threads + Wait + Sync>(
    rt: &R,
    alloc: Global,
    shared: &Shared<L>,
    signals: &Signals<'_, G>,
    commands: &[Command],
    pass: Pass<L>,
) -> Result<(Pass<L>, Queue), NoMemory>
    requires plain { AllByRecursion IsPlain commands.now }
    requires commands { signals.now.from + length commands.now ≤ MAX_COMMANDS }
    ensures { IfOk result (λ r. Turned L.voxel commands.now pass r.0 r.1) }
{
    let mut pass = pass;
    let replies = told_own(rt, alloc, shared, signals, commands, &mut pass)?;
    Ok((pass, replies))
}

fn told_own<L: MapName, G: Gate, R: Threads + Wait + Sync>(
    rt: &R,
    alloc: Global,
    shared: &Shared<L>,
    signals: &Signals<'_, G>,
    commands: &[Command],
    pass: &mut Pass<L>,
) -> Result<Queue, NoMemory>
    requires plain { AllByRecursion IsPlain commands.now }
    requires commands { signals.now.from + length commands.now ≤ MAX_COMMANDS }
    ensures { IfOk result (λ rs. Turned L.voxel commands.now pass.old pass.new rs) }
{
    let mut replies = Queue::new(alloc);
    let mut index = signals.from;
    for command in commands {
        if is_own(command, pass.caller()) {
            let Some(reply) = answer(rt, alloc, shared, signals.bells, pass, command)? else {
                return Ok(replies);
            };
            replies.put(reply)?;
            signals.gate.replied(pass.caller(), index);
        }
        index += 1;
    }
    Ok(replies)
}

fn is_own(command: &Command, caller: u8) -> bool
    ensures { result ≡ is_by caller command.now }
{
    match command.caller() {
        Some(own) => own == caller,
        None => false,
    }
}
