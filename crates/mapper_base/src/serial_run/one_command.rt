//! One command, on the state of a map.
ghost use Rattle.std.specs.Prelude.{◌≡◌, ◌≤◌, ◌<◌, ◌+◌, length, IfOk, OnOk};
ghost use Rattle.rebuild_core.specs.Steps.{HasRoom, IsSettleStep, IsUpdateStep};
ghost use Rattle.scan_log.specs.{Plain.{IsPlain}, Scripts.{submitted}};
ghost use Rattle.mapper_base.specs.Turns.{Follows, IsMaintained, reply_of};

use crate::{tree_reply, tree_totals};
use map_items::{MAX_POINTS, NoMemory, Update};
use rebuild_core::{MAX_UPDATES, MapState};
use rebuild_parts::{Built, StateFault, SwapFault};
use scan_log::{Command, Reply};
use std::alloc::Global;

/// Runs the command. A barrier settles the map.
pub fn answer(alloc: Global, state: &mut MapState, command: &Command) -> Result<Reply, NoMemory>
    requires plain { IsPlain command.now }
    requires updates { length state.old.state.history < MAX_UPDATES }
    requires points { state.old.state.next + submitted command.now ≤ MAX_POINTS }
    ensures follows { OnOk result (Follows command.now state.old.state state.new.state) }
    ensures reply { IfOk result (λ r. r ≡ reply_of state.new.state command.now) }
    ensures settled { command.now ≡ Command.Sync → OnOk result (IsSettleStep state.old.state state.new.state) }
{
    match command {
        Command::Change { caller, update } => change(alloc, state, *caller, update),
        Command::Sync => {
            state.settle(alloc)?;
            Ok(totals(state))
        }
        _ => query(alloc, state, command),
    }
}

fn change(
    alloc: Global,
    state: &mut MapState,
    caller: u8,
    update: &Update,
) -> Result<Reply, NoMemory>
    requires caller_from { 1 ≤ caller }
    requires caller_to { caller ≤ 8 }
    requires room { HasRoom update.now state.old.state }
    ensures follows { OnOk result (Follows (Command.Change caller update.now) state.old.state state.new.state) }
    ensures reply { IfOk result (λ r. r ≡ Reply.Done (length state.new.state.history)) }
{
    let copy = update.copy(alloc)?;
    let mark = updated(alloc, state, caller, copy)?;
    maintained(alloc, state)?;
    Ok(Reply::Done { mark })
}

// There is room, so only `NoMemory` refuses it.
fn updated(alloc: Global, state: &mut MapState, caller: u8, update: Update) -> Result<u64, NoMemory>
    requires caller_from { 1 ≤ caller }
    requires caller_to { caller ≤ 8 }
    requires room { HasRoom update state.old.state }
    ensures stepped { OnOk result (IsUpdateStep caller update state.old.state state.new.state) }
    ensures len { IfOk result (λ n. n ≡ length state.new.state.history) }
{
    match state.update_uncounted(alloc, caller, update) {
        Ok(mark) => Ok(mark),
        Err(StateFault::NoMemory) => Err(NoMemory),
        Err(StateFault::TooManyUpdates { .. } | StateFault::TooManyPoints { .. }) => unreachable!(),
    }
}

// After a change, one large subtree that breaches a criterion is detached, rebuilt and swapped in.
fn maintained(alloc: Global, state: &mut MapState) -> Result<(), NoMemory>
    ensures { OnOk result (IsMaintained state.old.state state.new.state) }
{
    let large = state.settings().large();
    let Some(job) = state.detach(alloc, 1)? else {
        return Ok(());
    };
    let Ok(built) = job.build(alloc, large) else {
        return Err(NoMemory);
    };
    put_back(alloc, state, built)
}

// A refused value changes nothing.
fn put_back(alloc: Global, state: &mut MapState, built: Built) -> Result<(), NoMemory>
    ensures { OnOk result (IsMaintained state.old.state state.new.state) }
{
    match state.swap_uncounted(alloc, built, true) {
        Ok(()) => Ok(()),
        Err(left) => match left.fault {
            SwapFault::NoMemory => Err(NoMemory),
            SwapFault::Stale { .. } | SwapFault::Behind { .. } => Ok(()),
        },
    }
}

#[tactic(auto, using(crate::proofs::Turns::lawful_reply))]
fn query(alloc: Global, state: &MapState, command: &Command) -> Result<Reply, NoMemory>
    requires { IsPlain command.now }
    ensures { IfOk result (λ r. r ≡ reply_of state.now.state command.now) }
{
    let mark = state.history().len() as u64;
    tree_reply(alloc, state.version().tree(), mark, command)
}

#[tactic(auto, using(crate::proofs::Turns::lawful_reply))]
pub fn totals(state: &MapState) -> Reply
    ensures { result ≡ reply_of state.now.state Command.Sync }
{
    let mark = state.history().len() as u64;
    tree_totals(state.version().tree(), mark)
}
