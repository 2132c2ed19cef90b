//! The commands between two barriers.
ghost use Rattle.std.specs.{Prelude.{◌≡◌, ◌+◌, ◌-◌, ◌<◌, ◌≤◌, length, take, drop, slice_get, Some, IfOk, OnOk}, List.{AllByRecursion}, Thread.{IsSync, IsSend}};
ghost use Rattle.scan_log.specs.declared.command.Command.TheVariants as command_of;
ghost use Rattle.scan_log.specs.{Plain.{IsPlain}, Scripts.{points_of}};
ghost use Rattle.shown_versions.specs.Marks.{callers_of, IsDistinct, AllMetNow};
ghost use Rattle.mapper_core.specs.{Mine.{Turned}, Meetings.{AllTurned, AllParted, IsOfCallers, IsPutBehind, Standing, IsTotal}};

use super::alarm::Signals;
use super::caller::run_own;
use super::merging::merge;
use super::queue::Queue;
use super::stage::Stage;
use map_items::{MAX_POINTS, NoMemory};
use mapper_base::Replies;
use published_map::{MapName, Pass, Shared};
use rebuild_worker::Gate;
use scan_log::{Command, MAX_COMMANDS, Reply};
use std::alloc::Global;
use std::sync::Wait;
use std::thread::{Threads, join};

type Turn<L> = Result<(Pass<L>, Queue), NoMemory>;

// Without a thread for it, a caller's commands run here, in the callers' order.
#[tactic(auto, using(crate::proofs::CameBack::turned_none, crate::proofs::CameBack::turned_more))]
fn run_each<L: MapName + Send + Sync, G: Gate + Sync, R: Threads + Wait + Sync>(
    rt: &R,
    alloc: Global,
    shared: &Shared<L>,
    signals: &Signals<'_, G>,
    commands: &[Command],
    passes: Vec<Pass<L>>,
) -> Result<Vec<Turn<L>>, NoMemory>
    requires plain { AllByRecursion IsPlain commands.now }
    requires commands { signals.now.from + length commands.now ≤ MAX_COMMANDS }
    ensures { IfOk result (λ v. AllTurned L.voxel commands.now passes.items v.items) }
{
    let mut passes = passes;
    let Some(last) = passes.pop() else {
        return Ok(Vec::new(alloc));
    };
    let (turn, turns) = join(
        rt,
        move || -> Turn<L>
            requires { IsSync R.row × AllByRecursion IsPlain commands.now × (signals.now.from + length commands.now ≤ MAX_COMMANDS) }
            ensures { IfOk result (λ r. Turned L.voxel commands.entry.now last r.0 r.1) }
        { run_own(rt, alloc, shared, signals, commands, last) },
        move || -> Result<Vec<Turn<L>>, NoMemory>
            requires { IsSync R.row × IsSync G.row × IsSync L.row × IsSend L.row × AllByRecursion IsPlain commands.now × (signals.now.from + length commands.now ≤ MAX_COMMANDS) }
            ensures { IfOk result (λ v. AllTurned L.voxel commands.entry.now passes.items v.items) }
        { run_each(rt, alloc, shared, signals, commands, passes) },
    );
    let mut turns = turns?;
    let Ok(()) = turns.push(turn) else {
        return Err(NoMemory);
    };
    Ok(turns)
}

fn part<L: MapName>(
    alloc: Global,
    turns: Vec<Turn<L>>,
) -> Result<(Vec<Pass<L>>, Vec<Queue>), NoMemory>
    ensures { IfOk result (λ r. AllParted turns.items r.0.items r.1.items) }
{
    let mut passes = Vec::new(alloc);
    let mut queues = Vec::new(alloc);
    for turn in turns {
        part_one(turn, &mut passes, &mut queues)?;
    }
    Ok((passes, queues))
}

fn part_one<L: MapName>(
    turn: Turn<L>,
    passes: &mut Vec<Pass<L>>,
    queues: &mut Vec<Queue>,
) -> Result<(), NoMemory>
    ensures { OnOk result (IsPutBehind turn passes.old.items passes.new.items queues.old.items queues.new.items) }
{
    let (pass, queue) = turn?;
    let Ok(()) = passes.push(pass) else {
        return Err(NoMemory);
    };
    let Ok(()) = queues.push(queue) else {
        return Err(NoMemory);
    };
    Ok(())
}

fn all_meet<L: MapName, R: Wait>(rt: &R, shared: &Shared<L>, passes: Vec<Pass<L>>) -> Vec<Pass<L>>
    requires all { length passes.items ≡ L.callers }
    requires parts { L.callers ≡ L.parts }
    requires distinct { IsDistinct (callers_of passes.items) }
    ensures { AllMetNow passes.items result.items }
{
    let mut passes = passes;
    shared.meet(rt, passes.as_mut_slice());
    passes
}

/// No limit of the map stops a caller: the history in which they meet has at most the script's updates.
pub fn phase<L: MapName + Send + Sync, G: Gate + Sync, R: Threads + Wait + Sync>(
    rt: &R,
    stage: &Stage<'_, L, G>,
    commands: &[Command],
    from: usize,
    to: usize,
    passes: Vec<Pass<L>>,
    replies: &mut Replies,
) -> Result<Vec<Pass<L>>, NoMemory>
    requires from_to { from ≤ to }
    requires to_end { to ≤ length commands.now }
    requires plain { AllByRecursion IsPlain commands.now }
    requires commands { length commands.now ≤ MAX_COMMANDS }
    requires room { points_of commands.now ≤ MAX_POINTS }
    requires all { length passes.items ≡ L.callers }
    requires parts { L.callers ≡ L.parts }
    requires named { AllByRecursion (IsOfCallers L.callers) (take (to - from) (drop from commands.now)) }
    requires standing { Standing L.voxel (take from commands.now) passes.items replies.old }
    ensures all { IfOk result (λ v. length v.items ≡ L.callers) }
    ensures standing { IfOk result (λ v. Standing L.voxel (take to commands.now) v.items replies.new) }
{
    let between = &commands[from..to];
    let signals = Signals {
        gate: stage.gate,
        bells: stage.bells,
        from: from as u32,
    };
    let turns = run_each(rt, stage.alloc, stage.shared, &signals, between, passes)?;
    let (passes, mut queues) = part(stage.alloc, turns)?;
    let passes = all_meet(rt, stage.shared, passes);
    merge(between, queues.as_mut_slice(), replies)?;
    Ok(passes)
}

/// The totals where the callers have met.
pub fn held<L: MapName>(passes: &[Pass<L>]) -> Reply
    requires { 0 < length passes.now }
    ensures { IsTotal L.voxel passes.now result }
{
    let version = passes[0].version();
    let counts = version.counts();
    Reply::Totals {
        mark: version.len(),
        live: counts.live,
        suspended: counts.suspended,
    }
}

/// The map is settled, and the callers meet again.
pub fn barrier<L: MapName, G: Gate, R: Wait>(
    rt: &R,
    stage: &Stage<'_, L, G>,
    commands: &[Command],
    at: usize,
    passes: Vec<Pass<L>>,
    replies: &mut Replies,
) -> Result<Vec<Pass<L>>, NoMemory>
    requires barrier { slice_get commands.now at ≡ Some command_of.Sync }
    requires all { length passes.items ≡ L.callers }
    requires parts { L.callers ≡ L.parts }
    requires callers { 0 < L.callers }
    requires standing { Standing L.voxel (take at commands.now) passes.items replies.old }
    ensures all { IfOk result (λ v. length v.items ≡ L.callers) }
    ensures standing { IfOk result (λ v. Standing L.voxel (take (at + 1) commands.now) v.items replies.new) }
{
    stage.shared.settle(rt, stage.alloc)?;
    replies.push(held(passes.as_slice()))?;
    Ok(all_meet(rt, stage.shared, passes))
}
