//! A script, from barrier to barrier.
ghost use Rattle.std.specs.{Prelude.{◌≡◌, ◌<◌, ◌≤◌, length, IfOk}, List.{AllByRecursion}};
ghost use Rattle.scan_log.specs.{Plain.{IsPlain}, Scripts.{points_of}};
ghost use Rattle.mapper_core.specs.Meetings.{AreNewcomers, HasCaller, StandingAtEnd, is_barrier as is_sync};

use super::phase::{barrier, held, phase};
use super::stage::Stage;
use map_items::{MAX_POINTS, NoMemory};
use mapper_base::Replies;
use published_map::{MapName, Pass};
use rebuild_worker::Gate;
use scan_log::{Command, MAX_COMMANDS};
use std::sync::Wait;
use std::thread::Threads;

/// The callers meet at each barrier and at the end.
pub fn run_commands<L: MapName + Send + Sync, G: Gate + Sync, R: Threads + Wait + Sync>(
    rt: &R,
    stage: &Stage<'_, L, G>,
    commands: &[Command],
    passes: Vec<Pass<L>>,
) -> Result<(Vec<Pass<L>>, Replies), NoMemory>
    requires plain { AllByRecursion IsPlain commands.now }
    requires commands { length commands.now ≤ MAX_COMMANDS }
    requires room { points_of commands.now ≤ MAX_POINTS }
    requires named { AllByRecursion (HasCaller L.callers) commands.now }
    requires new { AreNewcomers L.callers passes.items }
    requires parts { L.callers ≡ L.parts }
    requires callers { 0 < L.callers }
    ensures { IfOk result (λ r. StandingAtEnd L.voxel L.callers commands.now r.0.items r.1) }
{
    let mut passes = passes;
    let mut replies = Replies::new(stage.alloc);
    let mut from = 0;
    let mut at = 0;
    for command in commands {
        if is_barrier(command) {
            let met = phase(rt, stage, commands, from, at, passes, &mut replies)?;
            passes = barrier(rt, stage, commands, at, met, &mut replies)?;
            from = at + 1;
        }
        at += 1;
    }
    let passes = phase(rt, stage, commands, from, at, passes, &mut replies)?;
    replies.push(held(passes.as_slice()))?;
    Ok((passes, replies))
}

fn is_barrier(command: &Command) -> bool
    ensures { result ≡ is_sync command.now }
{
    command.caller().is_none()
}
