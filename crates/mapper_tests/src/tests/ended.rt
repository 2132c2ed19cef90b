//! A script's callers on a shared map of the test's own, which is ended once they have: its passes are those that came back.
ghost use Rattle.std.specs.{Prelude.{◌≡◌, ◌<◌}, List.{AllByRecursion}};
ghost use Rattle.published_map.specs.Held.{IsOpenedAs};
ghost use Rattle.mapper_core.specs.Meetings.{HasCaller};

use crate::tests::assertions::{made, same};
use map_fold::NoMemory;
use mapper_core::run_callers;
use published_map::{Ended, MapName, Opened, Shared};
use rebuild_core::MapState;
use rebuild_worker::FreeGate;
use scan_log::{Script, parse};
use std::alloc::Global;
use std::marker::Brand;
use std::process::Abort;
use std::sync::Wait;
use std::sync::ledger::Blank;
use std::thread::Threads;

const LOG: &str = "ikdmap 1 voxel 200 large 16
@1 add 1 0 0 2 0 0 3 0 0 4 0 0 5 0 0 6 0 0 7 0 0 8 0 0 9 0 0 10 0 0 11 0 0 12 0 0 13 0 0 14 0 0 15 0 0 16 0 0 17 0 0 18 0 0 19 0 0 20 0 0
@8 add 100 0 0
@3 near 1 0 0 0
sync
@8 suspend 1 0 0 3 1 1
";

// A map of the script's settings, for eight callers.
fn ended<R: Threads + Wait + Sync>(
    rt: &R,
    alloc: Global,
    script: &Script,
) -> Result<(MapState, Vec<Ended>), NoMemory> {
    let _commands = script.commands();
    let opened = Opened::new(alloc, *script.settings(), 8)?;
    ended_on::<Brand, R>(rt, alloc, Blank::new(8), opened, script)
}

fn ended_on<L: MapName + Send + Sync, R: Threads + Wait + Sync>(
    rt: &R,
    alloc: Global,
    blank: Blank,
    opened: Opened,
    script: &Script,
) -> Result<(MapState, Vec<Ended>), NoMemory>
    requires opened { IsOpenedAs L.name L.parts L.callers L.marks L.voxel blank opened }
    requires some { 0 < opened.callers }
    requires sizes { opened.voxel ≡ script.now.sizes.voxel }
    requires named { AllByRecursion (HasCaller L.callers) script.now.commands }
{
    let (shared, passes) = Shared::<L>::start(rt, alloc, blank, opened)?;
    match run_callers(rt, alloc, &shared, passes, script, &FreeGate) {
        Ok((passes, _replies)) => shared.finish(rt, alloc, passes),
        Err(fault) => {
            shared.close(rt);
            Err(fault)
        }
    }
}

#[test]
fn the_passes_of_a_script_end_its_map(rt: HostRuntime) {
    let alloc = rt.alloc();
    let script = made(&rt, parse(alloc, LOG.as_bytes()));
    let (state, ended) = made(&rt, ended(&rt, alloc, &script));
    have_ended(&rt, ended.as_slice());
    let counts = state.version().tree().counts();
    same(&rt, "points", (counts.live, counts.suspended), (19, 2));
}

#[test]
fn the_passes_of_a_script_without_commands_come_back(rt: HostRuntime) {
    let alloc = rt.alloc();
    let script = made(&rt, parse(alloc, b"ikdmap 1 voxel 200 large 16\n"));
    let (_state, ended) = made(&rt, ended(&rt, alloc, &script));
    assert_eq!(rt; ended.len(), 8);
}

// What is known of each caller.
fn have_ended(rt: &impl Abort, ended: &[Ended]) {
    let mut updates = 0u32;
    for (index, one) in ended.iter().enumerate() {
        same(
            rt,
            "a caller",
            usize::from(one.caller),
            index.saturating_add(1),
        );
        same(rt, "its mark", one.mark, 3);
        updates = updates.saturating_add(one.updates);
    }
    assert_eq!(rt; ended.len(), 8);
    same(rt, "updates", updates, 3);
    same(rt, "updates of the last", ended[7].updates, 2);
}
