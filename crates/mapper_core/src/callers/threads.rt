//! The whole run of a script by its callers.
ghost use Rattle.std.specs.{Prelude.{◌≡◌, ◌<◌, ◌≤◌, ℕ, IfOk}, List.{AllByRecursion}};
ghost use Rattle.scan_log.specs.{Legal.{AreLegalReplies}, Plain.{IsPlainScript}, Poses.{plain_script}};
ghost use Rattle.published_map.specs.Held.{IsOpenedAs};
ghost use Rattle.mapper_core.specs.{Ended.{CanRun, HaveEnded}, Meetings.{HasCaller, StandingAtEnd}};

use super::alarm::{Bells, Post};
use super::naming::callers_in;
use super::script::run_commands;
use super::stage::Stage;
use map_items::{MAX_LARGE, MIN_LARGE, NoMemory};
use mapper_base::Replies;
use published_map::{MapName, Opened, Pass, Shared};
use rebuild_worker::{Gate, pair, work};
use scan_log::{PlainScript, Script};
use std::alloc::Global;
use std::marker::Brand;
use std::sync::Wait;
use std::sync::ledger::Blank;
use std::thread::{Threads, join};

type Run<L> = Result<(Vec<Pass<L>>, Replies), NoMemory>;

// What the callers return, who run beside this worker.
fn beside_worker<
    L: MapName + Send + Sync,
    G: Gate + Sync,
    R: Threads + Wait + Sync,
    F: FnOnce() -> T,
    T,
>(rt: &R, stage: &Stage<'_, L, G>, worker: u8, post: Post, callers: F) -> T
    requires worker_from { 1 ≤ worker }
    requires worker_to { worker ≤ 2 }
    requires large_from { MIN_LARGE ≤ post.large }
    requires large_to { post.large ≤ MAX_LARGE }
    requires callers { F.pre callers }
    ensures { F.post callers result }
{
    let alloc = stage.alloc;
    let shared = stage.shared;
    let gate = stage.gate;
    let (_, all) = join(
        rt,
        move ||
            requires { (1 ≤ worker) × (worker ≤ 2) × (MIN_LARGE ≤ post.large) × (post.large ≤ MAX_LARGE) }
        {
            let mut post = post;
            work(rt, alloc, post.large, worker, shared, gate, &mut post.rest)
        },
        callers,
    );
    all
}

// Stops both workers when the callers have ended.
fn beside_second<L: MapName + Send + Sync, G: Gate + Sync, R: Threads + Wait + Sync>(
    rt: &R,
    stage: &Stage<'_, L, G>,
    post: Post,
    script: &PlainScript,
    passes: Vec<Pass<L>>,
) -> Run<L>
    requires plain { IsPlainScript script.now }
    requires large_from { MIN_LARGE ≤ post.large }
    requires large_to { post.large ≤ MAX_LARGE }
    requires ready { CanRun L.callers L.parts L.voxel script.now passes.items }
    ensures { IfOk result (λ r. StandingAtEnd L.voxel L.callers script.now.commands r.0.items r.1) }
{
    beside_worker(
        rt,
        stage,
        2,
        post,
        || -> Run<L>
            requires { IsPlainScript script.now × CanRun L.callers L.parts L.voxel script.now passes.items }
            ensures { IfOk result (λ r. StandingAtEnd L.voxel L.callers script.entry.now.commands r.0.items r.1) }
        {
            let all = run_commands(rt, stage, script.commands(), passes);
            stage.bells.stop();
            all
        },
    )
}

/// Each caller runs its commands on a thread of its own, in order, while two workers rebuild; all meet at each barrier and at the
/// end. The passes are all of this map's, and the map was started with the script's settings. Each caller rings the workers' bells
/// after each change, of which a pose is one, and calls the gate after each reply. A query of many places is split among threads.
/// Without a thread, the calling one does the work: a caller's commands, in the callers' order, while the others run, or a worker
/// once it is stopped. Copies the script, at about its memory.
pub fn run_callers<L: MapName + Send + Sync, G: Gate + Sync, R: Threads + Wait + Sync>(
    rt: &R,
    alloc: Global,
    shared: &Shared<L>,
    passes: Vec<Pass<L>>,
    script: &Script,
    gate: &G,
) -> Result<(Vec<Pass<L>>, Replies), NoMemory>
    requires ready { CanRun L.callers L.parts L.voxel script.now passes.items }
    // All passes come back with one history, which has the script's updates of each caller, and each reply is that at its mark.
    ensures ended { IfOk result (λ r. HaveEnded L.callers (plain_script script.now) r.0.items r.1) }
    ensures legal { IfOk result (λ r. AreLegalReplies (plain_script script.now) r.1) }
{
    let plain = PlainScript::copied(alloc, script)?;
    run_plain(rt, alloc, shared, passes, &plain, gate)
}

fn run_plain<L: MapName + Send + Sync, G: Gate + Sync, R: Threads + Wait + Sync>(
    rt: &R,
    alloc: Global,
    shared: &Shared<L>,
    passes: Vec<Pass<L>>,
    script: &PlainScript,
    gate: &G,
) -> Run<L>
    requires ready { CanRun L.callers L.parts L.voxel script.now passes.items }
    ensures ended { IfOk result (λ r. HaveEnded L.callers script.now r.0.items r.1) }
    ensures legal { IfOk result (λ r. AreLegalReplies script.now r.1) }
{
    let large = script.settings().large();
    let (first, rest) = pair(alloc)?;
    let post = Post { rest, large };
    let (second, rest) = pair(alloc)?;
    let other = Post { rest, large };
    let bells = Bells { first, second };
    let stage = Stage {
        alloc,
        shared,
        gate,
        bells: &bells,
    };
    let _commands = script.commands();
    beside_worker(
        rt,
        &stage,
        1,
        post,
        || -> Run<L>
            requires { IsPlainScript script.now × (MIN_LARGE ≤ other.large) × (other.large ≤ MAX_LARGE) × CanRun L.callers L.parts L.voxel script.now passes.items }
            ensures { IfOk result (λ r. StandingAtEnd L.voxel L.callers script.entry.now.commands r.0.items r.1) }
        { beside_second(rt, &stage, other, script, passes) },
    )
}

// The replies on a map of this name, which has the callers up to the greatest that the script names, and no more.
fn run_map<L: MapName + Send + Sync, G: Gate + Sync, R: Threads + Wait + Sync>(
    rt: &R,
    alloc: Global,
    script: &PlainScript,
    gate: &G,
    blank: Blank,
    opened: Opened,
) -> Result<Replies, NoMemory>
    requires opened { IsOpenedAs L.name L.parts L.callers L.marks L.voxel blank opened }
    requires voxel { opened.voxel ≡ script.now.sizes.voxel }
    requires named { AllByRecursion (HasCaller L.callers) script.now.commands }
    requires callers { 0 < opened.callers }
    requires no_more { (n : ℕ) → 1 ≤ n → AllByRecursion (HasCaller n) script.now.commands → L.callers ≤ n }
    ensures { IfOk result (λ rs. AreLegalReplies script.now rs) }
{
    let (shared, passes) = Shared::<L>::start(rt, alloc, blank, opened)?;
    let all = run_plain(rt, alloc, &shared, passes, script, gate);
    shared.close(rt);
    let (_passes, replies) = all?;
    Ok(replies)
}

/// The replies of all callers and the one at the end, by `run_callers` on a new map. Copies the script, at about its memory.
pub fn threaded<G: Gate + Sync, R: Threads + Wait + Sync>(
    rt: &R,
    alloc: Global,
    script: &Script,
    gate: &G,
) -> Result<Replies, NoMemory>
    ensures { IfOk result (λ rs. AreLegalReplies (plain_script script.now) rs) }
{
    let plain = PlainScript::copied(alloc, script)?;
    threaded_plain(rt, alloc, &plain, gate)
}

/// As `threaded`, of a script without poses, which isn't copied.
pub fn threaded_plain<G: Gate + Sync, R: Threads + Wait + Sync>(
    rt: &R,
    alloc: Global,
    script: &PlainScript,
    gate: &G,
) -> Result<Replies, NoMemory>
    ensures { IfOk result (λ rs. AreLegalReplies script.now rs) }
{
    let callers = callers_in(script.commands());
    let opened = Opened::new(alloc, *script.settings(), callers)?;
    let blank = Blank::new(u64::from(callers));
    run_map::<Brand, G, R>(rt, alloc, script, gate, blank, opened)
}
