//! What a worker asks of a map that counts and refuses, and of one that grows.
ghost use Rattle.std.specs.Prelude.{◌≡◌, ◌≤◌, IfErr};
ghost use Rattle.rebuild_core.specs.Desk.{IsSwapCause};

use crate::tests::assertions::{found, holds, made, same};
use crate::tests::unbalanced::{add, with_forty, with_two_breaches};
use map_fold::{NoMemory, Ops, Points, Settings};
use point_geom::Point;
use rebuild_core::{Built, Desk, Job, LogAsk, MapState, StateFault, SwapFault, SwapLeft};
use rebuild_worker::{Bell, CountDesk, FreeGate, Gate, HoldGate, pair, work};
use std::alloc::Global;
use std::process::Abort;
use std::sync::atomic::{AtomicU64, Ordering};
use std::sync::{Mutex, Wait};
use std::thread::{Threads, join, sleep};
use std::time::{Clock, Duration};

// Done, or why not.
type Done<E> = Result<(), E>;

// Before each build it notes the ticket. It rings before the first ones, and from the last one on it tells the worker to end.
#[derive(Drop)]
struct StopGate {
    bell: Bell,
    last: u64,
    // The tickets so far as digits, the first one's first.
    tickets: AtomicU64,
}

impl Gate for StopGate {
    fn before_build(&self, ticket: u64) {
        let before = self.tickets.load(Ordering::SeqCst);
        let tickets = before.saturating_mul(10).saturating_add(ticket);
        self.tickets.store(tickets, Ordering::SeqCst);
        if ticket < self.last {
            self.bell.ring();
        } else {
            self.bell.stop();
        }
    }

    fn replied(&self, _caller: u8, _index: u32) {}
}

// Lets a worker do its rounds up to that in which it builds the job of this ticket. Answers the tickets of the jobs.
fn work_up_to<D: Desk, R: Wait + Abort>(
    rt: &R,
    alloc: Global,
    worker: u8,
    desk: &D,
    last: u64,
) -> u64
    requires worker_from { 1 ≤ worker }
    requires worker_to { worker ≤ 2 }
{
    let (bell, mut rest) = made(rt, pair(alloc));
    let gate = StopGate {
        bell,
        last,
        tickets: AtomicU64::new(0),
    };
    work(rt, alloc, 16, worker, desk, &gate, &mut rest);
    gate.tickets.load(Ordering::SeqCst)
}

// The ticket of the part in the slot.
fn ticket(state: &MapState, slot: u8) -> Option<u64> {
    let part = state.part(slot)?;
    Some(part.ticket)
}

// The parts in these slots have these tickets.
fn have_tickets(rt: &impl Abort, state: &MapState, wanted: &[(u8, Option<u64>)]) {
    for (slot, want) in wanted {
        same(rt, "the ticket", ticket(state, *slot), *want);
    }
}

// The state that the first worker leaves behind, which did these jobs up to that of the last ticket, and asked so often. Its first two
// slots have these tickets.
fn left_by<R: Wait + Abort>(
    rt: &R,
    alloc: Global,
    desk: CountDesk,
    (last, jobs, asked): (u64, u64, u32),
    tickets: (Option<u64>, Option<u64>),
) -> MapState {
    let done = work_up_to(rt, alloc, 1, &desk, last);
    same(rt, "the jobs", done, jobs);
    let (state, calls) = desk.finish(rt);
    same(rt, "calls", calls, asked);
    have_tickets(rt, &state, &[(1, tickets.0), (2, tickets.1)]);
    state
}

#[test]
fn a_ring_before_the_sleep_is_not_lost(rt: HostRuntime) {
    let alloc = rt.alloc();
    // Each swap is refused, so the worker goes to sleep behind each build, before which it was rung for.
    let refused = made(&rt, vec![in alloc; 3, 6]);
    let desk = CountDesk::new(with_forty(&rt, alloc), refused);
    left_by(&rt, alloc, desk, (2, 12, 6), (Some(2), None));
}

#[test]
fn a_part_whose_swap_was_refused_is_detached_afresh(rt: HostRuntime) {
    let alloc = rt.alloc();
    let refused = made(&rt, vec![in alloc; 3]);
    let desk = CountDesk::new(with_forty(&rt, alloc), refused);
    let mut state = left_by(&rt, alloc, desk, (1, 1, 3), (Some(1), None));
    let is_detached = made(&rt, state.detach(alloc, 1)).is_some();
    holds(&rt, "it is detached", is_detached);
    have_tickets(&rt, &state, &[(1, Some(2))]);
}

#[test]
fn both_jobs_of_a_round_are_done_in_order(rt: HostRuntime) {
    let alloc = rt.alloc();
    let desk = CountDesk::new(with_two_breaches(&rt, alloc), Vec::new(alloc));
    let state = left_by(&rt, alloc, desk, (1, 12, 4), (None, None));
    let is_balanced = state.version().tree().first_breach(16).is_none();
    holds(&rt, "nothing is to be rebuilt", is_balanced);
}

#[test]
fn want_of_memory_for_a_job_leaves_the_other(rt: HostRuntime) {
    let alloc = rt.alloc();
    let refused = made(&rt, vec![in alloc; 3]);
    let desk = CountDesk::new(with_two_breaches(&rt, alloc), refused);
    left_by(&rt, alloc, desk, (1, 12, 4), (Some(1), None));
}

#[test]
fn the_second_worker_has_the_third_and_fourth_slots(rt: HostRuntime) {
    let alloc = rt.alloc();
    let refused = made(&rt, vec![in alloc; 3, 4]);
    let desk = CountDesk::new(with_two_breaches(&rt, alloc), refused);
    let done = work_up_to(&rt, alloc, 2, &desk, 1);
    same(&rt, "the jobs", done, 12);
    let (state, _) = desk.finish(&rt);
    let tickets = [(1, None), (2, None), (3, Some(1)), (4, Some(2))];
    have_tickets(&rt, &state, &tickets);
}

// A map whose callers add 65 points before each swap that isn't forced.
#[derive(Drop)]
struct BusyDesk {
    busy: Mutex<Busy>,
}

#[derive(Drop)]
struct Busy {
    state: MapState,
    unforced: u32,
    // The most operations that a value was behind.
    most_left: u32,
}

impl Desk for BusyDesk {
    fn detach<R: Wait>(&self, rt: &R, alloc: Global, slot: u8) -> Result<Option<Job>, NoMemory> {
        self.busy.lock(rt).state.detach(alloc, slot)
    }

    fn log_after<R: Wait>(&self, rt: &R, alloc: Global, built: &Built) -> Result<Ops, LogAsk> {
        self.busy.lock(rt).state.log_after(alloc, built)
    }

    fn swap<R: Wait>(&self, rt: &R, alloc: Global, built: Built, force: bool) -> Done<SwapLeft> {
        let mut busy = self.busy.lock(rt);
        if !force && busy.grow(alloc).is_err() {
            let fault = SwapFault::NoMemory;
            return Err(SwapLeft { built, fault });
        }
        busy.swapped(alloc, built, force)
    }
}

// They jump to and fro along a row, so that the tree stays low.
fn place(turn: u32, n: u32) -> Point {
    let x = (u64::from(turn) * 65 + u64::from(n)) * 7_919 % 10_007;
    Point::new(x as i64, 0, 0).unwrap_or_default()
}

impl Busy {
    // Adds 65 points, each at a place of its own.
    fn grow(&mut self, alloc: Global) -> Result<(), StateFault> {
        let mut points = Points::new(alloc);
        for n in 0..65u32 {
            points.push(place(self.unforced, n))?;
        }
        self.unforced = self.unforced.saturating_add(1);
        add(alloc, &mut self.state, points)?;
        Ok(())
    }

    // Swaps the value in, or notes how many operations it was behind.
    fn swapped(&mut self, alloc: Global, built: Built, force: bool) -> Done<SwapLeft>
        ensures handed_back { IfErr result (λ l. l.built ≡ built) }
        ensures refused { IfErr result (λ l. IsSwapCause built force l.fault) }
    {
        let Err(swap) = self.state.swap_uncounted(alloc, built, force) else {
            return Ok(());
        };
        if let SwapFault::Behind { left } = swap.fault {
            self.most_left = self.most_left.max(left);
        }
        Err(swap)
    }
}

#[test]
fn a_swap_is_forced_after_eight_tries(rt: HostRuntime) {
    let alloc = rt.alloc();
    let desk = BusyDesk {
        busy: Mutex::new(Busy {
            state: with_forty(&rt, alloc),
            unforced: 0,
            most_left: 0,
        }),
    };
    let done = work_up_to(&rt, alloc, 1, &desk, 1);
    same(&rt, "the jobs", done, 1);
    let busy = desk.busy.into_inner();
    same(&rt, "swaps that were not forced", busy.unforced, 8);
    // It was brought up to date each time.
    same(&rt, "the most operations behind", busy.most_left, 65);
    have_tickets(&rt, &busy.state, &[(1, None)]);
    let live = busy.state.version().counts().live;
    same(&rt, "live points", live, 40 + 8 * 65);
}

// A map that has its worker end once it is asked for so many jobs.
#[derive(Drop)]
struct EndDesk {
    desk: CountDesk,
    bell: Bell,
    last: u64,
    asked: AtomicU64,
}

impl Desk for EndDesk {
    fn detach<R: Wait>(&self, rt: &R, alloc: Global, slot: u8) -> Result<Option<Job>, NoMemory> {
        let asked = self.asked.load(Ordering::SeqCst).saturating_add(1);
        self.asked.store(asked, Ordering::SeqCst);
        if asked == self.last {
            self.bell.stop();
        }
        self.desk.detach(rt, alloc, slot)
    }

    fn log_after<R: Wait>(&self, rt: &R, alloc: Global, built: &Built) -> Result<Ops, LogAsk> {
        self.desk.log_after(rt, alloc, built)
    }

    fn swap<R: Wait>(&self, rt: &R, alloc: Global, built: Built, force: bool) -> Done<SwapLeft> {
        self.desk.swap(rt, alloc, built, force)
    }
}

#[test]
fn a_worker_looks_again_once_it_did_one_job(rt: HostRuntime) {
    let alloc = rt.alloc();
    let (bell, mut rest) = made(&rt, pair(alloc));
    let desk = EndDesk {
        desk: CountDesk::new(with_forty(&rt, alloc), Vec::new(alloc)),
        bell,
        last: 3,
        asked: AtomicU64::new(0),
    };
    // Nobody rings for it.
    work(&rt, alloc, 16, 1, &desk, &FreeGate, &mut rest);
    let (_, calls) = desk.desk.finish(&rt);
    same(
        &rt,
        "two jobs were asked for twice, and one was done",
        calls,
        5,
    );
}

// Lets a worker do its rounds for a while, for which nobody rings.
fn work_for_a_while<R: Threads + Wait + Clock + Abort + Sync>(
    rt: &R,
    alloc: Global,
    desk: &CountDesk,
) {
    let (bell, mut rest) = made(rt, pair(alloc));
    join(
        rt,
        || {
            sleep(rt, Duration::from_millis(50));
            bell.stop();
        },
        || work(rt, alloc, 16, 1, desk, &FreeGate, &mut rest),
    );
}

#[test]
fn a_worker_sleeps_where_memory_ran_out(rt: HostRuntime) {
    let alloc = rt.alloc();
    let state = made(&rt, MapState::new(alloc, Settings::new(200, 16)));
    let desk = CountDesk::new(state, made(&rt, vec![in alloc; 1]));
    work_for_a_while(&rt, alloc, &desk);
    let (_, calls) = desk.finish(&rt);
    holds(&rt, "it asked for both jobs once at most", calls <= 2);
}

// What was built of the map's first subtree.
fn first_built(rt: &impl Abort, alloc: Global, state: &mut MapState) -> Built {
    let job = found(rt, made(rt, state.detach(alloc, 1)));
    found(rt, job.build(alloc, 16).ok())
}

#[test]
fn a_map_that_refuses_says_that_memory_ran_out(rt: HostRuntime) {
    let alloc = rt.alloc();
    let mut state = with_forty(&rt, alloc);
    let built = first_built(&rt, alloc, &mut state);
    let desk = CountDesk::new(state, made(&rt, vec![in alloc; 1]));
    let left = found(&rt, desk.swap(&rt, alloc, built, true).err());
    same(&rt, "the cause", left.fault, SwapFault::NoMemory);
}

// Lets a worker do its rounds beside a caller, which tells it to end after two replies.
fn work_beside<R: Threads + Wait + Abort + Sync>(
    rt: &R,
    alloc: Global,
    desk: &CountDesk,
    gate: &HoldGate,
) {
    let (bell, mut rest) = made(rt, pair(alloc));
    join(
        rt,
        || {
            gate.replied(1, 0);
            gate.replied(1, 1);
            bell.stop();
        },
        || work(rt, alloc, 16, 1, desk, gate, &mut rest),
    );
}

#[test]
fn a_worker_builds_beside_a_caller_until_it_is_told_to_end(rt: HostRuntime) {
    let alloc = rt.alloc();
    let desk = CountDesk::new(with_forty(&rt, alloc), Vec::new(alloc));
    let gate = HoldGate::new(0, 1, 100_000_000);
    work_beside(&rt, alloc, &desk, &gate);
    holds(&rt, "both were held up", gate.held());
    let (state, calls) = desk.finish(&rt);
    // It may have looked for jobs once more before it was told.
    holds(&rt, "the calls", calls == 3 || calls == 5);
    have_tickets(&rt, &state, &[(1, None)]);
}
