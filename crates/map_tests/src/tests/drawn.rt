//! A drawn schedule of updates and of subtrees that are detached, built, brought up to date and swapped in, beside the plain
//! map.
ghost use Rattle.std.specs.Prelude.{◌≤◌};
ghost use Rattle.map_items.specs.Ops.{Fit};
ghost use Rattle.kd_tree.specs.Contents.{contents};

use crate::tests::assertions::{found, holds, made, same};
use crate::tests::beside::{compare, updated_plainly};
use crate::tests::draws::Draws;
use crate::tests::steps::{new_map, settled, swapped, updated};
use map_fold::{Op, PlainMap, Points, Settings, Update};
use rebuild_core::{Built, Job, LogAsk, MapState, SwapFault, SwapLeft};
use std::alloc::Global;
use std::process::Abort;

// What a turn came to.
#[derive(Clone, Copy, Debug, PartialEq, Eq)]
enum Turn {
    Updated,
    Settled,
    Detached,
    NothingDetached,
    Built,
    CaughtUp,
    Swapped,
    Behind,
    Stale,
    // Nothing was in hand.
    Idle,
}

// A map, the plain map beside it, and what its workers have in hand.
#[derive(Drop)]
struct Schedule {
    settings: Settings,
    large: u32,
    // How many points a scan has at least, and how many more it may have.
    scan: (u32, u32),
    state: MapState,
    plain: PlainMap,
    draws: Draws,
    jobs: Vec<Job>,
    values: Vec<Built>,
}

impl Schedule {
    fn new(rt: &impl Abort, alloc: Global, large: u32, scan: (u32, u32)) -> Schedule
        requires large_from { 16 ≤ large }
        requires large_to { large ≤ 1000000 }
    {
        let settings = Settings::new(3, large);
        Schedule {
            settings,
            large,
            scan,
            state: new_map(rt, alloc, settings),
            plain: PlainMap::new(alloc),
            draws: Draws::from(1),
            jobs: Vec::new(alloc),
            values: Vec::new(alloc),
        }
    }

    fn turn(&mut self, rt: &impl Abort, alloc: Global) -> Turn {
        match self.draws.below(64) {
            0..=5 => self.detach(rt, alloc),
            6..=13 => self.build(rt, alloc),
            14..=21 => self.catch_up(rt, alloc),
            22..=27 => self.swap(rt, alloc),
            28 => {
                settled(rt, alloc, &mut self.state);
                Turn::Settled
            }
            _ => self.update(rt, alloc),
        }
    }

    // A turn, after which the map is beside the plain one.
    fn compared_turn(&mut self, rt: &impl Abort, alloc: Global) -> Turn {
        let turn = self.turn(rt, alloc);
        let version = self.state.version();
        compare(rt, alloc, version, &self.plain, &mut self.draws);
        turn
    }

    fn update(&mut self, rt: &impl Abort, alloc: Global) -> Turn {
        let update = self.drawn_update(rt, alloc);
        holds(rt, "not many points", update.points() <= 2_000);
        updated_plainly(rt, alloc, &self.settings, &mut self.plain, &update);
        let caller = 1 + self.draws.below(8) as u8;
        made(rt, updated(alloc, &mut self.state, caller, update));
        Turn::Updated
    }

    // Now and then an update of more points than are put one by one.
    fn drawn_update(&mut self, rt: &impl Abort, alloc: Global) -> Update {
        match self.draws.below(8) {
            0 => Update::Add(self.drawn_scan(rt, alloc)),
            1 => Update::Thin(self.drawn_scan(rt, alloc)),
            // The older half of the numbers, or fewer.
            2 => {
                let next = u64::from(self.plain.next());
                Update::Expire((self.draws.below(next + 1) / 2) as u32)
            }
            _ => self.draws.update(rt, alloc, self.plain.next()),
        }
    }

    fn drawn_scan(&mut self, rt: &impl Abort, alloc: Global) -> Points {
        let (least, more) = self.scan;
        if more == 0 {
            return self.draws.scan(rt, alloc, least);
        }
        let extra = self.draws.below(u64::from(more)) as u32;
        self.draws.scan(rt, alloc, least.saturating_add(extra))
    }

    fn detach(&mut self, rt: &impl Abort, alloc: Global) -> Turn {
        let slot = 1 + self.draws.below(4) as u8;
        match made(rt, self.state.detach(alloc, slot)) {
            None => Turn::NothingDetached,
            Some(job) => {
                found(rt, self.jobs.push(job).ok());
                Turn::Detached
            }
        }
    }

    fn build(&mut self, rt: &impl Abort, alloc: Global) -> Turn {
        match taken(&mut self.draws, &mut self.jobs) {
            None => Turn::Idle,
            Some(job) => {
                let value = found(rt, job.build(alloc, self.large).ok());
                self.keep(rt, value);
                Turn::Built
            }
        }
    }

    fn catch_up(&mut self, rt: &impl Abort, alloc: Global) -> Turn {
        let Some(value) = taken(&mut self.draws, &mut self.values) else {
            return Turn::Idle;
        };
        match self.state.log_after(alloc, &value) {
            Ok(ops) => self.replay(rt, alloc, value, ops.as_slice()),
            Err(LogAsk::NoMemory) => panic!(rt; "no memory"),
            Err(LogAsk::Stale { .. }) => self.put_back(rt, value),
        }
    }

    fn replay(&mut self, rt: &impl Abort, alloc: Global, value: Built, ops: &[Op]) -> Turn
        requires { Fit (contents value.tree) ops.now }
    {
        let value = found(rt, value.replay(alloc, self.large, ops).ok());
        self.keep(rt, value);
        Turn::CaughtUp
    }

    fn swap(&mut self, rt: &impl Abort, alloc: Global) -> Turn {
        let Some(value) = taken(&mut self.draws, &mut self.values) else {
            return Turn::Idle;
        };
        let force = self.draws.below(4) == 0;
        match swapped(alloc, &mut self.state, value, force) {
            Ok(()) => Turn::Swapped,
            Err(left) => self.refused(rt, force, left),
        }
    }

    fn refused(&mut self, rt: &impl Abort, force: bool, left: SwapLeft) -> Turn {
        match left.fault {
            SwapFault::NoMemory => panic!(rt; "no memory"),
            SwapFault::Stale { ticket } => {
                same(rt, "the ticket", ticket, left.built.ticket());
                self.put_back(rt, left.built)
            }
            SwapFault::Behind { left: behind } => {
                holds(rt, "it is behind", !force && behind > 64);
                self.keep(rt, left.built);
                Turn::Behind
            }
        }
    }

    // A stale value is handed in again, or given up.
    fn put_back(&mut self, rt: &impl Abort, value: Built) -> Turn {
        if self.draws.below(2) == 0 {
            self.keep(rt, value);
        }
        Turn::Stale
    }

    fn keep(&mut self, rt: &impl Abort, value: Built) {
        found(rt, self.values.push(value).ok());
    }
}

// One of them, taken out, if there is one: the last as often as any.
fn taken<T: Drop>(draws: &mut Draws, from: &mut Vec<T>) -> Option<T> {
    if from.is_empty() {
        return None;
    }
    if draws.below(2) == 0 {
        return from.pop();
    }
    let place = draws.below(from.len() as u64) as usize;
    Some(from.swap_remove(place))
}

// How often a drawn schedule comes to each at least: more than a handful of times.
const LEAST: [(Turn, usize); 9] = [
    (Turn::Updated, 1_000),
    (Turn::Settled, 20),
    (Turn::Detached, 100),
    (Turn::NothingDetached, 20),
    (Turn::Built, 50),
    (Turn::CaughtUp, 20),
    (Turn::Swapped, 20),
    (Turn::Behind, 2),
    (Turn::Stale, 20),
];

#[test]
fn a_drawn_schedule_answers_as_the_plain_map_does(rt: HostRuntime) {
    let alloc = rt.alloc();
    drawn(&rt, alloc, 16, (80, 0), 3_000, &LEAST);
    // Whole scans, of which those beside subtrees of 100 nodes and more are put in pieces at once, and others one by one.
    for large in [16, 100] {
        let leasts = [(Turn::Swapped, 0)];
        drawn(&rt, alloc, large, (100, 500), 200, &leasts);
    }
}

// A schedule of so many turns, from the start.
fn drawn(
    rt: &impl Abort,
    alloc: Global,
    large: u32,
    scan: (u32, u32),
    count: u32,
    leasts: &[(Turn, usize)],
)
    requires large_from { 16 ≤ large }
    requires large_to { large ≤ 1000000 }
{
    let mut schedule = Schedule::new(rt, alloc, large, scan);
    compared(rt, alloc, &mut schedule, count, leasts);
}

// So many turns. More than so many of them come to each of these.
fn compared(
    rt: &impl Abort,
    alloc: Global,
    schedule: &mut Schedule,
    count: u32,
    leasts: &[(Turn, usize)],
) {
    let mut turns = Vec::new(alloc);
    for _ in 0..count {
        let turn = schedule.compared_turn(rt, alloc);
        made(rt, turns.push(turn));
    }
    for (turn, least) in leasts {
        is_frequent(rt, turns.as_slice(), *turn, *least);
    }
}

// More than so many of the turns came to this.
fn is_frequent(rt: &impl Abort, turns: &[Turn], turn: Turn, least: usize) {
    let count = turns.iter().filter(|t| **t == turn).count();
    assert!(rt; count > least, "{turn:?}: {count}");
}
