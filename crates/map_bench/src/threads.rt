//! A map that threads share: a writer that adds scans, readers that ask without a pause, and workers that rebuild uneven
//! subtrees, each on a thread of its own.
ghost use Rattle.published_map.specs.Held.{IsOpenedAs};

pub mod company;
pub mod plan;
pub mod reading;
pub mod roles;
pub mod telling;
pub mod timed_desk;
pub mod times;
pub mod writing;

use self::company::{Company, Sharing};
use self::plan::Plan;
use self::roles::{Role, Stage, cast, play};
use self::telling::told;
use self::times::Times;
use self::writing::write;
use crate::robot::settings;
use crate::stop::Stop;
use crate::told::Told;
use crate::words::Size;
use published_map::{MapName, Opened, Pass, Shared};
use std::alloc::{AllocError, Global};
use std::marker::Brand;
use std::sync::Wait;
use std::sync::ledger::Blank;
use std::thread::{Threads, join, map_vec};
use std::time::Clock;

/// A map grows by scans to so many points. Then more scans are added to it beside the others of a company.
pub fn side_by_side<R: Threads + Wait + Clock + Sync>(
    rt: &R,
    alloc: Global,
    sharing: Sharing,
    size: Size,
) -> Result<Told, Stop> {
    let company = Company::of(sharing, size.asked)?;
    let times = planned(rt, alloc, company, size.count)?;
    told(alloc, sharing, company.scans, &times)
}

fn planned<R: Threads + Wait + Clock + Sync>(
    rt: &R,
    alloc: Global,
    company: Company,
    count: u32,
) -> Result<Times, Stop> {
    let plan = Plan::drawn(alloc, company, count)?;
    times_of(rt, alloc, company, &plan)
}

fn times_of<R: Threads + Wait + Clock + Sync>(
    rt: &R,
    alloc: Global,
    company: Company,
    plan: &Plan,
) -> Result<Times, Stop> {
    let callers = company.readers + 1;
    let opened = Opened::new(alloc, settings(company.large), callers)?;
    let blank = Blank::new(u64::from(callers));
    on_map::<Brand, R>(rt, alloc, blank, opened, plan)
}

fn on_map<L: MapName + Send + Sync, R: Threads + Wait + Clock + Sync>(
    rt: &R,
    alloc: Global,
    blank: Blank,
    opened: Opened,
    plan: &Plan,
) -> Result<Times, Stop>
    requires opened { IsOpenedAs L.name L.parts L.callers L.marks L.voxel blank opened }
{
    let (shared, passes) = Shared::<L>::start(rt, alloc, blank, opened)?;
    let done = run(rt, alloc, &shared, plan, passes);
    shared.close(rt);
    done
}

// The last pass is the writer's, which tells the others to end whether all of them could begin or not.
fn run<L: MapName + Send + Sync, R: Threads + Wait + Clock + Sync>(
    rt: &R,
    alloc: Global,
    shared: &Shared<L>,
    plan: &Plan,
    passes: Vec<Pass<L>>,
) -> Result<Times, Stop> {
    let mut passes = passes;
    let Some(mut writer) = passes.pop() else {
        return Ok(Times::new(alloc));
    };
    let (roles, bells) = cast(alloc, plan.company.workers, passes)?;
    let stage = Stage {
        alloc,
        shared,
        plan,
        bells: bells.as_slice(),
    };
    play_beside(rt, &stage, &mut writer, roles)
}

// Where no thread can be made, the writer is first, the others find that all is over, and a worker ends at once.
fn play_beside<L: MapName + Send + Sync, R: Threads + Wait + Clock + Sync>(
    rt: &R,
    stage: &Stage<'_, L>,
    writer: &mut Pass<L>,
    roles: Vec<Role<Pass<L>>>,
) -> Result<Times, Stop> {
    let (others, written) = join(
        rt,
        || play_all(rt, stage, roles),
        || write(rt, stage, writer),
    );
    together(written, others)
}

// The times of all who could begin, unless one of them stopped.
fn together(
    written: Result<Times, Stop>,
    others: Result<Vec<Result<Times, Stop>>, AllocError>,
) -> Result<Times, Stop> {
    let mut all = written?;
    add_all(&mut all, others?.as_slice())?;
    Ok(all)
}

fn add_all(all: &mut Times, others: &[Result<Times, Stop>]) -> Result<(), Stop> {
    for times in others {
        match times {
            Ok(times) => all.add(times)?,
            Err(stop) => return Err(*stop),
        }
    }
    Ok(())
}

// Where memory runs out, some roles may not have been played.
fn play_all<L: MapName + Send + Sync, R: Threads + Wait + Clock + Sync>(
    rt: &R,
    stage: &Stage<'_, L>,
    roles: Vec<Role<Pass<L>>>,
) -> Result<Vec<Result<Times, Stop>>, AllocError> {
    map_vec(rt, roles, &|role| play(rt, stage, role))
}
