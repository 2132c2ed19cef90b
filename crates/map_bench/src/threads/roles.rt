//! What each thread does.
ghost use Rattle.std.specs.Prelude.{◌≤◌};

use super::plan::Plan;
use super::reading::read;
use super::timed_desk::TimedDesk;
use super::times::Times;
use crate::robot::LARGE;
use crate::stop::Stop;
use map_fold::NoMemory;
use published_map::{MapName, Pass, Shared};
use rebuild_worker::{Bell, FreeGate, Rest, pair, work};
use std::alloc::Global;
use std::sync::Wait;
use std::time::Clock;

/// What all threads have.
#[derive(Drop)]
pub struct Stage<'a, L: MapName> {
    pub alloc: Global,
    pub shared: &'a Shared<L>,
    pub plan: &'a Plan,
    /// The workers' bells.
    pub bells: &'a [Bell],
}

impl<'a, L: MapName> Stage<'a, L> {
    /// Wakes the workers.
    pub fn ring(&self) {
        for bell in self.bells {
            bell.ring();
        }
    }

    /// Tells the readers and the workers to end.
    pub fn end(&self) {
        self.plan.end();
        for bell in self.bells {
            bell.stop();
        }
    }
}

/// What one thread does beside the writer, and with what.
#[derive(Drop)]
pub enum Role<P: Drop> {
    /// A worker's, from 1 to 2, and where it sleeps.
    Worker(u8, Rest),
    /// A reader's, and its pass.
    Reader(P),
}

// Roles, and the bells of the workers among them.
type Cast<P> = (Vec<Role<P>>, Vec<Bell>);

/// The roles of readers with these passes, and of up to 2 workers.
pub fn cast<P: Drop>(alloc: Global, workers: u8, passes: Vec<P>) -> Result<Cast<P>, NoMemory> {
    let mut roles = Vec::new(alloc);
    put_readers(&mut roles, passes)?;
    let bells = put_workers(alloc, workers, &mut roles)?;
    Ok((roles, bells))
}

// One worker alone is the second.
fn put_workers<P: Drop>(
    alloc: Global,
    workers: u8,
    roles: &mut Vec<Role<P>>,
) -> Result<Vec<Bell>, NoMemory> {
    let mut bells = Vec::new(alloc);
    for worker in 3_u8.saturating_sub(workers)..3 {
        let (bell, rest) = pair(alloc)?;
        bells.push(bell)?;
        roles.push(Role::Worker(worker, rest))?;
    }
    Ok(bells)
}

fn put_readers<P: Drop>(roles: &mut Vec<Role<P>>, passes: Vec<P>) -> Result<(), NoMemory> {
    for pass in passes {
        roles.push(Role::Reader(pass))?;
    }
    Ok(())
}

/// Plays a role to its end. How long its steps took.
pub fn play<L: MapName, R: Wait + Clock>(
    rt: &R,
    stage: &Stage<'_, L>,
    role: Role<Pass<L>>,
) -> Result<Times, Stop> {
    match role {
        Role::Worker(worker, rest) => Ok(help(rt, stage, worker.clamp(1, 2), rest)),
        Role::Reader(mut pass) => read(rt, stage, &mut pass),
    }
}

fn help<L: MapName, R: Wait + Clock>(rt: &R, stage: &Stage<'_, L>, worker: u8, rest: Rest) -> Times
    requires worker_from { 1 ≤ worker }
    requires worker_to { worker ≤ 2 }
{
    let mut rest = rest;
    let desk = TimedDesk::new(stage.alloc, stage.shared, rt, stage.plan);
    work(rt, stage.alloc, LARGE, worker, &desk, &FreeGate, &mut rest);
    desk.finish()
}
