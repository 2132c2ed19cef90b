//! How long trees take to be built, asked and changed, on generated points.
//!
//! Words: `WORK N Q`, where N is how many points there are, up to 4,194,304, and the work one of
//! - `build`: a tree is built of them;
//! - `ask`: that tree is asked Q times for the 5 nearest;
//! - `after`: a tree that grew as by `scans` is asked;
//! - `singly`, `nears`: a tree that was built is asked for the 5 nearest of Q places, one after the other and all at once, and the answers
//!   are kept;
//! - `box`: Q cubes of a metre are deleted from a tree that was built;
//! - `clusters`, `lonely`: a tree that was built is asked for its clusters, and for the points that stand alone, by steps of Q millimetres;
//! - `scans`: a tree grows by scans of 2,000 points, and after each tenth the slab that is left is deleted;
//! - `held`: the same, while the version before each scan is held until the scan is done;
//! - `turn`: the same without versions, but each point is asked for its 5 nearest before its scan is added;
//! - `thin`: the state of a map thins such scans, at half a metre, and after each tenth the slab that is left is deleted;
//! - `odometry`: the same, but each point is asked for its 5 nearest before its scan is thinned;
//! - `batches`: as `odometry`, but a scan's points are asked for at once;
//! - `drawn`, `rising`, `equal`: a state takes N points that lie so, 262,144 an update, with Q as the size of a large subtree;
//! - `readers`: a shared map grows so to N points, and then Q readers, from 1 to 7, ask it beside a writer that adds a hundred scans more;
//! - `paced`: the same, but the writer sleeps for 50 milliseconds before each scan;
//! - `steady`: a shared map grows so to N points, and then takes 300 scans more, one every 10 milliseconds, beside a reader that asks
//!   without a pause, while Q workers, 1 or 2, rebuild large subtrees;
//! - `inline`, `unhelped`: as `steady`, but the updates rebuild everything, or nobody rebuilds large subtrees.
//! Of a work that names no Q any number may stand there.
//!
//! The work's checksum goes to standard output, the microseconds that it took to standard error; of readers the queries a second,
//! the microseconds of the longest query and the writer's for each scan. Of a steady map a line for each kind of step: how many there
//! were, and microseconds of the median, the 99th percentile, the 99.9th and the longest. The kinds are updates by a scan, deletions
//! of what is left, queries, and what workers ask of the map: to detach a subtree, to swap it in, to tell what it has met. These have
//! the waiting for the lock with them.
#![tactic(auto)]

ghost use Rattle.kd_tree.specs.Counter.{IsBlankOf};

mod bench;
mod course;
mod draws;
mod growing;
mod grown;
mod robot;
mod searches;
mod stop;
mod sums;
mod threads;
mod told;
mod words;
mod works;

use crate::bench::Bench;
use crate::stop::Stop;
use crate::told::Told;
use crate::words::{Size, Work};
use crate::works::worked;
use kd_tree::Steps;
use std::marker::Brand;
use std::process::ExitCode;
use std::rt::Env;
use std::sync::Wait;
use std::sync::ledger::{Blank, Ledger};
use std::thread::Threads;
use std::time::Clock;
use std::{env, io};

fn main(rt: HostRuntime) -> ExitCode {
    match measure(&rt) {
        Ok(()) => ExitCode::from(0),
        Err(Stop::Words | Stop::Full) => ExitCode::from(2),
        Err(Stop::NoMemory) => ExitCode::from(5),
        Err(Stop::Outside) => ExitCode::from(4),
    }
}

fn measure<R: AllocGlobal + Env + Print + Eprint + Clock + Threads + Wait + Sync>(
    rt: &R,
) -> Result<(), Stop> {
    let words = Vec::from_iter(rt.alloc(), env::args(rt)?)?;
    do_asked(rt, words.as_slice())
}

// Does the work that the words ask for.
fn do_asked<R: AllocGlobal + Print + Eprint + Clock + Threads + Wait + Sync>(
    rt: &R,
    words: &[String],
) -> Result<(), Stop> {
    let [_, name, count, asked] = words else {
        return Err(Stop::Words);
    };
    let (name, count, asked) = (name.as_str(), count.as_str(), asked.as_str());
    let (Some(work), Some(size)) = (Work::named(name), Size::of(count, asked)) else {
        return Err(Stop::Words);
    };
    let told = measured::<Brand, R>(rt, work, size, Blank::new(1))?;
    print(rt, name, count, asked, &told)?;
    Ok(())
}

fn print<R: Print + Eprint>(
    rt: &R,
    name: &str,
    count: &str,
    asked: &str,
    told: &Told,
) -> io::Result<()> {
    let (figures, sum) = (told.figures.as_str(), told.sum);
    eprintln!(rt; "{figures}")?;
    println!(rt; "{name} {count} {asked} sum {sum}")
}

// What is told of a work of this size.
fn measured<L: Ledger, R: AllocGlobal + Clock + Threads + Wait + Sync>(
    rt: &R,
    work: Work,
    size: Size,
    blank: Blank,
) -> Result<Told, Stop>
    requires blank { IsBlankOf L.name L.parts blank }
{
    let mut bench: Bench<'_, L, R> = Bench {
        rt,
        alloc: rt.alloc(),
        size,
        steps: Steps::new(blank),
    };
    worked(&mut bench, work)
}
