//! The writer.
use super::company::Company;
use super::roles::Stage;
use super::times::{Kind, Times};
use crate::bench::since;
use crate::course::{Scan, deletion};
use crate::stop::Stop;
use crate::sums::with_answers;
use map_fold::Update;
use published_map::{MapName, Pass};
use std::sync::Wait;
use std::thread::sleep;
use std::time::{Clock, Duration, Instant};

/// Takes in the plan's scans, and then tells the others to end. How long its updates beside the readers took, and the checksum of answers
/// at the end.
pub fn write<L: MapName, R: Wait + Clock>(
    rt: &R,
    stage: &Stage<'_, L>,
    pass: &mut Pass<L>,
) -> Result<Times, Stop> {
    let written = take_in_all(rt, stage, pass);
    stage.end();
    let mut times = written?;
    times.sum = with_answers(0, stage.alloc, pass.version().tree(), &stage.plan.places)?;
    Ok(times)
}

// How long the updates beside the readers took.
fn take_in_all<L: MapName, R: Wait + Clock>(
    rt: &R,
    stage: &Stage<'_, L>,
    pass: &mut Pass<L>,
) -> Result<Times, Stop> {
    let plan = stage.plan;
    let company = plan.company;
    let mut times = Times::new(stage.alloc);
    let at_once = company.at_once();
    take_in_each(rt, stage, pass, &plan.before, &at_once, &mut times)?;
    times.clear();
    plan.begin();
    let begun = Instant::now(rt);
    take_in_each(rt, stage, pass, &plan.beside, &company, &mut times)?;
    times.end(rt, Kind::Whole, begun)?;
    Ok(times)
}

// In the company's pace.
fn take_in_each<L: MapName, R: Wait + Clock>(
    rt: &R,
    stage: &Stage<'_, L>,
    pass: &mut Pass<L>,
    scans: &[Scan],
    company: &Company,
    times: &mut Times,
) -> Result<(), Stop> {
    for scan in scans {
        pause(rt, company.pause);
        let begun = Instant::now(rt);
        take_in(rt, stage, pass, scan, times)?;
        let took = since(rt, begun)?;
        pause(rt, company.turn.saturating_sub(took));
    }
    Ok(())
}

fn pause<R: Clock>(rt: &R, time: Duration) {
    if !time.is_zero() {
        sleep(rt, time);
    }
}

// Adds a scan, and deletes what is left then.
fn take_in<L: MapName, R: Wait + Clock>(
    rt: &R,
    stage: &Stage<'_, L>,
    pass: &mut Pass<L>,
    scan: &Scan,
    times: &mut Times,
) -> Result<(), Stop> {
    let points = scan.points.copy(stage.alloc)?;
    update(rt, stage, pass, Kind::Scan, Update::Add(points), times)?;
    match &scan.left {
        None => Ok(()),
        Some(left) => {
            let deletion = deletion(stage.alloc, left)?;
            update(rt, stage, pass, Kind::Deletion, deletion, times)
        }
    }
}

// Makes an update, and wakes the workers.
fn update<L: MapName, R: Wait + Clock>(
    rt: &R,
    stage: &Stage<'_, L>,
    pass: &mut Pass<L>,
    kind: Kind,
    update: Update,
    times: &mut Times,
) -> Result<(), Stop> {
    let begun = Instant::now(rt);
    stage.shared.update(rt, stage.alloc, pass, update)?;
    let done = times.end(rt, kind, begun);
    stage.ring();
    done
}
