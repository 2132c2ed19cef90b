//! A reader.
use super::plan::Plan;
use super::roles::Stage;
use super::times::{Kind, Times};
use crate::stop::Stop;
use published_map::{MapName, Pass};
use std::alloc::Global;
use std::sync::Wait;
use std::thread::sleep;
use std::time::{Clock, Duration, Instant};

/// Asks for the 5 nearest again and again, from the first scan beside the readers until no further one comes. How long each query took.
pub fn read<L: MapName, R: Wait + Clock>(
    rt: &R,
    stage: &Stage<'_, L>,
    pass: &mut Pass<L>,
) -> Result<Times, Stop> {
    let mut times = Times::new(stage.alloc);
    for _ in rt.forever() {
        if stage.plan.is_over() {
            break;
        }
        if stage.plan.is_on() {
            ask_each(rt, stage.alloc, stage.plan, pass, &mut times)?;
        } else {
            sleep(rt, Duration::from_millis(1));
        }
    }
    Ok(times)
}

// Asks at each place in turn.
fn ask_each<L: MapName, R: Clock>(
    rt: &R,
    alloc: Global,
    plan: &Plan,
    pass: &mut Pass<L>,
    times: &mut Times,
) -> Result<(), Stop> {
    for place in plan.places.as_slice() {
        if plan.is_over() {
            break;
        }
        let begun = Instant::now(rt);
        let _reply = pass.nearest(alloc, 5, place, None)?;
        times.end(rt, Kind::Query, begun)?;
    }
    Ok(())
}
