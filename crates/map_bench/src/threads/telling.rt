//! What is told of a map that threads shared.
use super::company::Sharing;
use super::times::{Kind, Times};
use crate::stop::Stop;
use crate::told::Told;
use std::alloc::Global;
use std::fmt::Write;

/// What is told of a work in which the writer added so many scans.
pub fn told(alloc: Global, sharing: Sharing, scans: u32, times: &Times) -> Result<Told, Stop> {
    let figures = match sharing {
        Sharing::Readers | Sharing::Paced => speeds(alloc, times, scans)?,
        Sharing::Steady | Sharing::Inline | Sharing::Unhelped => lines(alloc, times)?,
    };
    let sum = times.sum;
    Ok(Told { figures, sum })
}

// The kinds of steps that a steady map is told of, each behind what begins its line.
const LINES: [(&str, Kind); 6] = [
    ("scan", Kind::Scan),
    ("\ndeletion", Kind::Deletion),
    ("\nquery", Kind::Query),
    ("\ndetach", Kind::Detach),
    ("\nswap", Kind::Swap),
    ("\nlog", Kind::Log),
];

fn lines(alloc: Global, times: &Times) -> Result<String, Stop> {
    let mut text = String::new(alloc);
    put_lines(alloc, times, &mut text)?;
    Ok(text)
}

fn put_lines(alloc: Global, times: &Times, text: &mut String) -> Result<(), Stop> {
    for (name, kind) in &LINES {
        let figures = times.figures(alloc, *kind)?;
        write!(text, "{name} {figures}")?;
    }
    Ok(())
}

// Of readers the queries a second of them all, the microseconds of the longest query, and the writer's for each of so many scans.
fn speeds(alloc: Global, times: &Times, scans: u32) -> Result<String, Stop> {
    let queries = times.figures(alloc, Kind::Query)?;
    let whole = times.all(Kind::Whole);
    let writing = times
        .all(Kind::Scan)
        .saturating_add(times.all(Kind::Deletion));
    let each_second = (queries.steps as u64).saturating_mul(1_000_000_000) / whole.max(1);
    let longest = queries.longest / 1_000;
    let each_scan = writing / u64::from(scans).max(1) / 1_000;
    Ok(format!(in alloc; "{each_second} {longest} {each_scan}")?)
}
