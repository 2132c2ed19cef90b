//! What all threads look at.
use super::company::Company;
use crate::course::{Lie, POINTS_OF_SCAN, Scan, places, scans};
use crate::draws::Draws;
use crate::stop::Stop;
use map_fold::Points;
use std::alloc::Global;
use std::sync::atomic::{AtomicBool, Ordering};

const PLACES: u32 = 10_000;

/// What the map grows by, what is added beside the readers, and where they ask.
#[derive(Drop)]
pub struct Plan {
    pub company: Company,
    pub before: Vec<Scan>,
    pub beside: Vec<Scan>,
    pub places: Points,
    has_begun: AtomicBool,
    is_over: AtomicBool,
}

impl Plan {
    /// The scans to so many points, and those that come after them.
    pub fn drawn(alloc: Global, company: Company, count: u32) -> Result<Plan, Stop> {
        let mut draws = Draws::new();
        let count = count.saturating_add(company.scans.saturating_mul(POINTS_OF_SCAN));
        let mut before = scans(alloc, Lie::Left, count, &mut draws)?;
        let at = before.len().saturating_sub(company.scans as usize);
        let beside = before.split_off(at)?;
        Ok(Plan {
            company,
            before,
            beside,
            places: places(alloc, PLACES, count, &mut draws)?,
            has_begun: AtomicBool::new(false),
            is_over: AtomicBool::new(false),
        })
    }

    /// The scans beside the readers begin.
    pub fn begin(&self) {
        self.has_begun.store(true, Ordering::SeqCst);
    }

    /// No further scan comes.
    pub fn end(&self) {
        self.is_over.store(true, Ordering::SeqCst);
    }

    pub fn is_over(&self) -> bool {
        self.is_over.load(Ordering::SeqCst)
    }

    /// Whether steps are to be looked at.
    pub fn is_on(&self) -> bool {
        self.has_begun.load(Ordering::SeqCst) && !self.is_over()
    }
}
