//! What is told of a work.
use crate::stop::Stop;
use crate::sums::with_items;
use kd_tree::Tree;
use std::alloc::Global;

/// What is told of a work.
#[derive(Drop)]
pub struct Told {
    pub figures: String,
    /// The checksum of all answers on the way, and of all that is held at the end.
    pub sum: u64,
}

impl Told {
    /// How long a work took that has this checksum.
    pub fn timed(alloc: Global, micros: u128, sum: u64) -> Result<Told, Stop> {
        let figures = format!(in alloc; "{micros}")?;
        Ok(Told { figures, sum })
    }

    /// The same of a work that had this checksum so far, and left this tree.
    pub fn left(alloc: Global, micros: u128, sum: u64, tree: &Tree) -> Result<Told, Stop> {
        Told::timed(alloc, micros, with_items(sum, alloc, tree)?)
    }
}
