//! Single operations.
use crate::{Choice, Sequence, Tag};
use point_geom::Point;

#[derive(Clone, Copy, Debug, PartialEq, Eq)]
pub enum Op {
    Mark { choice: Choice, tag: Tag },
    /// Holds the point, live, under this number.
    Put { number: u32, point: Point },
}

pub type Ops = Sequence<Op>;
