//! Items as they are in the array.
//!
//! A segment of at most `LEAF` cells is a leaf. In a longer one the first cell parts the others by its plane: on its axis no cell of
//! their first part is above it, and none of the rest below. Both are segments again. So the array is a tree. Each cell says itself
//! where it cuts, since planes near the middle of the widest span leave out more of a search than medians do.
ghost use Rattle.std.specs.Prelude.{◌≡◌, ◌*◌, ◌/◌, ◌≤◌};

use point_geom::{Axis, Point};

/// A leaf's cells are looked at one by one.
pub(crate) const LEAF: usize = 12;

/// A live item, the axis on which it parts its segment, and how many 256ths of the others are in their first part. Takes 32 bytes.
#[derive(Clone, Copy, Debug)]
pub(crate) struct Cell {
    pub(crate) point: Point,
    pub(crate) number: u32,
    pub(crate) axis: Axis,
    pub(crate) share: u8,
}

/// How many of so many other cells are in their first part.
#[inline]
pub(crate) fn first_of(others: usize, share: u8) -> usize
    ensures value { result ≡ others * share / 256 }
    ensures within { result ≤ others }
{
    (others as u128 * share as u128 / 256) as usize
}
