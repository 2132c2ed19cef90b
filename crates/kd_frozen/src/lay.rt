//! Cells in the order of their segments, which are cut near the middle of what they span.
ghost use Rattle.std.specs.Prelude.{◌^◌, ◌<◌, ◌≤◌, length, OnOk};
ghost use Rattle.kd_frozen.specs.Segments.{AddsParted, AreCut};

use crate::cell::{Cell, LEAF, first_of};
use crate::distance::coordinate;
use kd_tree::longest_axis;
use map_items::NoMemory;
use point_geom::{Axis, Extent};

// At least so many 256ths of the other cells are on each side, so that there are few levels however the points lie.
const LEAST: u64 = 16;

// So many cells of a segment are looked at for its plane: all of a short one, and those of a long one that are the same step apart.
const SAMPLE: usize = 256;

/// Puts these cells after those that are laid, each with the axis on which it parts its segment, and where. Moves them.
pub(crate) fn lay(cells: &mut [Cell], laid: &mut Vec<Cell>) -> Result<(), NoMemory>
    ensures { OnOk result (AddsParted cells.old laid.old.items laid.new.items) }
{
    if cells.len() <= LEAF {
        laid.extend_from_slice(cells)?;
        return Ok(());
    }
    // On the longest axis a plane in the middle has searches leave out the most; any axis and any share would be as right.
    let step = cells.len() / SAMPLE + 1;
    let hull = hull_by(cells, step);
    let axis = longest_axis(&hull);
    let share = share_to(cells, step, axis, middle(&hull, axis));
    let (left, top, right) = cut(cells, axis, share);
    let top = Cell {
        axis,
        share,
        ..*top
    };
    laid.push(top)?;
    lay(left, laid)?;
    lay(right, laid)
}

// The cell at this share of the others by the coordinate on this axis, with those before it and those after it. Each axis has a
// search of its own, which so need not look up the coordinate that it compares.
fn cut(cells: &mut [Cell], axis: Axis, share: u8) -> (&mut [Cell], &mut Cell, &mut [Cell])
    requires { 0 < length cells.old }
    ensures { AreCut cells.old axis share result.0.now result.1.now result.2.now }
{
    let at = first_of(cells.len() - 1, share);
    match axis {
        Axis::X => cells.select_nth_unstable_by_key(at, |c: &Cell| c.point.x()),
        Axis::Y => cells.select_nth_unstable_by_key(at, |c: &Cell| c.point.y()),
        Axis::Z => cells.select_nth_unstable_by_key(at, |c: &Cell| c.point.z()),
    }
}

// A box around the cells that are a step apart.
fn hull_by(cells: &[Cell], step: usize) -> Extent
    requires step { 1 ≤ step }
    requires several { 1 < length cells.now }
{
    cells.iter().step_by(step).fold(
        Extent::of(&cells[0].point),
        |hull, cell| hull.join(&Extent::of(&cell.point)),
    )
}

// Halfway between the faces on this axis, rounded down, so that it is below the upper one where they differ.
fn middle(hull: &Extent, axis: Axis) -> i64 {
    let lo = coordinate(&hull.lo(), axis);
    let hi = coordinate(&hull.hi(), axis);
    lo + (hi - lo) / 2
}

// How many 256ths of the cells that are a step apart aren't above this coordinate, so far as that leaves each side its least. It is
// rounded up without the last of them, so that up to 256 others are cut right there.
fn share_to(cells: &[Cell], step: usize, axis: Axis, middle: i64) -> u8
    requires step { 1 ≤ step }
    requires several { 1 < length cells.now }
{
    let low = cells
        .iter()
        .step_by(step)
        .filter(|c: &&Cell| coordinate(&c.point, axis) <= middle)
        .count();
    let before = in_32_bits(low.saturating_sub(1));
    let others = in_32_bits((cells.len() - 1).div_ceil(step));
    let share = (256 * before).div_ceil(others);
    share.clamp(LEAST, 256 - LEAST) as u8
}

// A map has far fewer points. A division of 128 bits would be a call of the compiler's library, which programs in C may lack.
fn in_32_bits(count: usize) -> u64
    ensures most { result < 2 ^ 32 }
    ensures some { 1 ≤ count → 1 ≤ result }
{
    count.min(u32::MAX as usize) as u64
}
