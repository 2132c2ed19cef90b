//! An update in parts of one line each.
ghost use Rattle.std.specs.Prelude.{◌≡◌, ◌<◌, ◌≤◌, ◌*◌, IfOk, length};
ghost use Rattle.history_log.specs.Lines.{line_count, part_of, piece, piece_count};

use map_items::{MAX_POINTS, NoMemory, Sequence, Update};
use std::alloc::Global;

// The most points or boxes of a command.
const MOST: usize = 262_144;

pub(crate) fn line_count(update: &Update) -> usize
    ensures count { result ≡ line_count update.now }
    ensures few { result ≤ 70368744177664 }
{
    match update {
        Update::Add(points) | Update::Thin(points) => piece_count(points.len()),
        Update::Delete(boxes) | Update::Suspend(boxes) | Update::Restore(boxes) => {
            piece_count(boxes.len())
        }
        Update::Expire(_) => 1,
    }
}

fn piece_count(len: usize) -> usize
    ensures count { result ≡ piece_count len }
    ensures few { result ≤ 70368744177664 }
{
    if len == 0 {
        return 0;
    }
    (len - 1) / MOST + 1
}

pub(crate) fn part_of(alloc: Global, update: &Update, number: usize) -> Result<Update, NoMemory>
    requires { number < line_count update.now }
    ensures { IfOk result (λ part. part ≡ part_of update.now number) }
{
    match update {
        Update::Add(points) => Ok(Update::Add(piece(alloc, points.as_slice(), number)?)),
        Update::Thin(points) => Ok(Update::Thin(piece(alloc, points.as_slice(), number)?)),
        Update::Delete(boxes) => Ok(Update::Delete(piece(alloc, boxes.as_slice(), number)?)),
        Update::Suspend(boxes) => Ok(Update::Suspend(piece(alloc, boxes.as_slice(), number)?)),
        Update::Restore(boxes) => Ok(Update::Restore(piece(alloc, boxes.as_slice(), number)?)),
        Update::Expire(number) => Ok(Update::Expire((*number).min(MAX_POINTS))),
    }
}

fn piece<T: Copy + Drop>(alloc: Global, items: &[T], number: usize) -> Result<Sequence<T>, NoMemory>
    requires { number * 262144 ≤ length items.now }
    ensures { IfOk result (λ found. found ≡ piece number items.now) }
{
    let (_, rest) = items.split_at(number * MOST);
    let (front, _) = rest.split_at(rest.len().min(MOST));
    let found = Vec::from_slice(alloc, front)?;
    Ok(Sequence::from(found))
}
