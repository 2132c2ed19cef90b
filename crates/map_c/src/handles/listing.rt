//! The points in a box, counted, and listed where C wants them.
ghost use Rattle.std.specs.Prelude.{◌≡◌, IfErr, IfOk, Some, false, length, true};
ghost use Rattle.map_c.specs.{Answers.{IsCount, IsCountRefusal, IsInside, IsInsideRefusal, IsMost}, Status.{code}};

use crate::handles::content::Content;
use crate::handles::forms::{Bounds, Item};
use crate::handles::reading::read_box;
use crate::handles::refusal::Refusal;
use crate::handles::showing::shown;
use crate::handles::writing::write_all;
use kd_search::{count_in, in_cuboid};
use map_fold::MAX_FOUND;
use std::alloc::Global;

/// How many live points of what is shown are in the box.
pub fn count_in_box(content: &Content, bounds: &Bounds) -> Result<u32, Refusal>
    ensures counted { IfOk result (IsCount (Some content.now) bounds.now) }
    ensures refused { IfErr result (λ r. IsCountRefusal (Some content.now) bounds.now (code r)) }
{
    let version = shown(content)?;
    let cuboid = read_box(bounds)?;
    Ok(count_in(version.tree(), &cuboid))
}

/// Writes them by number, the first `most` where there are more, and returns how many they are.
pub fn list(
    alloc: Global,
    content: &Content,
    bounds: &Bounds,
    most: u32,
    items: &mut [Item],
) -> Result<usize, Refusal>
    ensures found { IfOk result (IsInside (Some content.now) bounds.now most items.new) }
    ensures refused { IfErr result (λ r. IsInsideRefusal (Some content.now) bounds.now most (length items.old) (code r)) }
{
    let version = shown(content)?;
    if !is_most(most) {
        return Err(Refusal::BadNumber);
    }
    if items.len() < most as usize {
        return Err(Refusal::NoRoom);
    }
    let cuboid = read_box(bounds)?;
    let found = in_cuboid(alloc, version.tree(), &cuboid, most)?;
    Ok(write_all(found.as_slice(), items))
}

fn is_most(most: u32) -> bool
    ensures yes { result ≡ true → IsMost most }
    ensures no { result ≡ false → IsMost most → ⊥ }
{
    1 <= most && most <= MAX_FOUND
}
