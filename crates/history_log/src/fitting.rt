//! Which updates a log can spell.
ghost use Rattle.std.specs.{Prelude.{◌≡◌, All, true, false}, List.{AllByRecursion}};
ghost use Rattle.point_geom.specs.Place.{IsPlace};
ghost use Rattle.scan_log.specs.{declared.format.Format.TheVariants.{Two}, Scripts.{IsBoxCorner, IsBoxNumber, IsCallerBox, IsScannedPlace}};
ghost use Rattle.history_log.specs.Lines.{HasLines};

use map_items::Update;
use point_geom::{Corner, Cuboid, Point};

const LEAST: i64 = -1_099_511_627_776;

const GREATEST: i64 = 1_099_511_627_777;

/// Whether no box is beyond the coordinates of a log.
pub(crate) fn has_lines(update: &Update) -> bool
    ensures yes { result ≡ true → HasLines update.now }
    ensures no { result ≡ false → HasLines update.now → ⊥ }
{
    match update {
        Update::Add(points) | Update::Thin(points) => are_scanned(points.as_slice()),
        Update::Delete(boxes) | Update::Suspend(boxes) | Update::Restore(boxes) => {
            are_boxes(boxes.as_slice())
        }
        Update::Expire(_) => true,
    }
}

// Always true.
fn are_scanned(points: &[Point]) -> bool
    ensures yes { result ≡ true → AllByRecursion (IsScannedPlace Two) points.now }
    ensures no { result ≡ false → AllByRecursion (IsScannedPlace Two) points.now → ⊥ }
{
    look_at(points);
    true
}

// That each point is a place is a fact: the loop compiles to nothing.
fn look_at(points: &[Point])
    ensures { All IsPlace points.now }
{
    for point in points {
        let _ = point.intensity();
    }
}

fn are_boxes(boxes: &[Cuboid]) -> bool
    ensures yes { result ≡ true → AllByRecursion (IsCallerBox Two) boxes.now }
    ensures no { result ≡ false → AllByRecursion (IsCallerBox Two) boxes.now → ⊥ }
{
    are_each(boxes)
}

fn are_each(boxes: &[Cuboid]) -> bool
    ensures yes { result ≡ true → All (IsCallerBox Two) boxes.now }
    ensures no { result ≡ false → All (IsCallerBox Two) boxes.now → ⊥ }
{
    for cuboid in boxes {
        if !is_box(cuboid) {
            return false;
        }
    }
    true
}

fn is_box(cuboid: &Cuboid) -> bool
    ensures yes { result ≡ true → IsCallerBox Two cuboid.now }
    ensures no { result ≡ false → IsCallerBox Two cuboid.now → ⊥ }
{
    is_corner(cuboid.lo()) && is_corner(cuboid.hi())
}

fn is_corner(corner: Corner) -> bool
    ensures yes { result ≡ true → IsBoxCorner Two corner }
    ensures no { result ≡ false → IsBoxCorner Two corner → ⊥ }
{
    is_number(corner.x) && is_number(corner.y) && is_number(corner.z)
}

fn is_number(number: i64) -> bool
    ensures yes { result ≡ true → IsBoxNumber Two number }
    ensures no { result ≡ false → IsBoxNumber Two number → ⊥ }
{
    LEAST <= number && number <= GREATEST
}
