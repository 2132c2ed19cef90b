//! Regions, which are the caller's own numbers: they are checked at each move.
ghost use Rattle.std.specs.Prelude.{◌≡◌, ◌≢◌, ◌<◌, IfErr, IfOk, length};
ghost use Rattle.map_c.specs.Regions.{AreRightRules, IsBegun, IsBeginRefusal, IsMove, IsMoveRefusal, IsRightRegion, c_box, c_region, region_at, rules_at};
ghost use Rattle.map_c.specs.{Status.{code, done}, declared.handles.refusal.Refusal.TheVariants.{BadNumber}};

use crate::handles::macros::or_status;
use crate::handles::writing::{ToC, write_all};
use crate::{Bounds, DONE, Place, Refusal, Region, read_place};
use local_region::RegionRules;
use point_geom::{Corner, Cuboid};
use std::alloc::Global;

/// Makes a region, a cube with the place in its middle: its side, a ball round the robot that has to stay clear of its faces, and
/// how far it moves at a time.
#[unsafe(no_mangle)]
pub extern "C" fn corv_region_begin(
    side: u64,
    ball: u64,
    step: u64,
    place: &Place,
    region: &mut Region,
) -> i32
    ensures begun { result ≡ done → IsBegun side ball step place.now region.new }
    ensures refused { result ≢ done → IsBeginRefusal side ball step place.now result }
    ensures same { result ≢ done → region.new ≡ region.old }
{
    *region = or_status!(begun(side, ball, step, place));
    DONE
}

fn begun(side: u64, ball: u64, step: u64, place: &Place) -> Result<Region, Refusal>
    ensures begun { IfOk result (IsBegun side ball step place.now) }
    ensures refused { IfErr result (λ c. IsBeginRefusal side ball step place.now (code c)) }
{
    let rules = read_rules(side, ball, step)?;
    let point = read_place(place)?;
    let region = local_region::Region::begin(rules, &point);
    Ok(region_of(&region))
}

/// Moves the region to the place, and writes the boxes that leave it, at most three, and how many they are.
#[unsafe(no_mangle)]
pub extern "C" fn corv_region_move(
    alloc: Global,
    region: &mut Region,
    place: &Place,
    boxes: &mut [Bounds],
    count: &mut usize,
) -> i32
    ensures moved { result ≡ done → IsMove region.old region.new place.now boxes.new count.new }
    ensures refused { result ≢ done → IsMoveRefusal region.old place.now (length boxes.old) result }
    ensures none { result ≢ done → count.new ≡ 0 }
    ensures same { result ≢ done → region.new ≡ region.old }
{
    *count = 0;
    let to = or_status!(moved(alloc, region, place, boxes));
    *region = to.region;
    *count = to.count;
    DONE
}

/// Where a region is after a move, and how many boxes left it.
#[derive(Drop)]
struct To {
    region: Region,
    count: usize,
}

fn moved(alloc: Global, region: &Region, place: &Place, boxes: &mut [Bounds]) -> Result<To, Refusal>
    ensures moved { IfOk result (λ t. IsMove region.now t.region place.now boxes.new t.count) }
    ensures refused { IfErr result (λ c. IsMoveRefusal region.now place.now (length boxes.old) (code c)) }
{
    let from = read_region(region)?;
    if boxes.len() < 3 {
        return Err(Refusal::NoRoom);
    }
    let point = read_place(place)?;
    let moved = from.moved(alloc, &point)?;
    Ok(To {
        region: region_of(&moved.region),
        count: write_all(moved.removed.as_slice(), boxes),
    })
}

fn read_rules(side: u64, ball: u64, step: u64) -> Result<RegionRules, Refusal>
    ensures ok { IfOk result (λ r. r ≡ rules_at side ball step) }
    ensures right { IfOk result (λ r. AreRightRules side ball step) }
    ensures refused { IfErr result (λ c. (c ≡ BadNumber) × (AreRightRules side ball step → ⊥)) }
{
    match RegionRules::new(side, ball, step) {
        Ok(rules) => Ok(rules),
        Err(_) => Err(Refusal::BadNumber),
    }
}

fn read_region(region: &Region) -> Result<local_region::Region, Refusal>
    ensures ok { IfOk result (λ r. r ≡ region_at region.now) }
    ensures right { IfOk result (λ r. IsRightRegion region.now) }
    ensures refused { IfErr result (λ c. (c ≡ BadNumber) × (IsRightRegion region.now → ⊥)) }
{
    let rules = read_rules(region.side, region.ball, region.step)?;
    let lo = Corner {
        x: region.lo.x,
        y: region.lo.y,
        z: region.lo.z,
    };
    match local_region::Region::at(rules, lo) {
        Some(region) => Ok(region),
        None => Err(Refusal::BadNumber),
    }
}

fn region_of(region: &local_region::Region) -> Region
    ensures { result ≡ c_region region.now }
{
    Region {
        lo: place_of(region.lo()),
        side: region.rules().side(),
        ball: region.rules().ball(),
        step: region.rules().step(),
    }
}

impl ToC<Bounds> for Cuboid {
    ghost in_c = { c_box };

    fn to_c(&self) -> Bounds {
        Bounds {
            lo: place_of(self.lo()),
            hi: place_of(self.hi()),
        }
    }
}

fn place_of(corner: Corner) -> Place
    ensures { result ≡ record { x = corner.x; y = corner.y; z = corner.z } }
{
    Place {
        x: corner.x,
        y: corner.y,
        z: corner.z,
    }
}
