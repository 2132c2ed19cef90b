ghost use Rattle.std.specs.Prelude.{◌≡◌, ◌≤◌, false, true, IfSome, IsNone};
ghost use Rattle.point_geom.specs.Place.{IsCoordinate};
ghost use Rattle.local_region.specs.{Regions.{IsRegion, IsStart, IsStartCorner, begun, first_start, is_in}, Moves.{after, next_start}};

use crate::RegionRules;
use crate::limits::{FARTHEST, LONGEST};
use point_geom::{Corner, Point};
use std::marker::Model;

/// A half-open cube: a point is in it where `lo <= p < lo + side` on every axis.
#[derive(Clone, Copy, Debug, PartialEq, Eq)]
pub struct Region {
    rules: RegionRules,
    lo: Corner,
}

impl Model for Region {
    ghost use Rattle.local_region.specs.Regions.{RegionAt, IsRegion};

    ghost Value = { RegionAt };

    ghost view = { λ r. record { rules = r.rules; lo = r.lo } };

    ghost invariant = { λ r. IsRegion (record { rules = r.rules; lo = r.lo }) };

    ghost inverse = { λ r. record { rules = r.rules; lo = r.lo } };
}

impl Region {
    /// The region with the point in its middle: `side / 2`, rounded down, above the lower corner.
    pub fn begin(rules: RegionRules, p: &Point) -> Region
        ensures value { result ≡ begun rules p.now }
        ensures inside { is_in result p.now ≡ true }
    {
        let side = rules.side();
        let lo = Corner {
            x: first_start(side, p.x()),
            y: first_start(side, p.y()),
            z: first_start(side, p.z()),
        };
        Region { rules, lo }
    }

    /// The region with this lower corner. None where it lies farther than 4,398,046,511,104 millimetres from 0 on an
    /// axis.
    pub fn at(rules: RegionRules, lo: Corner) -> Option<Region>
        ensures some { IfSome result (λ r. r ≡ record { rules = rules; lo = lo }) }
        ensures start { IfSome result (λ r. IsStartCorner lo) }
        ensures none { IsNone result → IsStartCorner lo → ⊥ }
    {
        if is_start(lo.x) && is_start(lo.y) && is_start(lo.z) {
            Some(Region { rules, lo })
        } else {
            None
        }
    }

    /// The lower corner, in millimetres. It may lie outside the limits of points and boxes.
    pub fn lo(&self) -> Corner
        ensures value { result ≡ self.now.lo }
        ensures region { IsRegion self.now }
    {
        self.lo
    }

    /// How it moves.
    pub fn rules(&self) -> &RegionRules
        ensures value { result.now ≡ self.now.rules }
        ensures region { IsRegion self.now }
    {
        &self.rules
    }

    pub(crate) fn after(&self, p: &Point) -> Region
        ensures value { result ≡ after p.now self.now }
        ensures region { IsRegion self.now }
    {
        let lo = Corner {
            x: next_start(&self.rules, p.x(), self.lo.x),
            y: next_start(&self.rules, p.y(), self.lo.y),
            z: next_start(&self.rules, p.z(), self.lo.z),
        };
        Region { lo, ..*self }
    }
}

fn is_start(c: i64) -> bool
    ensures yes { result ≡ true → IsStart c }
    ensures no { result ≡ false → IsStart c → ⊥ }
{
    -FARTHEST <= c && c <= FARTHEST
}

fn first_start(side: u64, c: i64) -> i64
    requires range { IsCoordinate c }
    requires short { side ≤ LONGEST }
    ensures value { result ≡ first_start side c }
    ensures range { IsStart result }
{
    c - (side / 2) as i64
}

fn next_start(rules: &RegionRules, c: i64, from: i64) -> i64
    requires range { IsCoordinate c }
    requires start { IsStart from }
    ensures value { result ≡ next_start rules.now c from }
    ensures range { IsStart result }
{
    let ball = rules.ball() as i64;
    if c - from <= ball {
        from - rules.step() as i64
    } else if from + rules.side() as i64 - c <= ball {
        from + rules.step() as i64
    } else {
        from
    }
}
