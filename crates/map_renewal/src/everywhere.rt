//! The box that every point is in.
ghost use Rattle.std.specs.Prelude.{◌≡◌, All};
ghost use Rattle.point_geom.specs.Place.{IsPlace};
ghost use Rattle.map_renewal.specs.Renewed.{all_places};

use point_geom::{Corner, Cuboid, Point};

const LEAST: i64 = -1_099_511_627_776;

const GREATEST: i64 = 1_099_511_627_777;

pub(crate) fn everywhere() -> Cuboid
    ensures { result ≡ all_places }
{
    let lo = Corner {
        x: LEAST,
        y: LEAST,
        z: LEAST,
    };
    let hi = Corner {
        x: GREATEST,
        y: GREATEST,
        z: GREATEST,
    };
    match Cuboid::new(lo, hi) {
        Ok(cuboid) => cuboid,
        Err(_) => unreachable!(),
    }
}

/// For proofs alone: each call says that its point is a place.
pub(crate) fn look_at(points: &[Point])
    ensures { All IsPlace points.now }
{
    for point in points {
        let _ = point.intensity();
    }
}
