//! Draws: pseudorandom numbers, the same at each run.
ghost use Rattle.std.specs.Prelude.{◌≡◌, ◌<◌};
ghost use Rattle.scan_log.specs.{declared.format.Format.TheVariants.{One}, Scripts.{IsLogPlace}};

use point_geom::Point;
use std::marker::Model;

/// Contracts see the number that the generator has reached.
#[derive(Drop)]
pub struct Draws {
    number: u32,
}

impl Model for Draws {
    ghost use Rattle.std.specs.Prelude.{ℕ};

    ghost Value = { ℕ };

    ghost view = { λ d. d.number };
}

impl Draws {
    ghost use Rattle.scan_log.specs.{declared.format.Format.TheVariants.{One}, Scripts.{IsScannedPlace}};
    ghost use Rattle.mapper_base.specs.Generated.{drawn, next, point};

    pub fn new() -> Draws
        ensures { result ≡ 1 }
    {
        Draws { number: 1 }
    }

    /// The next draw, from 0 to 65,535.
    pub fn draw(&mut self) -> u32
        ensures moved { self.new ≡ next self.old }
        ensures drawn { result ≡ drawn (next self.old) }
        ensures small { result < 65536 }
    {
        let next = (self.number as u64 * 1_664_525 + 1_013_904_223) % 4_294_967_296;
        self.number = next as u32;
        self.number / 65_536
    }

    /// A point within 30 metres of the robot along x and y, and 3 along z, by a draw for each axis.
    pub fn point(&mut self, scan: u32) -> Point
        requires { scan < 200 }
        ensures point { result ≡ point scan (drawn (next self.old)) (drawn (next (next self.old))) (drawn (next (next (next self.old)))) }
        ensures place { IsScannedPlace One result }
        ensures moved { self.new ≡ next (next (next self.old)) }
    {
        let x = 1_000 * scan + self.draw() % 60_001;
        let y = self.draw() % 60_001;
        let z = self.draw() % 6_001;
        point_at(x as i64 - 30_000, y as i64 - 30_000, z as i64 - 3_000)
    }
}

pub fn point_at(x: i64, y: i64, z: i64) -> Point
    requires { IsLogPlace One (record { x = x; y = y; z = z; intensity = 0 }) }
    ensures value { result ≡ record { x = x; y = y; z = z; intensity = 0 } }
    ensures place { IsLogPlace One result }
{
    match Point::new(x, y, z) {
        Ok(point) => point,
        Err(_) => unreachable!(),
    }
}
