//! What was found, written where C wants it.
ghost use Rattle.std.specs.Prelude.{◌≡◌, ◌+◌, ◌≤◌, ◌++◌, length, map, take};
ghost use Rattle.map_c.specs.Answers.{c_hit, c_item, c_point, c_suspended};

use crate::handles::forms::{Hit, Item, Point};
use kd_frozen::Shortlist;
use map_fold::Label;

/// Writes the hits from a place on, and returns where they end.
pub fn write_hits(found: &[map_fold::Hit], at: usize, hits: &mut [Hit]) -> usize
    requires { at + length found.now ≤ length hits.old }
    ensures end { result ≡ at + length found.now }
    ensures written { take (at + length found.now) hits.new ≡ take at hits.old ++ map c_hit found.now }
    ensures length { length hits.new ≡ length hits.old }
{
    for i in 0..found.len() {
        hits[at + i] = hit_of(&found[i]);
    }
    at + found.len()
}

/// The same of a list of few.
pub fn write_few(found: &Shortlist, at: usize, hits: &mut [Hit]) -> usize
    requires { at + length found.now ≤ length hits.old }
    ensures end { result ≡ at + length found.now }
    ensures written { take (at + length found.now) hits.new ≡ take at hits.old ++ map c_hit found.now }
    ensures length { length hits.new ≡ length hits.old }
{
    let count = found.len();
    for i in 0..count {
        hits[at + i] = hit_of(&found.hit(i));
    }
    at + count
}

/// What C has a struct for.
pub trait ToC<C> {
    /// That struct.
    ghost in_c: { Self → C };

    fn to_c(&self) -> C
        ensures { result ≡ in_c self.now };
}

/// Writes each of them as C has it, from the front on, and returns how many they are.
pub fn write_all<C: Drop, T: ToC<C>>(found: &[T], out: &mut [C]) -> usize
    requires { length found.now ≤ length out.old }
    ensures count { result ≡ length found.now }
    ensures written { take (length found.now) out.new ≡ map T.in_c found.now }
    ensures length { length out.new ≡ length out.old }
{
    for i in 0..found.len() {
        out[i] = found[i].to_c();
    }
    found.len()
}

fn hit_of(hit: &map_fold::Hit) -> Hit
    ensures { result ≡ c_hit hit.now }
{
    const WORD: u128 = 18_446_744_073_709_551_616;
    Hit {
        point: point_of(&hit.point),
        dist2_high: (hit.dist2 / WORD) as u64,
        dist2_low: (hit.dist2 % WORD) as u64,
        number: hit.number,
    }
}

impl ToC<Item> for map_items::Item {
    ghost in_c = { c_item };

    fn to_c(&self) -> Item {
        Item {
            point: point_of(&self.point),
            number: self.number,
            suspended: suspended(self.label),
        }
    }
}

fn suspended(label: Label) -> u32
    ensures { result ≡ c_suspended label }
{
    match label {
        Label::Suspended => 1,
        Label::Live | Label::Dropped => 0,
    }
}

fn point_of(point: &point_geom::Point) -> Point
    ensures { result ≡ c_point point.now }
{
    Point {
        x: point.x(),
        y: point.y(),
        z: point.z(),
        intensity: point.intensity(),
    }
}
