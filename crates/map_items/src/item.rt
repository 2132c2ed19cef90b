//! Items.
ghost use Rattle.std.specs.Prelude.{◌≡◌, ◌&&◌, true};
ghost use Rattle.point_geom.specs.{Place.{IsCoordinate, IsCornerNumber}, Boxes.{holds, is_between}};
ghost use Rattle.node_labels.specs.Labels.{is_live};
ghost use Rattle.map_items.specs.Contents.{chosen_by, comes_before, in_box, live_at, marked_item, relabelled};

use crate::{Choice, Label, Sequence, Tag};
use point_geom::{Cuboid, Point, centre_dist2};

/// What a map holds under a number.
#[derive(Clone, Copy, Debug, PartialEq, Eq)]
pub struct Item {
    pub point: Point,
    /// Its place among all submitted points, from 0.
    pub number: u32,
    pub label: Label,
}

impl Item {
    #[inline]
    pub fn live(number: u32, point: Point) -> Item
        ensures { result ≡ live_at number point }
    {
        Item {
            number,
            point,
            label: Label::Live,
        }
    }

    #[inline]
    pub fn relabelled(self, tag: Tag) -> Item
        ensures { result ≡ relabelled tag self }
    {
        let label = tag.apply(self.label);
        Item { label, ..self }
    }

    #[inline]
    pub fn marked(self, choice: &Choice, tag: Tag) -> Item
        ensures { result ≡ marked_item (chosen_by choice.now) tag self }
    {
        if choice.chooses(&self) {
            self.relabelled(tag)
        } else {
            self
        }
    }

    pub fn is_live_in(&self, cuboid: &Cuboid) -> bool
        ensures { result ≡ (is_live self.now.label && in_box cuboid.now self.now) }
    {
        may_hold(cuboid, &self.point) && self.label == Label::Live && cuboid.holds(&self.point)
    }

    /// By distance to the cuboid's centre, then by x, y, z, then by number.
    pub fn comes_before(&self, other: &Item, cuboid: &Cuboid) -> bool
        ensures { result ≡ comes_before cuboid.now self.now other.now }
    {
        let one = centre_dist2(&self.point, cuboid);
        let two = centre_dist2(&other.point, cuboid);
        let place = self.point.cmp_place(&other.point);
        one.cmp(&two)
            .then(place.then(self.number.cmp(&other.number)))
            .is_lt()
    }
}

// Tried first: one branch, mostly predicted, where `holds` begins with two that aren't.
fn may_hold(cuboid: &Cuboid, p: &Point) -> bool
    ensures { holds cuboid.now p.now ≡ true → result ≡ true }
{
    may_be_between(cuboid.lo().x, p.x(), cuboid.hi().x)
}

fn may_be_between(lo: i64, c: i64, hi: i64) -> bool
    requires lo_range { IsCornerNumber lo }
    requires range { IsCoordinate c }
    requires hi_range { IsCornerNumber hi }
    ensures { is_between lo c hi ≡ true → result ≡ true }
{
    c.abs_diff(lo) < hi.abs_diff(lo)
}

pub type Items = Sequence<Item>;
