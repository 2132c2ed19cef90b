//! Choices of items.
ghost use Rattle.std.specs.Prelude.{◌≡◌};
ghost use Rattle.map_items.specs.Contents.{below_number, chosen_by, inside_box, is_above, is_inside};

use crate::Item;
use point_geom::{Cuboid, Point};

/// Chooses what is in the box and has a number below the bound; `None` admits all.
#[derive(Clone, Copy, Debug, PartialEq, Eq)]
pub struct Choice {
    pub within: Option<Cuboid>,
    pub below: Option<u32>,
}

impl Choice {
    pub const ALL: Choice = Choice {
        within: None,
        below: None,
    };

    pub fn within(cuboid: &Cuboid) -> Choice
        ensures { result ≡ inside_box cuboid.now }
    {
        Choice {
            within: Some(*cuboid),
            below: None,
        }
    }

    pub fn below(number: u32) -> Choice
        ensures { result ≡ below_number number }
    {
        Choice {
            within: None,
            below: Some(number),
        }
    }

    pub fn chooses(&self, item: &Item) -> bool
        ensures { result ≡ chosen_by self.now item.now }
    {
        self.is_above(item.number) && self.holds(&item.point)
    }

    fn is_above(&self, number: u32) -> bool
        ensures { result ≡ is_above self.now.below number }
    {
        match self.below {
            None => true,
            Some(bound) => number < bound,
        }
    }

    fn holds(&self, point: &Point) -> bool
        ensures { result ≡ is_inside self.now.within point.now }
    {
        match &self.within {
            None => true,
            Some(cuboid) => cuboid.holds(point),
        }
    }
}
