//! What a tree reaches, and whether a choice meets or covers it.
ghost use Rattle.std.specs.Prelude.{◌≡◌};
ghost use Rattle.kd_mark.specs.Reach.{covers, covers_box, meets, meets_box, reach};
ghost use Rattle.map_items.specs.Contents.{is_above};

use kd_tree::{Numbers, Tree};
use map_items::Choice;
use point_geom::{Cuboid, Extent};

// The extent and the numbers of all nodes, dropped ones too.
#[derive(Clone, Copy)]
pub(crate) struct Reach {
    pub(crate) extent: Extent,
    pub(crate) numbers: Numbers,
}

#[inline]
pub(crate) fn reach_of(tree: &Tree) -> Option<Reach>
    ensures { result ≡ reach tree.now }
{
    match tree.extent() {
        None => None,
        Some(extent) => match tree.numbers() {
            None => None,
            Some(numbers) => Some(Reach { extent, numbers }),
        },
    }
}

// Where it doesn't, it chooses nothing that is reached.
#[inline]
pub(crate) fn meets(choice: &Choice, reach: &Reach) -> bool
    ensures { result ≡ meets choice.now reach.now }
{
    is_above(choice.below, reach.numbers.least) && meets_box(&choice.within, &reach.extent)
}

// Where it does, it chooses all that is reached.
#[inline]
pub(crate) fn covers(choice: &Choice, reach: &Reach) -> bool
    ensures { result ≡ covers choice.now reach.now }
{
    is_above(choice.below, reach.numbers.greatest) && covers_box(&choice.within, &reach.extent)
}

#[inline]
fn is_above(below: Option<u32>, number: u32) -> bool
    ensures { result ≡ is_above below number }
{
    match below {
        None => true,
        Some(bound) => number < bound,
    }
}

#[inline]
fn meets_box(within: &Option<Cuboid>, extent: &Extent) -> bool
    ensures { result ≡ meets_box within.now extent.now }
{
    match within {
        None => true,
        Some(cuboid) => cuboid.meets(extent),
    }
}

#[inline]
fn covers_box(within: &Option<Cuboid>, extent: &Extent) -> bool
    ensures { result ≡ covers_box within.now extent.now }
{
    match within {
        None => true,
        Some(cuboid) => cuboid.covers(extent),
    }
}
