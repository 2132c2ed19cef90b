//! What is sought of a tree. Nothing here knows numbers.
ghost use Rattle.std.specs.Prelude.{◌≡◌, false};
ghost use Rattle.map_items.specs.declared.item.Item.{Item};
ghost use Rattle.point_geom.specs.Extents.{IsIn};
ghost use Rattle.item_lists.specs.Sought.{has};

use map_items::{Item, Label};
use point_geom::{Cuboid, Extent, Point, dist2};

/// Of the items that are live or suspended.
#[derive(Clone, Copy)]
pub(crate) enum Sought {
    Held,
    /// The live ones.
    InBox(Cuboid),
    /// The live ones; the limit is the square of a distance.
    InBall { center: Point, limit: u128 },
}

impl Sought {
    pub(crate) fn has(&self, item: &Item) -> bool
        ensures { result ≡ has self.now item.now }
    {
        match self {
            Sought::Held => true,
            Sought::InBox(cuboid) => item.is_live_in(cuboid),
            Sought::InBall { center, limit } => {
                item.label == Label::Live && dist2(center, &item.point) <= *limit
            }
        }
    }

    pub(crate) fn meets(&self, extent: &Extent) -> bool
        ensures { result ≡ false → (i : Item) → IsIn extent.now i.point → has self.now i ≡ false }
    {
        match self {
            Sought::Held => true,
            Sought::InBox(cuboid) => cuboid.meets(extent),
            Sought::InBall { center, limit } => extent.dist2(center) <= *limit,
        }
    }
}
