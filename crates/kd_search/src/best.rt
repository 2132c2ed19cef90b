//! The live point of a box that is nearest to its centre.
ghost use Rattle.std.specs.Prelude.{◌≡◌, [], IfSome, IsNone, ◌↔◌};
ghost use Rattle.map_fold.specs.Answers.{inside_all};
ghost use Rattle.kd_tree.specs.Contents.{contents};
ghost use Rattle.kd_search.specs.Best.{best_inside, IsBest};

use crate::rivals::rivals_in;
use kd_tree::Tree;
use map_items::Item;
use point_geom::Cuboid;

/// The live item nearest to the cuboid's centre, as `rivals_in` finds it.
pub fn best_in(tree: &Tree, c: &Cuboid) -> Option<Item>
    ensures value { result ≡ best_inside (contents tree.now) c.now }
    ensures none { IsNone result ↔ (inside_all (contents tree.now) c.now ≡ []) }
    ensures best { IfSome result (λ i. IsBest (contents tree.now) c.now i) }
{
    rivals_in(tree, c).best
}
