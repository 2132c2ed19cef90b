ghost use Rattle.std.specs.Prelude.{◌≡◌};
ghost use Rattle.kd_tree.specs.Parts.{child};
ghost use Rattle.kd_update.specs.Watch.{goes_to};

use kd_tree::{Side, Tree};

// The child on this side comes first. Doing it again puts both in their places.
#[inline]
pub(crate) fn by_side(side: Side, left: Tree, right: Tree) -> (Tree, Tree)
    ensures near { result.0 ≡ child side left right }
    ensures far { result.1 ≡ child side right left }
{
    match side {
        Side::Left => (left, right),
        Side::Right => (right, left),
    }
}

pub(crate) fn goes_to(side: Side, on_left: bool) -> bool
    ensures { result ≡ goes_to side on_left }
{
    match side {
        Side::Left => on_left,
        Side::Right => !on_left,
    }
}
