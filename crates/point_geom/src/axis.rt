//! The directions of space.
ghost use Rattle.std.specs.Prelude.{◌≡◌};
ghost use Rattle.point_geom.specs.Axes.{next_axis};

/// A direction of space.
#[derive(Clone, Copy, Debug, PartialEq, Eq)]
pub enum Axis {
    X,
    Y,
    Z,
}

impl Axis {
    /// The next axis in the cycle X, Y, Z, X.
    pub fn next(self) -> Axis
        ensures { result ≡ next_axis self }
    {
        match self {
            Axis::X => Axis::Y,
            Axis::Y => Axis::Z,
            Axis::Z => Axis::X,
        }
    }
}
