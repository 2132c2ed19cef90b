//! Which watched paths end at a node, and which go on to a child.
ghost use Rattle.std.specs.Prelude.{◌≡◌, ◌-◌, ◌≤◌, ◌∷◌, ◌++◌, length};
ghost use Rattle.kd_tree.specs.Apart.{is_here, is_none_left, onward};
ghost use Rattle.kd_mark.specs.{Several.{large_at}, Watches.{paths_in}, Ways.{paths_of, way_of}};

use crate::rebuild::NEVER;
use crate::watch::Watch;
use kd_tree::Side;

/// The remaining paths at a node. A type parameter, so that an update without watches asks and hands on nothing.
pub trait Ways: Copy {
    ghost use Rattle.std.specs.Prelude.{◌≡◌, List};
    ghost use Rattle.kd_tree.specs.{Apart.{is_here, onward}, declared.path.Side.{Side}};

    ghost paths: { Self → List (List Side) };

    /// Whether one of them ends here.
    fn is_here(&self) -> bool
        ensures { result ≡ is_here (paths self.now) };

    /// Those that go on to this side, from there.
    fn onward(&self, side: Side) -> Self
        ensures { paths result ≡ onward side (paths self.now) };
}

/// No path.
#[derive(Clone, Copy)]
pub struct Unwatched;

/// At most four, by their remaining sides. A list would take memory at each node.
#[derive(Clone, Copy)]
pub struct Watched<'a> {
    first: Option<&'a [Side]>,
    second: Option<&'a [Side]>,
    third: Option<&'a [Side]>,
    fourth: Option<&'a [Side]>,
}

impl Ways for Unwatched {
    ghost use Rattle.std.specs.Prelude.{[]};

    ghost paths = { λ w. [] };

    fn is_here(&self) -> bool {
        false
    }

    fn onward(&self, _side: Side) -> Unwatched {
        Unwatched
    }
}

impl Ways for Watched<'_> {
    ghost use Rattle.kd_mark.specs.Ways.{paths_of};

    ghost paths = { paths_of };

    fn is_here(&self) -> bool {
        ends(self.first) || ends(self.second) || ends(self.third) || ends(self.fourth)
    }

    fn onward(&self, side: Side) -> Self {
        Watched {
            first: below(self.first, side),
            second: below(self.second, side),
            third: below(self.third, side),
            fourth: below(self.fourth, side),
        }
    }
}

impl<'a> Watched<'a> {
    pub fn of(watches: &'a [Watch]) -> Watched<'a>
        requires { length watches.now ≤ 4 }
        ensures { paths_of result ≡ paths_in watches.now }
    {
        let (first, rest) = next_way(watches);
        let (second, rest) = next_way(rest);
        let (third, rest) = next_way(rest);
        let (fourth, _none) = next_way(rest);
        Watched {
            first,
            second,
            third,
            fourth,
        }
    }

    pub fn is_empty(&self) -> bool
        ensures { result ≡ is_none_left (paths_of self.now) }
    {
        self.first.is_none()
            && self.second.is_none()
            && self.third.is_none()
            && self.fourth.is_none()
    }
}

/// `large`, or `NEVER` where a path ends: there and below nothing is rebuilt.
#[inline]
pub fn spared_from<W: Ways>(ways: &W, large: u32) -> u32
    ensures { result ≡ large_at (W.paths ways.now) large }
{
    if ways.is_here() { NEVER } else { large }
}

fn next_way<'a>(watches: &'a [Watch]) -> (Option<&'a [Side]>, &'a [Watch])
    ensures paths { paths_in watches.now ≡ way_of result.0 ++ paths_in result.1.now }
    ensures length { length result.1.now ≡ length watches.now - 1 }
{
    match watches.split_first() {
        None => (None, watches),
        Some((watch, rest)) => (Some(watch.path.as_slice()), rest),
    }
}

fn ends(way: Option<&[Side]>) -> bool
    ensures { result ≡ is_here (way_of way.entry) }
{
    match way {
        None => false,
        Some(sides) => sides.is_empty(),
    }
}

fn below<'a>(way: Option<&'a [Side]>, side: Side) -> Option<&'a [Side]>
    ensures { way_of result ≡ onward side (way_of way.entry) }
{
    let (first, rest) = way?.split_first()?;
    match first {
        Side::Left => match side {
            Side::Left => Some(rest),
            Side::Right => None,
        },
        Side::Right => match side {
            Side::Left => None,
            Side::Right => Some(rest),
        },
    }
}
