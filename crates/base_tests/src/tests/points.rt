//! Points, worked out by hand.
use crate::tests::assertions::{holds, same};
use crate::tests::places::at;
use point_geom::{Axis, Extent, OutOfRange, Point};
use std::process::Abort;

#[test]
fn a_refused_point_names_its_first_axis(rt: HostRuntime) {
    let refused = Point::new(0, 1_099_511_627_777, -1_099_511_627_777);
    let fault = OutOfRange {
        axis: Axis::Y,
        value: 1_099_511_627_777,
    };
    same(&rt, "the refusal", refused, Err(fault));
}

#[test]
fn points_are_ordered_by_x_then_y_then_z(rt: HostRuntime) {
    let last = at(&rt, (0, 0, 0));
    for place in [(-1, 9, 9), (0, -1, 9), (0, 0, -1)] {
        let first = at(&rt, place);
        holds(&rt, "the order", first < last);
    }
}

#[test]
fn then_by_their_intensity(rt: HostRuntime) {
    let p = at(&rt, (1, -2, -3));
    let seen = p.with_intensity(65_535);
    is_seen(&rt, &p, &seen);
    holds(&rt, "it comes behind the darker", p < seen);
    let higher = at(&rt, (1, -2, -2));
    holds(&rt, "it comes before the higher", seen < higher);
}

// The second is the first, (1, -2, -3), with the greatest intensity.
fn is_seen(rt: &impl Abort, p: &Point, seen: &Point) {
    let numbers = (seen.x(), seen.y(), seen.z(), seen.intensity());
    same(rt, "the numbers", numbers, (1, -2, -3, 65_535));
    same(rt, "the intensity at first", p.intensity(), 0);
    same(rt, "without intensity", seen.with_intensity(0), *p);
    holds(rt, "one place", p.cmp_place(seen).is_eq());
    same(rt, "the lower end", Extent::of(seen).lo(), *p);
}

#[test]
fn the_axes_go_round(rt: HostRuntime) {
    let p = at(&rt, (7, 8, 9));
    let mut axis = Axis::X;
    for coordinate in [7, 8, 9, 7] {
        same(&rt, "the coordinate", p.on(axis), coordinate);
        axis = axis.next();
    }
}
