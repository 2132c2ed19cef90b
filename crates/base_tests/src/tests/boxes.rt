//! Boxes, voxels and extents, worked out by hand.
use crate::tests::assertions::same;
use crate::tests::places::{Place, at, corner, cuboid};
use point_geom::{Axis, Cuboid, CuboidError, Extent, centre_dist2, voxel};
use std::process::Abort;

#[test]
fn a_refused_box_names_its_first_fault(rt: HostRuntime) {
    for (lo, hi, axis, value) in [
        (
            (0, 0, -1_099_511_627_777),
            (1_099_511_627_778, 0, 0),
            Axis::Z,
            -1_099_511_627_777,
        ),
        (
            (0, 0, 0),
            (9, 9, 1_099_511_627_778),
            Axis::Z,
            1_099_511_627_778,
        ),
        (
            (9, 0, 0),
            (0, 1_099_511_627_778, 0),
            Axis::Y,
            1_099_511_627_778,
        ),
    ] {
        is_refused(&rt, lo, hi, CuboidError::OutOfRange { axis, value });
    }
    let inverted = CuboidError::Inverted { axis: Axis::Y };
    is_refused(&rt, (0, 0, 0), (9, -1, -1), inverted);
}

fn is_refused(rt: &impl Abort, lo: Place, hi: Place, fault: CuboidError) {
    let refused = Cuboid::new(corner(lo), corner(hi));
    same(rt, "the refusal", refused, Err(fault));
}

#[test]
fn a_box_has_its_lower_side_and_not_its_upper(rt: HostRuntime) {
    let cube = cuboid(&rt, (0, 0, 0), (9, 9, 9));
    let empty = cuboid(&rt, (5, 0, 0), (5, 9, 9));
    // lo, hi, and whether the cube holds lo, meets and covers the extent; the empty box never does.
    for (lo, hi, seen) in [
        ((0, 0, 0), (8, 8, 8), (true, true, true)),
        ((0, 0, 0), (9, 8, 8), (true, true, false)),
        ((-1, 0, 0), (0, 0, 0), (false, true, false)),
        ((-3, 0, 0), (-1, 8, 8), (false, false, false)),
        ((9, 0, 0), (12, 8, 8), (false, false, false)),
        ((-5, -5, -5), (20, 20, 20), (false, true, false)),
    ] {
        sees(&rt, &cube, lo, hi, seen);
        sees(&rt, &empty, lo, hi, (false, false, false));
    }
}

// Whether the box holds lo, meets and covers the extent from lo to hi.
fn sees(rt: &impl Abort, cuboid: &Cuboid, lo: Place, hi: Place, want: (bool, bool, bool)) {
    let low = at(rt, lo);
    let extent = extent(rt, lo, hi);
    let seen = (
        cuboid.holds(&low),
        cuboid.meets(&extent),
        cuboid.covers(&extent),
    );
    same(rt, "what is held, met and covered", seen, want);
}

fn extent(rt: &impl Abort, one: Place, other: Place) -> Extent {
    Extent::of(&at(rt, one)).join(&Extent::of(&at(rt, other)))
}

fn has_corners(rt: &impl Abort, cuboid: &Cuboid, lo: Place, hi: Place) {
    same(rt, "the lower corner", cuboid.lo(), corner(lo));
    same(rt, "the upper corner", cuboid.hi(), corner(hi));
}

#[test]
fn voxels_go_downwards_below_zero_too(rt: HostRuntime) {
    for (x, lo, hi, centre) in [
        (-1, -200, 0, 119_204),
        (-200, -200, 0, 120_000),
        (-201, -400, -200, 119_204),
        (0, 0, 200, 120_000),
        (199, 0, 200, 119_204),
    ] {
        let p = at(&rt, (x, 0, 0));
        let cube = voxel(&p, 200);
        has_corners(&rt, &cube, (lo, 0, 0), (hi, 200, 200));
        same(&rt, "off the centre", centre_dist2(&p, &cube), centre);
    }
}

#[test]
fn an_extent_is_as_far_as_its_nearest_point_and_reaches_to_its_farthest(rt: HostRuntime) {
    let extent = extent(&rt, (5, 0, -7), (-5, 4, 7));
    same(&rt, "the lower end", extent.lo(), at(&rt, (-5, 0, -7)));
    same(&rt, "the upper end", extent.hi(), at(&rt, (5, 4, 7)));
    for (place, near, far) in [
        ((0, 2, 0), 0, 78),
        ((8, 8, 7), 25, 429),
        ((-6, -2, 9), 9, 413),
        ((5, 4, 7), 0, 312),
    ] {
        let p = at(&rt, place);
        let found = (extent.dist2(&p), extent.far_dist2(&p));
        same(&rt, "how far", found, (near, far));
    }
}
