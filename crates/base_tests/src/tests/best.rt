//! The best in a box.
use crate::tests::assertions::{holds, made, same};
use crate::tests::grown::restored;
use kd_search::best_in;
use point_geom::{Corner, Cuboid, Point};
use std::process::Abort;

fn corner((x, y, z): (i64, i64, i64)) -> Corner {
    Corner { x, y, z }
}

fn cuboid(rt: &impl Abort, lo: (i64, i64, i64), hi: (i64, i64, i64)) -> Cuboid {
    made(rt, Cuboid::new(corner(lo), corner(hi)))
}

#[test]
fn the_best_of_equally_near_points_is_the_least(rt: HostRuntime) {
    let alloc = rt.alloc();
    // The box's centre is (1, 1, 1), and the first two are equally near it.
    let points = [
        made(&rt, Point::new(1, 1, 0)),
        made(&rt, Point::new(0, 1, 1)),
        made(&rt, Point::new(0, 1, 1)),
    ];
    let tree = restored(&rt, alloc, &points);
    let best = best_in(&tree, &cuboid(&rt, (0, 0, 0), (2, 2, 2)));
    same(&rt, "the best", best.map(|i| i.number), Some(1));
    let best = best_in(&tree, &cuboid(&rt, (0, 0, 0), (2, 2, 0)));
    holds(&rt, "nothing in a flat box", best.is_none());
}
