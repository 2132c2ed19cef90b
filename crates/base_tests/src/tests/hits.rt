//! Lists of hits, also those that are no longer in order.
ghost use Rattle.std.specs.Prelude.{◌≤◌};

use crate::tests::assertions::{holds, made};
use map_fold::{Hit, Hits};
use point_geom::Point;
use std::alloc::Global;
use std::process::Abort;

// The one point of this number, so far away, squared.
pub fn one_hit(rt: &impl Abort, alloc: Global, number: u32, point: Point, dist2: u128) -> Hits {
    let hit = Hit {
        number,
        point,
        dist2,
    };
    let mut hits = Hits::new(alloc);
    made(rt, hits.push(hit));
    hits
}

fn put(rt: &impl Abort, hits: &mut Hits, k: usize, hit: Hit) {
    assert!(rt; 1 <= k && hits.len() <= k);
    made(rt, hits.put(k, hit));
}

#[test]
fn among_hits_in_no_order_one_goes_before_the_first_that_comes_after_it(rt: HostRuntime) {
    let mut hits = Hits::new(rt.alloc());
    made(&rt, hits.push(away(81)));
    made(&rt, hits.push(away(1)));
    put(&rt, &mut hits, 3, away(25));
    let mut gaps = hits.as_slice().iter().map(|hit| hit.dist2);
    holds(&rt, "the order", gaps.eq([25, 81, 1]));
}

// So far away, squared.
fn away(dist2: u128) -> Hit {
    Hit {
        dist2,
        ..Hit::default()
    }
}
