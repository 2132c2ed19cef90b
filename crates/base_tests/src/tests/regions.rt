//! Moves worked out by hand.
use crate::tests::assertions::{made, same};
use crate::tests::places::{Place, at, cuboid};
use local_region::{Moved, Region, RegionRules, RulesFault};
use std::alloc::Global;
use std::process::Abort;

// The side, the ball and the step.
type Numbers = (u64, u64, u64);

fn rules(numbers: Numbers) -> Result<RegionRules, RulesFault> {
    let (side, ball, step) = numbers;
    RegionRules::new(side, ball, step)
}

#[test]
fn the_first_wrong_number_is_named(rt: HostRuntime) {
    for (numbers, fault) in [
        ((1, 50, 0), RulesFault::Side),
        ((2_199_023_255_553, 0, 1), RulesFault::Side),
        ((100, 50, 0), RulesFault::Ball),
        ((100, 9_223_372_036_854_775_808, 0), RulesFault::Ball),
        ((100, 18_446_744_073_709_551_615, 30), RulesFault::Ball),
        ((2, 1, 1), RulesFault::Ball),
        ((100, 20, 0), RulesFault::Step),
        ((100, 20, 101), RulesFault::Step),
    ] {
        same(&rt, "the refusal", rules(numbers), Err(fault));
    }
    for numbers in [
        (2, 0, 1),
        (101, 50, 101),
        (2_199_023_255_552, 1_099_511_627_775, 1),
    ] {
        has_numbers(&rt, &made(&rt, rules(numbers)), numbers);
    }
}

fn has_numbers(rt: &impl Abort, rules: &RegionRules, want: Numbers) {
    let numbers = (rules.side(), rules.ball(), rules.step());
    same(rt, "the numbers", numbers, want);
}

fn moved(rt: &impl Abort, alloc: Global, numbers: Numbers, from: Place, to: Place) -> Moved {
    let region = Region::begin(made(rt, rules(numbers)), &at(rt, from));
    made(rt, region.moved(alloc, &at(rt, to)))
}

#[test]
fn what_is_left_comes_in_slabs(rt: HostRuntime) {
    let alloc = rt.alloc();
    let along_x = moved(&rt, alloc, (100, 20, 30), (0, 0, 0), (30, 0, 0));
    leaves(&rt, &along_x, &[((-50, -50, -50), (-20, 50, 50))]);
    let along_all = moved(&rt, alloc, (100, 20, 30), (-7, 0, 0), (23, -30, 30));
    leaves(
        &rt,
        &along_all,
        &[
            ((-57, -50, -50), (-27, 50, 50)),
            ((-27, 20, -50), (43, 50, 50)),
            ((-27, -50, -50), (43, 20, -20)),
        ],
    );
    let still = moved(&rt, alloc, (100, 20, 30), (0, 0, 0), (29, -29, 0));
    leaves(&rt, &still, &[]);
    // A step of a whole side leaves all of it on the axis x, and nothing for the others.
    let whole = moved(&rt, alloc, (10, 2, 10), (0, 0, 0), (9, 9, 9));
    leaves(&rt, &whole, &[((-5, -5, -5), (5, 5, 5))]);
}

// What it left are these boxes, in this order.
fn leaves(rt: &impl Abort, moved: &Moved, want: &[(Place, Place)]) {
    same(rt, "boxes", moved.removed.len(), want.len());
    for (left, (lo, hi)) in moved.removed.as_slice().iter().zip(want) {
        same(rt, "a box", *left, cuboid(rt, *lo, *hi));
    }
}
