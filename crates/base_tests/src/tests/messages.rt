//! What refusals say to people.
use crate::tests::assertions::{made, same};
use local_region::RulesFault;
use map_fold::NoMemory;
use point_geom::{Axis, CuboidError, OutOfRange};
use scan_log::{LogCause, ParseFault};
use std::alloc::Global;
use std::fmt::Display;
use std::process::Abort;

#[test]
fn a_refusal_says_where_and_why(rt: HostRuntime) {
    let alloc = rt.alloc();
    let far = OutOfRange {
        axis: Axis::Z,
        value: -1_099_511_627_777,
    };
    let want = "z is -1099511627777 mm, which is out of range";
    says(&rt, alloc, &far, want);
    let inverted = CuboidError::Inverted { axis: Axis::Y };
    says(&rt, alloc, &inverted, "hi is below lo on y");
    let bad = ParseFault::Bad {
        line: 12,
        cause: LogCause::WrongCount,
    };
    says(&rt, alloc, &bad, "line 12: wrong count");
    let want = "twice the ball is not below the side";
    says(&rt, alloc, &RulesFault::Ball, want);
    says(&rt, alloc, &NoMemory, "no memory");
}

fn says<D: Display>(rt: &impl Abort, alloc: Global, refusal: &D, want: &str) {
    let text = made(rt, format!(in alloc; "{refusal}"));
    same(rt, "the message", text.as_str(), want);
}
