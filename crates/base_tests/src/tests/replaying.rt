//! Operations replayed with ample memory.
use crate::tests::assertions::{holds, made, same};
use crate::tests::draw::Draw;
use crate::tests::script::Script;
use crate::tests::watch::perform_plainly;
use kd_tree::Tree;
use kd_update::replayed;
use map_fold::Item;
use std::alloc::Global;
use std::process::Abort;

// Runs of points, each with two actions behind it.
fn runs(rt: &impl Abort, alloc: Global, counts: &[u32]) -> Script {
    let mut draw = Draw { state: 3 };
    let mut script = Script::new(alloc);
    for count in counts {
        script = run(rt, script, &mut draw, *count);
        script = marked(rt, script, &mut draw);
        script = marked(rt, script, &mut draw);
    }
    script
}

fn run(rt: &impl Abort, script: Script, draw: &mut Draw, count: u32) -> Script {
    let mut script = script;
    for _ in 0..count {
        let point = draw.point(rt);
        script = made(rt, script.put(rt, point));
    }
    script
}

fn marked(rt: &impl Abort, script: Script, draw: &mut Draw) -> Script {
    let action = draw.action(rt);
    made(rt, script.mark(action.choice, action.tag))
}

#[test]
fn runs_of_points_in_a_full_log_do_what_single_points_do(rt: HostRuntime) {
    let alloc = rt.alloc();
    let script = runs(&rt, alloc, &[63, 64, 1_500, 5_000, 58_896, 1]);
    same(&rt, "operations", script.as_slice().len(), 65_536);
    let plain = performed(&rt, alloc, &script);
    holds(&rt, "many are left", plain.len() > 1_000);
    for large in [2, 16, 100, 1_500] {
        replays(&rt, alloc, large, &script, plain.as_slice());
    }
}

// What the operations leave in a plain list.
fn performed(rt: &impl Abort, alloc: Global, script: &Script) -> Vec<Item> {
    let mut plain = Vec::new(alloc);
    for op in script.as_slice() {
        made(rt, perform_plainly(&mut plain, op));
    }
    plain
}

fn replays(rt: &impl Abort, alloc: Global, large: u32, script: &Script, plain: &[Item]) {
    let tree = made(rt, replayed(alloc, Tree::empty(), large, script.as_slice()));
    let held = made(rt, tree.flatten(alloc));
    assert!(rt; held.as_slice() == plain, "large {large}");
}
