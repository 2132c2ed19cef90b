//! Gates that hold threads up.
use crate::tests::assertions::holds;
use rebuild_worker::{Gate, HoldGate, MeetGate};
use std::thread::join;

// What a thread tells a gate.
#[derive(Clone, Copy)]
enum Word {
    Build,
    // A caller, and which of its commands it was replied to.
    Reply(u8, u32),
}

fn tell(gate: &impl Gate, words: &[Word]) {
    for word in words {
        match word {
            Word::Build => gate.before_build(1),
            Word::Reply(caller, index) => gate.replied(*caller, *index),
        }
    }
}

// A gate between a build and the first command of caller 1, that one thread has told these words.
fn told(words: &[Word]) -> HoldGate {
    let gate = HoldGate::new(0, 1, 3);
    tell(&gate, words);
    gate
}

#[test]
fn a_build_and_a_command_hold_each_other_up(rt: HostRuntime) {
    let gate = told(&[Word::Reply(1, 1), Word::Build]);
    holds(&rt, "no command at the start has waited", !gate.held());
    tell(&gate, &[Word::Reply(1, 0)]);
    holds(&rt, "both were held up", gate.held());
}

#[test]
fn a_build_waits_for_no_more_than_its_turns(rt: HostRuntime) {
    let gate = told(&[Word::Build, Word::Reply(1, 0), Word::Reply(1, 1)]);
    holds(&rt, "none was held up", !gate.held());
}

#[test]
fn a_command_waits_for_a_build_for_no_more_than_its_turns(rt: HostRuntime) {
    let gate = told(&[Word::Reply(1, 0), Word::Reply(1, 1), Word::Build]);
    holds(&rt, "none was held up", !gate.held());
}

#[test]
fn a_command_waits_for_another_for_no_more_than_its_turns(rt: HostRuntime) {
    let gate = MeetGate::new(0, 1, 3);
    tell(&gate, &[Word::Build, Word::Reply(1, 0), Word::Reply(2, 1)]);
    holds(&rt, "none was held up", !gate.held());
}

#[test]
fn two_threads_meet(rt: HostRuntime) {
    let gate = MeetGate::new(0, 1, 100_000_000);
    join(&rt, || gate.replied(1, 0), || gate.replied(2, 1));
    holds(&rt, "they met", gate.held());
}
