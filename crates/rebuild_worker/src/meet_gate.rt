use crate::gate::Gate;
use crate::signal::Signal;

/// For tests of two callers at once: each of two commands holds its caller up until the other was replied to.
#[derive(Drop)]
pub struct MeetGate {
    one: u32,
    two: u32,
    turns: u64,
    one_replied: Signal,
    two_replied: Signal,
}

impl MeetGate {
    /// As `HoldGate::new`.
    pub fn new(one: u32, two: u32, turns: u64) -> MeetGate {
        MeetGate {
            one,
            two,
            turns,
            one_replied: Signal::new(),
            two_replied: Signal::new(),
        }
    }

    /// As `HoldGate::held`, of both callers.
    pub fn held(&self) -> bool {
        self.one_replied.is_met() && self.two_replied.is_met()
    }
}

impl Gate for MeetGate {
    fn before_build(&self, _ticket: u64) {}

    fn replied(&self, _caller: u8, index: u32) {
        if index == self.one {
            self.one_replied.give();
            self.two_replied.wait(self.turns);
        }
        if index == self.two {
            self.two_replied.give();
            self.one_replied.wait(self.turns);
        }
    }
}
