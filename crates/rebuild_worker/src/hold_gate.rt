use crate::gate::Gate;
use crate::signal::Signal;

/// For tests of callers while a worker builds: the caller of the script's command `start` waits until a build is about
/// to begin, and each build until command `until` was replied to.
#[derive(Drop)]
pub struct HoldGate {
    start: u32,
    until: u32,
    turns: u64,
    building: Signal,
    replied: Signal,
}

impl HoldGate {
    /// Each wait ends after `turns` turns, in which other threads may run.
    pub fn new(start: u32, until: u32, turns: u64) -> HoldGate {
        HoldGate {
            start,
            until,
            turns,
            building: Signal::new(),
            replied: Signal::new(),
        }
    }

    /// Once the threads have ended: whether both were held up, and neither gave up.
    pub fn held(&self) -> bool {
        self.building.is_met() && self.replied.is_met()
    }
}

impl Gate for HoldGate {
    fn before_build(&self, _ticket: u64) {
        self.building.give();
        self.replied.wait(self.turns);
    }

    fn replied(&self, _caller: u8, index: u32) {
        if index == self.until {
            self.replied.give();
        }
        if index == self.start {
            self.building.wait(self.turns);
        }
    }
}
