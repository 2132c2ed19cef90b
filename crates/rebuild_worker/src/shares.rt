//! What threads may send and share.
use crate::{Bell, CountDesk, HoldGate, MeetGate, Rest};

fn send<T: Send>(_x: &T) {}

fn share<T: Send + Sync>(_x: &T) {}

fn _bells(bell: &Bell, rest: &Rest) {
    share(bell);
    send(rest);
}

fn _gates(hold: &HoldGate, meet: &MeetGate) {
    share(hold);
    share(meet);
}

fn _desks(desk: &CountDesk) {
    share(desk);
}
