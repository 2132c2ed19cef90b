//! The worker, which rebuilds detached subtrees; its bell; and for tests gates that hold threads up, and a map that
//! refuses on demand.
#![tactic(auto)]

mod bell;
mod count_desk;
mod gate;
mod hold_gate;
mod meet_gate;
mod shares;
mod signal;
mod worker;

pub use bell::{Bell, Rest, pair};
pub use count_desk::CountDesk;
pub use gate::{FreeGate, Gate};
pub use hold_gate::HoldGate;
pub use meet_gate::MeetGate;
pub use worker::work;
