//! Callers that run a script in threads of their own, while two workers rebuild.

mod alarm;
mod caller;
mod merging;
mod naming;
mod phase;
mod queue;
mod script;
mod stage;
mod threads;

pub use threads::{run_callers, threaded, threaded_plain};
