//! A bounded list of operations: what a subtree met while it was being rebuilt elsewhere.
#![tactic(auto)]

mod block;
mod fault;
mod log;

pub use fault::PushFault;
pub use log::{MAX_LOGGED, OpLog};
