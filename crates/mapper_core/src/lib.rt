//! The top call: from the bytes of a log to the bytes of its transcript.
#![tactic(auto)]

mod callers;
mod running;

pub use byte_streams::{Failed, MemSink, MemSource, Sink, SinkFault, Source, SureSink, SureSource};
pub use callers::{run_callers, threaded};
pub use mapper_base::{Replies, Status, made, serial};
pub use running::run;
