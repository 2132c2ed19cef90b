//! Sources and sinks of bytes, which may fail, and some in memory.
#![tactic(auto)]

mod mem;
mod outside;
mod reading;
mod sure;
mod writing;

pub use mem::{MemSink, MemSource};
pub use outside::{Failed, Sink, SinkFault, Source};
pub use reading::{ReadStop, read_all};
pub use sure::{SureSink, SureSource};
pub use writing::write_all;
