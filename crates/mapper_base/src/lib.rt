//! The program without its threads: what the words ask for, the log that is read, a script in its order, generated scripts, sums,
//! verdicts, and how a run ends.
#![tactic(auto)]

mod command_line;
mod draws;
mod ending;
mod generated;
mod input;
mod notes;
mod serial_run;
mod status;
mod summing;
mod verdicts;

pub use command_line::spelling::MAX_LOG;
pub use command_line::words::{Ask, asked};
pub use ending::Ending;
pub use generated::made;
pub use input::{Input, behind, read_input, read_script};
pub use notes::tell;
pub use serial_run::outputs::{checked_text, driven_text, in_order_text, made_text};
pub use serial_run::whole_script::{Replies, in_order, serial, transcript};
pub use status::Status;
pub use summing::summary;
pub use transcript_check::{tree_reply, tree_totals};
pub use verdicts::verdict_line;
