//! What C hands over and gets back: handles, what they hold, structs, statuses.

pub(crate) mod built_subtree;
pub(crate) mod content;
pub(crate) mod detached_job;
pub(crate) mod forms;
pub(crate) mod handle;
pub(crate) mod listing;
pub(crate) mod macros;
pub(crate) mod parts;
pub(crate) mod raw_content;
pub(crate) mod reading;
pub(crate) mod rebuilding;
pub(crate) mod refusal;
pub(crate) mod showing;
pub(crate) mod writing;
