//! A script, run in its order on one thread.

pub(crate) mod one_command;
pub(crate) mod outputs;
pub(crate) mod whole_script;
