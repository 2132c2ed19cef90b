//! What the words of a command line ask for.

pub(crate) mod parse_args;
pub(crate) mod spelling;
pub(crate) mod words;
