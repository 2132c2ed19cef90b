//! Subtrees replaced by others, and whole trees settled.

pub(crate) mod replace;
pub(crate) mod replacement;
pub(crate) mod settle;
