//! Shared maps, tried by their callers and by workers, and workers at maps of other kinds. These tests speak of public calls alone,
//! and stand in a crate of their own, so that the shared map and the worker are proved once for all of them.
#![tactic(auto)]

#[cfg(test)]
mod tests;
