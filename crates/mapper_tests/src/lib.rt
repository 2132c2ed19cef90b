//! What no stored run of the program can show: streams that fail at a count, threads that are held up, and scripts by public calls alone.
//! These tests stand in a crate of their own, so that the program is proved once for all of them.
#![tactic(auto)]

#[cfg(test)]
mod tests;
