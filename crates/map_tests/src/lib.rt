//! The state of a map, beside the plain map and under hostile schedules; and what is made of it: lists, a renewed map, and a log.
//! These tests speak of public calls alone, and stand in a crate of their own, so that the state is proved once for all of them.
#![tactic(auto)]

#[cfg(test)]
mod tests;
