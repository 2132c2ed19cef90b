//! What stands below a map's state: points, boxes, lists and regions beside values worked out by hand; trees that are taken apart and
//! put together, what updates do beside watched subtrees, and searches of trees that no log leads to; logs that are read and written,
//! lines of transcripts, and verdicts on them. All else of them is shown by the program's stored runs. These tests speak of public calls
//! alone, and stand in a crate of their own, so that what they call is proved once for all of them.
#![tactic(auto)]

#[cfg(test)]
mod tests;
