//! The kept lines of a log.
ghost use Rattle.std.specs.{Prelude.{◌≡◌, ◌+◌, ◌≤◌, List, ℕ, [], ◌∷◌}, Option.{MatchOption}};
ghost use Rattle.scan_log.specs.{Faults.{line_feeds}, Lines.{is_kept_line, kept_from, lines_of}};

use crate::piece::index_of;
use std::marker::Model;

/// The remaining kept lines.
#[derive(Drop)]
pub struct Lines<'a> {
    rest: &'a [u8],
    // Of the line that the rest begins with.
    number: u32,
}

impl<'a> Model for Lines<'a> {
    ghost Value = { List (ℕ × List ℕ) };

    ghost view = { λ s. kept_from s.number (lines_of s.rest.now) };

    ghost invariant = { λ s. s.number + line_feeds s.rest.now ≤ 4294967295 };
}

impl<'a> Lines<'a> {
    pub fn new(log: &'a [u8]) -> Lines<'a>
        requires { line_feeds log.now ≤ 4294967294 }
        ensures { result ≡ kept_from 1 (lines_of log.now) }
    {
        Lines {
            rest: log,
            number: 1,
        }
    }

    /// The next kept line, and its number. Costs its length, and that of the lines skipped before it.
    pub fn next(&mut self) -> Option<(u32, &'a [u8])>
        ensures { MatchOption result (self.old ≡ []) (λ line. self.old ≡ (line.0, line.1.now) ∷ self.new) }
    {
        while let Some(end) = index_of(b'\n', self.rest) {
            let line = &self.rest[..end];
            let number = self.number;
            self.rest = &self.rest[end + 1..];
            self.number += 1;
            if is_kept(line) {
                return Some((number, line));
            }
        }
        let line = self.rest;
        self.rest = &self.rest[line.len()..];
        if is_kept(line) {
            return Some((self.number, line));
        }
        None
    }
}

fn is_kept(line: &[u8]) -> bool
    ensures { result ≡ is_kept_line line.now }
{
    match line {
        [] => false,
        [first, ..] => *first != b'#',
    }
}
