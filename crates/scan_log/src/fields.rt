//! The fields of a line.
ghost use Rattle.std.specs.{Prelude.{◌≡◌, List, ℕ, [], ◌∷◌, length, drop, if◌then◌else◌, OnOk, IfOk, MatchResult}, Option.{MatchOption}};
ghost use Rattle.scan_log.specs.{declared.fault.LogCause.TheVariants.{WrongCount}, Lines.{fields_of}};
ghost use Rattle.scan_log.specs.{Reading.{AreTooFew, first_coordinate, first_intensity, first_number}, Scripts.{IsLogCoordinate}};

use crate::number::{as_coordinate, as_intensity};
use crate::piece::{count_of, index_of};
use crate::{Format, LogCause};
use log_numbers::front_number;
use std::marker::Model;

/// The remaining fields.
#[derive(Drop)]
pub struct Fields<'a> {
    rest: &'a [u8],
    // Whether there is a field, though it may be empty.
    more: bool,
}

impl<'a> Model for Fields<'a> {
    ghost Value = { List (List ℕ) };

    ghost view = { λ s. if s.more then fields_of s.rest.now else [] };
}

impl<'a> Fields<'a> {
    pub fn new(line: &'a [u8]) -> Fields<'a>
        ensures { result ≡ fields_of line.now }
    {
        Fields {
            rest: line,
            more: true,
        }
    }

    /// How many there are. Costs the length of all.
    pub fn len(&self) -> usize
        ensures { result ≡ length self.now }
    {
        if self.more {
            count_of(b' ', self.rest) + 1
        } else {
            0
        }
    }

    /// The next field. Costs its length.
    pub fn next(&mut self) -> Option<&'a [u8]>
        ensures { MatchOption result (self.old ≡ []) (λ field. self.old ≡ field.now ∷ self.new) }
    {
        if !self.more {
            return None;
        }
        if let Some(end) = index_of(b' ', self.rest) {
            let field = &self.rest[..end];
            self.rest = &self.rest[end + 1..];
            return Some(field);
        }
        self.more = false;
        Some(self.rest)
    }

    /// The next field, without which their count is wrong. Costs its length.
    pub fn field(&mut self) -> Result<&'a [u8], LogCause>
        ensures { MatchResult result (λ field. self.old ≡ field.now ∷ self.new) (λ cause. (cause ≡ WrongCount) × (self.old ≡ [])) }
    {
        match self.next() {
            Some(field) => Ok(field),
            None => Err(LogCause::WrongCount),
        }
    }

    /// The next three fields, without which their count is wrong. Costs their length.
    pub fn three(&mut self) -> Result<(&'a [u8], &'a [u8], &'a [u8]), LogCause>
        ensures { MatchResult result (λ t. self.old ≡ t.0.now ∷ t.1.now ∷ t.2.now ∷ self.new) (λ cause. (cause ≡ WrongCount) × AreTooFew self.old) }
    {
        let first = self.field()?;
        let second = self.field()?;
        let third = self.field()?;
        Ok((first, second, third))
    }

    /// The coordinate that the next field spells. Costs its length.
    #[tactic(auto, using(crate::proofs::FirstNumbers::first_coordinate_is))]
    pub fn coordinate(&mut self, format: Format) -> Result<i64, LogCause>
        ensures value { result ≡ first_coordinate format self.old }
        ensures range { IfOk result (IsLogCoordinate format) }
        ensures rest { OnOk result (self.new ≡ drop 1 self.old) }
    {
        let number = self.number()?;
        as_coordinate(format, number)
    }

    /// The intensity that the next field spells. Costs its length.
    #[tactic(auto, using(crate::proofs::FirstNumbers::first_intensity_is))]
    pub fn intensity(&mut self) -> Result<u16, LogCause>
        ensures value { result ≡ first_intensity self.old }
        ensures rest { OnOk result (self.new ≡ drop 1 self.old) }
    {
        let number = self.number()?;
        as_intensity(number)
    }

    // One pass, where `next` would be another before it.
    fn number(&mut self) -> Result<i64, LogCause>
        ensures value { result ≡ first_number self.old }
        ensures rest { OnOk result (self.new ≡ drop 1 self.old) }
    {
        if !self.more {
            return Err(LogCause::WrongCount);
        }
        let Some(number) = front_number(self.rest) else {
            return Err(LogCause::BadNumber);
        };
        if number.len < self.rest.len() {
            self.rest = &self.rest[number.len + 1..];
        } else {
            self.more = false;
        }
        Ok(number.value)
    }
}
