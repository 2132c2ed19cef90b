//! The number that a whole field spells.
ghost use Rattle.std.specs.{Prelude.{◌≡◌, MatchOption, true, false}, Str.Parse.{signed_digits_value}};
ghost use Rattle.log_numbers.specs.Numerals.{capped, is_numeral};

use crate::front::front_number;

/// The number, or ±10^18 where it is beyond that; `None` where the field isn't one in its one spelling. Costs its length.
pub fn numeral(field: &[u8]) -> Option<i64>
    ensures { MatchOption result (is_numeral field.now ≡ false)
        (λ n. (is_numeral field.now ≡ true) × (n ≡ capped (signed_digits_value 10 field.now))) }
{
    let number = front_number(field)?;
    if number.len == field.len() {
        Some(number.value)
    } else {
        None
    }
}
