//! The number that bytes begin with.
ghost use Rattle.std.specs.{Prelude.{◌≡◌, ◌≤◌, ◌+◌, ◌-◌, ◌*◌, MatchOption, min, false}, Str.{all_ascii_digits}, Str.Parse.{signed_digits_value}};
ghost use Rattle.log_numbers.specs.Numerals.{IsRead, first_field, is_numeral, is_positive_numeral, is_zero, plain_value, without_minus};

// Beyond every limit, so more digits need no more room.
const FAR: u64 = 1_000_000_000_000_000_000;

#[derive(Clone, Copy)]
pub struct FrontNumber {
    /// ±10^18 where it is beyond that.
    pub value: i64,
    /// How many bytes spell it.
    pub len: usize,
}

/// As `numeral`, of the bytes before the first space, in one pass.
pub fn front_number(bytes: &[u8]) -> Option<FrontNumber>
    ensures { MatchOption result (is_numeral (first_field bytes.now) ≡ false)
        (λ n. IsRead is_numeral (signed_digits_value 10) (first_field bytes.now) n.value n.len) }
{
    if is_zero(bytes) {
        return Some(FrontNumber { value: 0, len: 1 });
    }
    // One loop for both signs: the sign can't be predicted.
    let digits = without_minus(bytes);
    let number = positive(digits)?;
    if digits.len() < bytes.len() {
        Some(FrontNumber {
            value: -number.value,
            len: number.len + 1,
        })
    } else {
        Some(number)
    }
}

fn is_zero(bytes: &[u8]) -> bool
    ensures { result ≡ is_zero (first_field bytes.now) }
{
    matches!(bytes, [b'0'] | [b'0', b' ', ..])
}

fn without_minus(bytes: &[u8]) -> &[u8]
    ensures { result.now ≡ without_minus bytes.now }
{
    let minus = matches!(bytes, [b'-', ..]);
    &bytes[minus as usize..]
}

fn positive(bytes: &[u8]) -> Option<FrontNumber>
    ensures { MatchOption result (is_positive_numeral (first_field bytes.now) ≡ false)
        (λ n. IsRead is_positive_numeral plain_value (first_field bytes.now) n.value n.len) }
{
    match bytes {
        [b'1'..=b'9', ..] => digits(bytes),
        _ => None,
    }
}

// A long number may be bad too.
fn digits(bytes: &[u8]) -> Option<FrontNumber>
    ensures { MatchOption result (all_ascii_digits (first_field bytes.now) ≡ false)
        (λ n. IsRead all_ascii_digits plain_value (first_field bytes.now) n.value n.len) }
{
    let mut value = 0;
    for (place, byte) in bytes.iter().enumerate() {
        if !byte.is_ascii_digit() {
            return match byte {
                b' ' => Some(FrontNumber {
                    value: value as i64,
                    len: place,
                }),
                _ => None,
            };
        }
        value = with_digit(value, *byte);
    }
    Some(FrontNumber {
        value: value as i64,
        len: bytes.len(),
    })
}

fn with_digit(value: u64, digit: u8) -> u64
    requires value { value ≤ 1000000000000000000 }
    requires low { 48 ≤ digit }
    requires high { digit ≤ 57 }
    ensures { result ≡ min (10 * value + (digit - 48)) 1000000000000000000 }
{
    if value < FAR / 10 {
        10 * value + (digit - b'0') as u64
    } else {
        FAR
    }
}
