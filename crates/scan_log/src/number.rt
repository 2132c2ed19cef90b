//! Numbers in their one spelling.
ghost use Rattle.std.specs.Prelude.{◌≡◌, ◌≤◌, ◌≤ℤ◌, IfOk, pos, negsuc};
ghost use Rattle.scan_log.specs.{Formats.{farthest, highest, lowest}, Numbers.{coordinate, corner_number, in_range, natural_in, natural_range, number_in}};
ghost use Rattle.scan_log.specs.Scripts.{IsBoxNumber, IsLogCoordinate};

use crate::{Format, LogCause};
use log_numbers::numeral;

/// A coordinate of a point.
pub fn coordinate(format: Format, field: &[u8]) -> Result<i64, LogCause>
    ensures value { result ≡ coordinate format field.now }
    ensures range { IfOk result (IsLogCoordinate format) }
{
    let limits = format.limits();
    number_in(limits.lowest, limits.highest, field)
}

/// The coordinate that was read as this number, as far as it counts.
pub fn as_coordinate(format: Format, number: i64) -> Result<i64, LogCause>
    ensures value { result ≡ in_range (lowest format) (highest format) number }
    ensures range { IfOk result (IsLogCoordinate format) }
{
    let limits = format.limits();
    in_range(limits.lowest, limits.highest, number)
}

/// The intensity that was read as this number, as far as it counts.
pub fn as_intensity(number: i64) -> Result<u16, LogCause>
    ensures { result ≡ natural_range 0 65535 number }
{
    let intensity = in_range(0, 65_535, number)?;
    Ok(intensity as u16)
}

/// A number of a box's corner.
pub fn corner_number(format: Format, field: &[u8]) -> Result<i64, LogCause>
    ensures value { result ≡ corner_number format field.now }
    ensures range { IfOk result (IsBoxNumber format) }
{
    let limits = format.limits();
    number_in(limits.lowest, limits.box_highest, field)
}

/// A greatest distance, in millimetres.
pub fn distance(format: Format, field: &[u8]) -> Result<u64, LogCause>
    ensures { result ≡ natural_in 0 (farthest format) field.now }
{
    let limits = format.limits();
    let number = number_in(0, limits.farthest, field)?;
    Ok(number as u64)
}

/// The number from `low` to `high` that the field spells in its one spelling: `BadNumber` where it spells none, `OutOfRange` where
/// it is another. The field may have any length.
pub fn natural_in(low: u32, high: u32, field: &[u8]) -> Result<u32, LogCause>
    ensures value { result ≡ natural_in low high field.now }
    ensures range { IfOk result (λ n. (low ≤ n) × (n ≤ high)) }
{
    let number = number_in(low as i64, high as i64, field)?;
    Ok(number as u32)
}

/// As `natural_in`, for longer numbers.
pub fn long_in(low: u64, high: u64, field: &[u8]) -> Result<u64, LogCause>
    requires low { low ≤ high }
    requires high { high ≤ 999999999999999999 }
    ensures value { result ≡ natural_in low high field.now }
    ensures range { IfOk result (λ n. (low ≤ n) × (n ≤ high)) }
{
    let number = number_in(low as i64, high as i64, field)?;
    Ok(number as u64)
}

fn number_in(low: i64, high: i64, field: &[u8]) -> Result<i64, LogCause>
    requires low { negsuc 999999999999999998 ≤ℤ low }
    requires high { high ≤ℤ pos 999999999999999999 }
    ensures value { result ≡ number_in low high field.now }
    ensures range { IfOk result (λ n. (low ≤ℤ n) × (n ≤ℤ high)) }
{
    let number = numeral(field).ok_or(LogCause::BadNumber)?;
    in_range(low, high, number)
}

fn in_range(low: i64, high: i64, number: i64) -> Result<i64, LogCause>
    ensures value { result ≡ in_range low high number }
    ensures range { IfOk result (λ n. (low ≤ℤ n) × (n ≤ℤ high)) }
{
    if low <= number && number <= high {
        Ok(number)
    } else {
        Err(LogCause::OutOfRange)
    }
}
