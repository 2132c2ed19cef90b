//! Appending what lines of transcripts and logs are made of. On `NoMemory` a part may be appended: the line or the log is dropped.
ghost use Rattle.std.specs.{Prelude.{◌≡◌, [], ◌∷◌, ◌++◌, List, ℕ, OnOk, OnErr}, Fmt.{signed_decimal}, List.{flat_map}};
ghost use Rattle.scan_log.specs.{declared.format.Format.{Format}, Spelling.{caller_field}, Transcript.{all_spaced, point_text, spaced}};

use crate::Format;
use itoa::{Buffer, Integer};
use map_items::NoMemory;
use point_geom::Point;

/// What may come several times in a row.
pub(crate) trait Listed {
    /// Its text, in a log of this version.
    ghost text: { Format → Self → List ℕ };

    fn put(&self, out: &mut Vec<u8>, format: Format) -> Result<(), NoMemory>
        ensures { OnOk result (out.new.items ≡ out.old.items ++ text format self.now) };
}

pub(crate) fn put_all<T: Listed>(
    out: &mut Vec<u8>,
    format: Format,
    items: &[T],
) -> Result<(), NoMemory>
    ensures { OnOk result (out.new.items ≡ out.old.items ++ flat_map (T.text format) items.now) }
{
    for item in items {
        item.put(out, format)?;
    }
    Ok(())
}

pub(crate) fn put_caller(out: &mut Vec<u8>, caller: u8) -> Result<(), NoMemory>
    ensures { OnOk result (out.new.items ≡ out.old.items ++ caller_field caller) }
{
    put(out, b"@")?;
    put_number(out, caller)
}

/// What a line begins with: the caller, the word and its number.
pub(crate) fn put_head<I: Integer>(
    out: &mut Vec<u8>,
    caller: u8,
    word: &[u8],
    number: I,
) -> Result<(), NoMemory>
    ensures { OnOk result (out.new.items ≡ out.old.items ++ (caller_field caller ++ spaced word.now ++ spaced (I.text number))) }
{
    put_caller(out, caller)?;
    put_named(out, word, number)
}

/// A word and its number.
pub(crate) fn put_named<I: Integer>(
    out: &mut Vec<u8>,
    word: &[u8],
    number: I,
) -> Result<(), NoMemory>
    ensures { OnOk result (out.new.items ≡ out.old.items ++ (spaced word.now ++ spaced (I.text number))) }
{
    put_word(out, word)?;
    put_spaced(out, number)
}

pub(crate) fn put_point(out: &mut Vec<u8>, point: &Point) -> Result<(), NoMemory>
    ensures { OnOk result (out.new.items ≡ out.old.items ++ point_text point.now) }
{
    put_three(out, point.x(), point.y(), point.z())
}

/// The numbers on three axes.
pub(crate) fn put_three(out: &mut Vec<u8>, x: i64, y: i64, z: i64) -> Result<(), NoMemory>
    ensures { OnOk result (out.new.items ≡ out.old.items ++ all_spaced (signed_decimal x ∷ signed_decimal y ∷ signed_decimal z ∷ [])) }
{
    put_spaced(out, x)?;
    put_spaced(out, y)?;
    put_spaced(out, z)
}

pub(crate) fn put_word(out: &mut Vec<u8>, word: &[u8]) -> Result<(), NoMemory>
    ensures { OnOk result (out.new.items ≡ out.old.items ++ spaced word.now) }
{
    put(out, b" ")?;
    put(out, word)
}

pub(crate) fn put_spaced<I: Integer>(out: &mut Vec<u8>, number: I) -> Result<(), NoMemory>
    ensures { OnOk result (out.new.items ≡ out.old.items ++ spaced (I.text number)) }
{
    put(out, b" ")?;
    put_number(out, number)
}

pub(crate) fn put_number<I: Integer>(out: &mut Vec<u8>, number: I) -> Result<(), NoMemory>
    ensures { OnOk result (out.new.items ≡ out.old.items ++ I.text number) }
{
    let mut buffer = Buffer::new();
    put(out, buffer.format(number).as_bytes())
}

pub(crate) fn put(out: &mut Vec<u8>, bytes: &[u8]) -> Result<(), NoMemory>
    ensures ok { OnOk result (out.new.items ≡ out.old.items ++ bytes.now) }
    ensures err { OnErr result (out.new.items ≡ out.old.items) }
{
    out.extend_from_slice(bytes)?;
    Ok(())
}
