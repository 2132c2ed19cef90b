//! Reading the header.
ghost use Rattle.std.specs.Prelude.{◌≡◌};
ghost use Rattle.scan_log.specs.{Formats.{format_of, is_version}, Lines.{fields_of}, Reading.{are_header_words, header_of}};

use crate::fields::Fields;
use crate::number::natural_in;
use crate::piece::is_word;
use crate::{Format, LogCause};
use map_items::Settings;

/// The version and the settings that the header spells.
#[tactic(auto, unfolding(crate::specs::Reading::header_of))]
pub fn settings(header: &[u8]) -> Result<(Format, Settings), LogCause>
    ensures { result ≡ header_of (fields_of header.now) }
{
    let mut fields = Fields::new(header);
    let Ok((program, version, voxel_word)) = fields.three() else {
        return Err(LogCause::NoHeader);
    };
    let Ok((voxel, large_word, large)) = fields.three() else {
        return Err(LogCause::NoHeader);
    };
    if fields.next().is_some() {
        return Err(LogCause::NoHeader);
    }
    if !are_words(program, version, voxel_word, large_word) {
        return Err(LogCause::NoHeader);
    }
    let voxel = natural_in(1, 1_000_000, voxel)?;
    let large = natural_in(16, 1_000_000, large)?;
    Ok((format_of(version), Settings::new(voxel, large)))
}

// What a header has besides its two numbers.
fn are_words(program: &[u8], version: &[u8], voxel: &[u8], large: &[u8]) -> bool
    ensures { result ≡ are_header_words program.now version.now voxel.now large.now }
{
    is_word(program, b"ikdmap")
        && is_version(version)
        && is_word(voxel, b"voxel")
        && is_word(large, b"large")
}

fn is_version(version: &[u8]) -> bool
    ensures { result ≡ is_version version.now }
{
    is_word(version, b"1") || is_word(version, b"2")
}

fn format_of(version: &[u8]) -> Format
    ensures { result ≡ format_of version.now }
{
    if is_word(version, b"2") {
        Format::Two
    } else {
        Format::One
    }
}
