//! Pieces of lines: where a line or a field ends, and which word a field is.
ghost use Rattle.std.specs.{Prelude.{◌≡◌, ◌<◌, ◌≤◌, ◌==◌, count_by, length, position, IfSome}, Str.{bytes_eq}};

use memchr::memchr;

// A count of at most 255 bytes fits into one byte, so that many are compared at a time.
const BYTES_AT_A_TIME: usize = 255;

pub fn is_word(field: &[u8], word: &[u8]) -> bool
    ensures { result ≡ bytes_eq field.now word.now }
{
    field == word
}

/// Where the byte is first.
pub fn index_of(byte: u8, bytes: &[u8]) -> Option<usize>
    ensures value { result ≡ position (λ b. b == byte) bytes.now }
    ensures bound { IfSome result (λ place. place < length bytes.now) }
{
    memchr(byte, bytes)
}

pub fn count_of(byte: u8, bytes: &[u8]) -> usize
    ensures value { result ≡ count_by (λ b. b == byte) bytes.now }
    ensures bound { result ≤ length bytes.now }
{
    let mut count = 0;
    for part in bytes.chunks(BYTES_AT_A_TIME) {
        count += few_of(byte, part) as usize;
    }
    count
}

fn few_of(byte: u8, bytes: &[u8]) -> u8
    requires { length bytes.now ≤ 255 }
    ensures { result ≡ count_by (λ b. b == byte) bytes.now }
{
    let mut count = 0;
    for other in bytes {
        count += (*other == byte) as u8;
    }
    count
}
