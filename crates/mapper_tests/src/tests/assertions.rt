//! Assertions as functions: each is proved once, and a call adds next to nothing to the proof of a test. A test ends where one fails.
ghost use Rattle.std.specs.Prelude.{◌≡◌, Ok};

use std::fmt::Debug;
use std::process::Abort;

// What was got is what is wanted. A failure names what it is.
pub fn same<T: PartialEq + Debug + Drop>(rt: &impl Abort, what: &str, got: T, want: T) {
    assert_eq!(rt; got, want, "{what}");
}

pub fn holds(rt: &impl Abort, what: &str, fact: bool) {
    assert!(rt; fact, "{what}");
}

pub fn are_bytes(rt: &impl Abort, what: &str, text: &[u8], want: &[u8]) {
    assert!(rt; text == want, "{what}: {text:?} is not {want:?}");
}

// What a call made, which wasn't refused.
pub fn made<T: Drop, E: Debug + Drop>(rt: &impl Abort, answer: Result<T, E>) -> T
    ensures { answer ≡ Ok result }
{
    match answer {
        Ok(value) => value,
        Err(why) => panic!(rt; "{why:?}"),
    }
}
