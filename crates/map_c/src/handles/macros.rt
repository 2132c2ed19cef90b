//! How a call of C asks what a handle holds, and ends where it is refused. No functions: they return from the call, and of an array
//! that a closure writes to nothing is known after it was passed.

// What was promised, or a return of the status that says why it is refused.
macro_rules! or_status {
    ($result:expr) => {
        match $result {
            Ok(value) => value,
            Err(refusal) => return refusal.status(),
        }
    };
}

// What is found in the content, which the handle keeps, or a return of the status that says why nothing is.
macro_rules! ask {
    ($alloc:ident, $handle:ident, |$content:ident| $found:expr) => {{
        let Some($content) = $handle.take($alloc) else {
            return $crate::Refusal::Empty.status();
        };
        let found = $found;
        *$handle = $crate::Handle::of($content);
        $crate::handles::macros::or_status!(found)
    }};
}

pub(crate) use ask;
pub(crate) use or_status;
