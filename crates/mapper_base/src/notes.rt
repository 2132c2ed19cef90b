//! The line that says how a run ended.
ghost use Rattle.std.specs.Prelude.{◌≡◌, ◌++◌, ◌∷◌, [], IfOk};
ghost use Rattle.scan_log.specs.Faults.{fault_text};
ghost use Rattle.mapper_base.specs.Endings.{note_of};
ghost use Rattle.byte_streams.specs.Outside.{AppendsFront};

use crate::ending::Ending;
use byte_streams::{Sink, write_all};
use itoa::Buffer;
use scan_log::LogCause;
use std::alloc::{AllocError, Global};

/// Writes the line of the ending, which is empty for `Done`. Ignores how the writing ends. Only the line of a faulty log takes
/// memory.
pub fn tell<E: Sink>(alloc: Global, notes: &mut E, ending: Ending)
    ensures { AppendsFront (E.held notes.old) (E.held notes.new) (note_of ending) }
{
    match ending {
        Ending::Done => tell_line(notes, b""),
        Ending::Usage => tell_line(
            notes,
            b"usage: mapper run | run --serial | make N | drive N | check N\n",
        ),
        Ending::ReadFault => tell_line(notes, b"read fault\n"),
        Ending::TooLong => tell_line(notes, b"log too long\n"),
        Ending::Bad { line, cause } => tell_fault(alloc, notes, line, cause),
        Ending::WriteFault => tell_line(notes, b"write fault\n"),
        Ending::NoMemory => tell_line(notes, b"no memory\n"),
    }
}

fn tell_line<E: Sink>(notes: &mut E, line: &[u8])
    ensures { AppendsFront (E.held notes.old) (E.held notes.new) line.now }
{
    let _ = write_all(notes, line);
}

fn tell_fault<E: Sink>(alloc: Global, notes: &mut E, line: u32, cause: LogCause)
    ensures { AppendsFront (E.held notes.old) (E.held notes.new) (fault_text (record { line = line; cause = cause }) ++ 10 ∷ []) }
{
    if let Ok(text) = fault_line(alloc, line, cause) {
        tell_line(notes, text.as_slice());
    }
}

fn fault_line(alloc: Global, line: u32, cause: LogCause) -> Result<Vec<u8>, AllocError>
    ensures { IfOk result (λ text. text.items ≡ fault_text (record { line = line; cause = cause }) ++ 10 ∷ []) }
{
    let mut number = Buffer::new();
    let mut text = Vec::from_slice(alloc, b"line ")?;
    text.extend_from_slice(number.format(line).as_bytes())?;
    text.extend_from_slice(b": ")?;
    text.extend_from_slice(cause.text())?;
    text.extend_from_slice(b"\n")?;
    Ok(text)
}
