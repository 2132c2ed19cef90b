//! The program: its words, standard input, output and error, and its exit status.
#![tactic(auto)]

mod streams;

ghost use Rattle.std.specs.{Prelude.{◌≡◌}, Process.{exit_status}};
ghost use Rattle.mapper_cli.specs.Codes.{code_of};

use crate::streams::{Input, Output};
use byte_streams::Sink;
use mapper_core::{Status, run};
use rebuild_worker::FreeGate;
use std::alloc::AllocError;
use std::env;
use std::io::ErrorKind;
use std::process::ExitCode;

fn main(rt: HostRuntime) -> ExitCode {
    let mut log = Input::new(rt.stdin());
    let mut out = Output::new(rt.stdout());
    let mut notes = Output::new(rt.stderr());
    let status = match words_of(&rt) {
        Ok(words) => run(
            &rt,
            rt.alloc(),
            words.as_slice(),
            &mut log,
            &mut out,
            &mut notes,
            &FreeGate,
        ),
        Err(AllocError) => {
            let _ = notes.write(b"no memory\n");
            Status::NoMemory
        }
    };
    code_of(status)
}

// The words after the program's name.
fn words_of(rt: &HostRuntime) -> Result<Vec<String>, AllocError> {
    match env::args(rt) {
        Ok(args) => Vec::from_iter(rt.alloc(), args.skip(1)),
        Err(error) if error.kind() == ErrorKind::OutOfMemory => Err(AllocError),
        // Words that aren't text ask for nothing, as no words do.
        Err(_) => Ok(Vec::new(rt.alloc())),
    }
}

fn code_of(status: Status) -> ExitCode
    ensures { exit_status result ≡ code_of status }
{
    ExitCode::from(match status {
        Status::Done => 0,
        Status::BadLog => 1,
        Status::Usage => 2,
        Status::ReadFault => 3,
        Status::WriteFault => 4,
        Status::NoMemory => 5,
        Status::OverLimit => 6,
    })
}
