//! Reading an input, and the log in it.
ghost use Rattle.std.specs.Prelude.{◌≡◌, drop, IfOk, IfErr, IfSome};
ghost use Rattle.mapper_base.specs.{Asks.{CanBeDone, IsOfLog, log_of, most_of}, Causes.{NotRead, ReadsInLimit, Says}, Seen.{log_seen}};

use crate::ending::Ending;
use crate::{Ask, MAX_LOG};
use byte_streams::{ReadStop, Source, read_all};
use scan_log::{ParseFault, Script, parse};
use std::alloc::Global;

/// An input that was read to its end, and the script of its log.
#[derive(Drop)]
pub struct Input {
    pub bytes: Vec<u8>,
    pub script: Script,
}

/// The script of the log, or why there is none. Frees the log's bytes, so that they aren't there while the map is.
pub fn read_script<R: Source>(alloc: Global, ask: Ask, log: &mut R) -> Result<Script, Ending>
    requires can_be_done { CanBeDone ask }
    requires of_log { IsOfLog ask }
    ensures says { IfOk result (Says ask (log_seen R.Source log.old log.new)) }
    ensures cause { IfErr result (NotRead ask (log_seen R.Source log.old log.new)) }
    ensures reads { ReadsInLimit ask (log_seen R.Source log.old log.new) }
{
    let input = read_input(alloc, ask, log)?;
    Ok(input.script)
}

/// The whole input, with that script.
pub fn read_input<R: Source>(alloc: Global, ask: Ask, log: &mut R) -> Result<Input, Ending>
    requires can_be_done { CanBeDone ask }
    requires of_log { IsOfLog ask }
    ensures says { IfOk result (λ r. Says ask (log_seen R.Source log.old log.new) r.script) }
    ensures bytes { IfOk result (λ r. IfSome (R.left log.old) (λ bytes. bytes ≡ r.bytes.items)) }
    ensures cause { IfErr result (NotRead ask (log_seen R.Source log.old log.new)) }
    ensures reads { ReadsInLimit ask (log_seen R.Source log.old log.new) }
{
    let bytes = match read_all(alloc, most_of(ask), log) {
        Ok(bytes) => bytes,
        Err(ReadStop::Failed) => return Err(Ending::ReadFault),
        Err(ReadStop::TooLong) => return Err(Ending::TooLong),
        Err(ReadStop::NoMemory) => return Err(Ending::NoMemory),
    };
    match parse(alloc, log_of(ask, bytes.as_slice())) {
        Ok(script) => Ok(Input { bytes, script }),
        Err(ParseFault::Bad { line, cause }) => Err(Ending::Bad { line, cause }),
        Err(ParseFault::NoMemory) => Err(Ending::NoMemory),
    }
}

fn most_of(ask: Ask) -> u32
    requires { CanBeDone ask }
    ensures { result ≡ most_of ask }
{
    match ask {
        Ask::Check(length) => length + MAX_LOG,
        Ask::Run | Ask::Serial | Ask::Make(_) | Ask::Drive(_) => MAX_LOG,
    }
}

fn log_of(ask: Ask, input: &[u8]) -> &[u8]
    ensures { result.now ≡ log_of ask input.now }
{
    match ask {
        Ask::Check(length) => &input[..input.len().min(length as usize)],
        Ask::Run | Ask::Serial | Ask::Make(_) | Ask::Drive(_) => input,
    }
}

/// The input after the first `length` bytes.
pub fn behind(input: &[u8], length: u32) -> &[u8]
    ensures { result.now ≡ drop length input.now }
{
    &input[input.len().min(length as usize)..]
}
