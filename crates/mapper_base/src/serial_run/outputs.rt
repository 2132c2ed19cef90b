//! One text for each way to ask that takes no threads.
ghost use Rattle.std.specs.Prelude.{◌≡◌, Some, IfOk, IfErr};
ghost use Rattle.scan_log.specs.Written.{script_text};
ghost use Rattle.mapper_base.specs.{Asks.{CanBeDone}, Causes.{HasNoText, IsTextOf, ReadsInLimit}, Generated.{generated}};
ghost use Rattle.mapper_base.specs.{Prints.{AreSerialLines, IsVerdictLine}, Seen.{log_seen}, Summary.{summary_of}};

use crate::{
    Ask, Ending, Input, behind, in_order, made, read_input, read_script, summary, transcript,
    verdict_line,
};
use byte_streams::Source;
use map_items::NoMemory;
use scan_log::{PlainScript, Script, write_script};
use std::alloc::Global;
use transcript_check::check;

/// The transcript of the log, in its order.
pub fn in_order_text<R: Source>(alloc: Global, log: &mut R) -> Result<Vec<u8>, Ending>
    ensures text { IfOk result (λ v. IsTextOf Ask.Serial (log_seen R.Source log.old log.new) v.items) }
    ensures cause { IfErr result (HasNoText Ask.Serial (log_seen R.Source log.old log.new)) }
    ensures reads { ReadsInLimit Ask.Serial (log_seen R.Source log.old log.new) }
{
    let script = read_script(alloc, Ask::Serial, log)?;
    Ok(serial_transcript(alloc, script)?)
}

/// The log of a generated script.
pub fn made_text(alloc: Global, scans: u32) -> Result<Vec<u8>, NoMemory>
    requires { CanBeDone (Ask.Make scans) }
    ensures { IfOk result (λ v. v.items ≡ script_text (generated scans)) }
{
    let script = made(alloc, scans)?;
    write_script(alloc, &script)
}

/// The line of sums of a generated script's replies.
pub fn driven_text(alloc: Global, scans: u32) -> Result<Vec<u8>, NoMemory>
    requires { CanBeDone (Ask.Drive scans) }
    ensures { IfOk result (λ v. v.items ≡ summary_of scans (generated scans)) }
{
    let script = made(alloc, scans)?;
    summary_text(alloc, scans, script)
}

/// The line of the verdict on what is in the input after a log of `length` bytes.
pub fn checked_text<R: Source>(alloc: Global, length: u32, log: &mut R) -> Result<Vec<u8>, Ending>
    requires { CanBeDone (Ask.Check length) }
    ensures text { IfOk result (λ v. IsTextOf (Ask.Check length) (log_seen R.Source log.old log.new) v.items) }
    ensures cause { IfErr result (HasNoText (Ask.Check length) (log_seen R.Source log.old log.new)) }
    ensures reads { ReadsInLimit (Ask.Check length) (log_seen R.Source log.old log.new) }
{
    let input = read_input(alloc, Ask::Check(length), log)?;
    Ok(verdict_text(alloc, &input, length)?)
}

fn serial_transcript(alloc: Global, script: Script) -> Result<Vec<u8>, NoMemory>
    ensures { IfOk result (λ v. AreSerialLines script v.items) }
{
    let plain = PlainScript::of(alloc, script)?;
    let replies = in_order(alloc, &plain)?;
    transcript(alloc, &plain, &replies)
}

fn summary_text(alloc: Global, scans: u32, script: Script) -> Result<Vec<u8>, NoMemory>
    ensures { IfOk result (λ v. v.items ≡ summary_of scans script) }
{
    let plain = PlainScript::of(alloc, script)?;
    let replies = in_order(alloc, &plain)?;
    summary(alloc, scans, &plain, replies.as_slice())
}

fn verdict_text(alloc: Global, input: &Input, length: u32) -> Result<Vec<u8>, NoMemory>
    ensures { IfOk result (λ v. IsVerdictLine input.now.script length (Some input.now.bytes.items) v.items) }
{
    let verdict = check(alloc, &input.script, behind(input.bytes.as_slice(), length))?;
    verdict_line(alloc, verdict)
}
