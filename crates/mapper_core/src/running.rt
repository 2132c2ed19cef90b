//! The top call.
ghost use Rattle.std.specs.Prelude.{◌≡◌, ℕ, IfOk, IfErr};
ghost use Rattle.scan_log.specs.Legal.{AreLegalLines};
ghost use Rattle.byte_streams.specs.Outside.{NoFault};
ghost use Rattle.mapper_base.specs.Asks.{AskForLog, AskForRun, AskForScans, AskNothing, Asks, CanBeDone, IsOfLog, texts};
ghost use Rattle.mapper_base.specs.Causes.{Ended, Ends, HasNoText, IsTextOf, ReadsInLimit};
ghost use Rattle.mapper_base.specs.{Done.{IsChecked, IsDriven, IsScriptMade, IsTranscribed, IsTranscribedInOrder}, Endings.{IsOrNoMemory}};
ghost use Rattle.mapper_base.specs.{Inputs.{IfBad, IfOverLimit, IfSpelled}, Seen.{log_seen, out_seen, run_seen}};

use crate::callers::threaded_plain;
use byte_streams::{Sink, SinkFault, Source, write_all};
use map_items::NoMemory;
use mapper_base::{
    Ask, Ending, Status, asked, checked_text, driven_text, in_order_text, made_text, read_script,
    tell, transcript,
};
use rebuild_worker::Gate;
use scan_log::{PlainScript, Script};
use std::alloc::{AllocError, Global};
use std::sync::Wait;
use std::thread::Threads;

/// Reads a log to its end, runs it, and writes its transcript to out, or to notes a line of why not; or does so for a generated
/// script, without a log. Nothing is written to out before the whole text is there, and a fault of notes doesn't change the status.
/// Takes memory of a small multiple of the log's length and of the hits that it asks for. The words `run` give each caller a thread
/// of its own, and the gate, called at each build and reply, may hold them up. For `check n` the first `n` bytes, or all if they
/// are fewer, are the log, and those after them its transcript: the line of the verdict is written. That costs the log's updates on
/// a tree, and each query there.
pub fn run<H: Threads + Wait + Sync, R: Source, W: Sink, E: Sink, G: Gate + Sync>(
    rt: &H,
    alloc: Global,
    words: &[String],
    log: &mut R,
    out: &mut W,
    notes: &mut E,
    gate: &G,
) -> Status
    // After `Done` the log was read to its end, and a legal transcript was written: for a serial run that of the log's order.
    ensures done { result ≡ Status.Done → AskForRun (texts words.now) → IsTranscribed (log_seen R.Source log.old log.new) (out_seen W.Sink out.old out.new) }
    ensures serial { result ≡ Status.Done → Asks Ask.Serial (texts words.now) → IsTranscribedInOrder (log_seen R.Source log.old log.new) (out_seen W.Sink out.old out.new) }

    ensures checked { (n : ℕ) → result ≡ Status.Done → Asks (Ask.Check n) (texts words.now) → IsChecked n (log_seen R.Source log.old log.new) (out_seen W.Sink out.old out.new) }
    ensures made { (n : ℕ) → result ≡ Status.Done → Asks (Ask.Make n) (texts words.now) → IsScriptMade n (out_seen W.Sink out.old out.new) }
    ensures driven { (n : ℕ) → result ≡ Status.Done → Asks (Ask.Drive n) (texts words.now) → IsDriven n (out_seen W.Sink out.old out.new) }

    // Notes get the status's line or a prefix of it. Except on `NoMemory`, only the words decide on `Usage`.
    ensures cause { Ends (run_seen (texts words.now) (log_seen R.Source log.old log.new) (out_seen W.Sink out.old out.new)) (E.held notes.old) (E.held notes.new) result }
    ensures usage { result ≡ Status.Usage → AskNothing (texts words.now) }
    ensures wrong_words { AskNothing (texts words.now) → IsOrNoMemory result Status.Usage }

    // Where no stream fails, each run ends so or with `NoMemory`: a spelled log is done, whatever comes after it, and so is what is
    // generated. A log whose first fault is no limit is bad; one whose first fault is a limit is over it, as is an input that is
    // too long.
    ensures complete { IfSpelled (texts words.now) (R.left log.old) (NoFault (R.faults log.old) (R.faults log.new)
        → NoFault (W.faults out.old) (W.faults out.new) → IsOrNoMemory result Status.Done) }
    ensures complete_scans { AskForScans (texts words.now) → NoFault (W.faults out.old) (W.faults out.new) → IsOrNoMemory result Status.Done }
    ensures bad_log { IfBad (texts words.now) (R.left log.old) (NoFault (R.faults log.old) (R.faults log.new) → IsOrNoMemory result Status.BadLog) }
    ensures over_limit { IfOverLimit (texts words.now) (R.left log.old) (NoFault (R.faults log.old) (R.faults log.new) → IsOrNoMemory result Status.OverLimit) }

    // The input is read at most one byte past its limit, and not at all where no log is asked for.
    ensures reads { (a : Ask) → Asks a (texts words.now) → ReadsInLimit a (log_seen R.Source log.old log.new) }
    ensures unread { (AskForLog (texts words.now) → ⊥) → log.new ≡ log.old }
{
    let ending = run_quietly(rt, alloc, words, log, out, gate);
    tell(alloc, notes, ending);
    ending.status()
}

fn run_quietly<H: Threads + Wait + Sync, R: Source, W: Sink, G: Gate + Sync>(
    rt: &H,
    alloc: Global,
    words: &[String],
    log: &mut R,
    out: &mut W,
    gate: &G,
) -> Ending
    ensures cause { Ended (run_seen (texts words.now) (log_seen R.Source log.old log.new) (out_seen W.Sink out.old out.new)) result }
    ensures reads { (a : Ask) → Asks a (texts words.now) → ReadsInLimit a (log_seen R.Source log.old log.new) }
    ensures unread { (AskForLog (texts words.now) → ⊥) → log.new ≡ log.old }
{
    let ask = match asked(alloc, words) {
        Ok(Some(ask)) => ask,
        Ok(None) => return Ending::Usage,
        Err(AllocError) => return Ending::NoMemory,
    };
    let text = match text_of(rt, alloc, ask, log, gate) {
        Ok(text) => text,
        Err(ending) => return ending,
    };
    match write_all(out, text.as_slice()) {
        Ok(()) => Ending::Done,
        Err(SinkFault::Failed) => Ending::WriteFault,
        Err(SinkFault::NoMemory) => Ending::NoMemory,
    }
}

fn text_of<H: Threads + Wait + Sync, R: Source, G: Gate + Sync>(
    rt: &H,
    alloc: Global,
    ask: Ask,
    log: &mut R,
    gate: &G,
) -> Result<Vec<u8>, Ending>
    requires { CanBeDone ask }
    ensures text { IfOk result (λ v. IsTextOf ask (log_seen R.Source log.old log.new) v.items) }
    ensures cause { IfErr result (HasNoText ask (log_seen R.Source log.old log.new)) }
    ensures reads { ReadsInLimit ask (log_seen R.Source log.old log.new) }
    ensures unread { (IsOfLog ask → ⊥) → log.new ≡ log.old }
{
    match ask {
        Ask::Run => run_text(rt, alloc, log, gate),
        Ask::Serial => in_order_text(alloc, log),
        Ask::Make(scans) => Ok(made_text(alloc, scans)?),
        Ask::Drive(scans) => Ok(driven_text(alloc, scans)?),
        Ask::Check(length) => checked_text(alloc, length, log),
    }
}

fn run_text<H: Threads + Wait + Sync, R: Source, G: Gate + Sync>(
    rt: &H,
    alloc: Global,
    log: &mut R,
    gate: &G,
) -> Result<Vec<u8>, Ending>
    ensures text { IfOk result (λ v. IsTextOf Ask.Run (log_seen R.Source log.old log.new) v.items) }
    ensures cause { IfErr result (HasNoText Ask.Run (log_seen R.Source log.old log.new)) }
    ensures reads { ReadsInLimit Ask.Run (log_seen R.Source log.old log.new) }
{
    let script = read_script(alloc, Ask::Run, log)?;
    Ok(callers_text(rt, alloc, script, gate)?)
}

// The script isn't copied, so that its points aren't there twice.
fn callers_text<H: Threads + Wait + Sync, G: Gate + Sync>(
    rt: &H,
    alloc: Global,
    script: Script,
    gate: &G,
) -> Result<Vec<u8>, NoMemory>
    ensures { IfOk result (λ v. AreLegalLines script v.items) }
{
    let plain = PlainScript::of(alloc, script)?;
    let replies = threaded_plain(rt, alloc, &plain, gate)?;
    transcript(alloc, &plain, &replies)
}
