//! Reading a log.
ghost use Rattle.std.specs.Prelude.{◌≡◌, ◌≤◌, None, IfOk, IfErr, OnOk};
ghost use Rattle.scan_log.specs.{Faults.{first_fault, line_feeds}, Outcomes.{LogGives}, Reading.{body_of, log_of}, Refusal.{IsParseFault, IsSpelledOrFaulty}};
ghost use Rattle.scan_log.specs.{Scripts.{ScriptAt}, Spelling.{Spells}};

use crate::commands::line_command;
use crate::header::settings;
use crate::lines::Lines;
use crate::piece::count_of;
use crate::{Format, LogCause, ParseFault, Script};
use map_items::{MAX_POINTS, Settings};
use std::alloc::Global;

// Of all replies together, which are kept in memory.
const MAX_HITS: usize = 16_777_216;

/// The script of the log, or the first fault of the first faulty line. Costs time by the log's length, and memory by the points and
/// commands read.
pub fn parse(alloc: Global, log: &[u8]) -> Result<Script, ParseFault>
    requires lines { line_feeds log.now ≤ 4294967294 }

    // What is read is spelled so, and nothing else is.
    ensures found { IfOk result (Spells log.now) }
    ensures only { IfOk result (λ s. (t : ScriptAt) → Spells log.now t → t ≡ s) }
    ensures sound { OnOk result (first_fault log.now ≡ None) }

    // The fault is the first one, and nothing is spelled then.
    ensures fault { IfErr result (IsParseFault log.now) }

    // So it is with all bytes, also on `NoMemory`.
    ensures either { IsSpelledOrFaulty log.now }
{
    read(alloc, log)
}

#[tactic(auto, unfolding(crate::specs::Reading::log_of))]
fn read(alloc: Global, log: &[u8]) -> Result<Script, ParseFault>
    requires { line_feeds log.now ≤ 4294967294 }
    ensures { LogGives result (log_of log.now) }
{
    let mut lines = Lines::new(log);
    let Some((number, header)) = lines.next() else {
        return Err(ParseFault::Bad {
            line: count_of(b'\n', log) as u32 + 1,
            cause: LogCause::NoHeader,
        });
    };
    match settings(header) {
        Ok((format, settings)) => body(alloc, format, settings, lines),
        Err(cause) => Err(ParseFault::Bad {
            line: number,
            cause,
        }),
    }
}

fn body(
    alloc: Global,
    format: Format,
    settings: Settings,
    lines: Lines,
) -> Result<Script, ParseFault>
    ensures { LogGives result (body_of format settings lines.entry) }
{
    let mut lines = lines;
    let mut script = Script::new(alloc, format, settings);
    let mut room = MAX_POINTS as usize;
    let mut hits = MAX_HITS;
    while let Some((number, line)) = lines.next() {
        let before = script.commands().len();
        let command = match line_command(alloc, script.format(), before, room, hits, line) {
            Ok(command) => command,
            Err(fault) => return Err(fault.on_line(number)),
        };
        room -= command.points();
        hits -= command.hits();
        script.push(command)?;
    }
    Ok(script)
}
