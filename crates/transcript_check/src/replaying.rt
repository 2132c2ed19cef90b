//! Replaying a history, and comparing each line with its reply.
ghost use Rattle.std.specs.{Prelude.{◌≡◌, ◌+◌, ◌≤◌, length, IfOk, MatchOption}, Bool.{Decides}, Option.{ForSome, option_copied}};
ghost use Rattle.map_items.specs.Fold.{fold_from};
ghost use Rattle.scan_log.specs.{Legal.{IsLegal}, Plain.{IsPlain}, Transcript.{reply_text, marked_updates}};
ghost use Rattle.transcript_check.specs.MarkedLines.{changes_of, line_texts, lines_under, marks_of, points_in_all, reply_at, updates_of};
ghost use Rattle.transcript_check.specs.Verdicts.{IsFirstOther};

use crate::held_map::HeldMap;
use crate::lines::{MarkedLine, command_at};
use crate::order::{Marked, places_by_mark};
use map_items::{MAX_POINTS, NoMemory, Settings};
use scan_log::{Command, Format, PlainScript, reply_line};
use std::alloc::Global;

/// The index of the first line that isn't its reply's.
pub fn first_other<M: HeldMap>(
    alloc: Global,
    script: &PlainScript,
    marked_lines: &[MarkedLine],
    updates: &[Marked],
) -> Result<Option<usize>, NoMemory>
    requires legal { IsLegal script.now.commands (marks_of marked_lines.now) }
    requires many { length marked_lines.now ≡ length script.now.commands + 1 }
    requires updates { updates_of updates.now ≡ marked_updates script.now.commands (marks_of marked_lines.now) }
    ensures { IfOk result (λ r. MatchOption r (line_texts marked_lines.now ≡ lines_under script.now (marks_of marked_lines.now))
        (λ place. IsFirstOther (lines_under script.now (marks_of marked_lines.now)) (line_texts marked_lines.now) (place + 1))) }
{
    let commands = script.commands();
    let settings = script.settings();
    let format = script.format();
    let places = places_by_mark(alloc, marked_lines)?;
    let mut map = M::empty(alloc);
    let mut level = 0;
    let mut first = marked_lines.len();
    for at in places.as_slice() {
        let mark = at.mark as usize;
        map = advanced(alloc, map, settings, &updates[level..mark])?;
        level = mark;
        if at.place < first {
            let command = command_at(commands, at.place);
            if !is_right_line(alloc, &map, format, command, &marked_lines[at.place])? {
                first = at.place;
            }
        }
    }
    if first < marked_lines.len() {
        Ok(Some(first))
    } else {
        Ok(None)
    }
}

fn advanced<M: HeldMap>(
    alloc: Global,
    map: M,
    settings: &Settings,
    updates: &[Marked],
) -> Result<M, NoMemory>
    requires { (M.holds map).next + points_in_all (changes_of updates.now) ≤ MAX_POINTS }
    ensures { IfOk result (λ m. M.holds m ≡ fold_from settings.now.voxel (changes_of updates.now) (M.holds map)) }
{
    let mut map = map;
    for marked in updates {
        map = map.apply(alloc, settings, marked.update)?;
    }
    Ok(map)
}

// Whether the line is that of its reply on this map.
fn is_right_line<M: HeldMap>(
    alloc: Global,
    map: &M,
    format: Format,
    command: Option<&Command>,
    marked_line: &MarkedLine,
) -> Result<bool, NoMemory>
    requires plain { ForSome (option_copied command) IsPlain }
    requires points { (M.holds map.now).next ≤ MAX_POINTS }
    ensures { IfOk result (λ same. Decides same (marked_line.now.line.now ≡ reply_text format (option_copied command.entry) (reply_at (M.holds map.now).items (option_copied command.entry) marked_line.now.mark))) }
{
    let reply = map.reply(alloc, command, marked_line.mark as u64)?;
    let mut line = Vec::new(alloc);
    reply_line(&mut line, format, command, &reply)?;
    Ok(marked_line.line == line.as_slice())
}
