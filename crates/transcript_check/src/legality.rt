//! Whether marks are legal.
ghost use Rattle.std.specs.{Prelude.{◌≡◌, ◌+◌, ◌≤◌, length, map}, Bool.{Decides}, List.{AllByRecursion}};
ghost use Rattle.scan_log.specs.{Commands.{is_for}, Legal.{AreInOrder, IsLegal, numbers_from}, Plain.{IsPlain}, Transcript.{marked_updates}};
ghost use Rattle.transcript_check.specs.MarkedLines.{AreCallersInOrder, is_late, marks_of, updates_of};

use crate::lines::MarkedLine;
use crate::order::Marked;
use scan_log::Command;

/// Whether the marks are legal for these commands; `updates` are in the order of their marks.
pub fn are_legal(commands: &[Command], marked_lines: &[MarkedLine], updates: &[Marked]) -> bool
    requires plain { AllByRecursion IsPlain commands.now }
    requires many { length marked_lines.now ≡ length commands.now + 1 }
    requires updates { updates_of updates.now ≡ marked_updates commands.now (marks_of marked_lines.now) }
    ensures { Decides result (IsLegal commands.now (marks_of marked_lines.now)) }
{
    let last = updates.len();
    if !are_counted(updates) {
        return false;
    }
    if !are_in_order(commands, marked_lines) {
        return false;
    }
    if !none_above(marked_lines, last) {
        return false;
    }
    marked_lines[commands.len()].mark as usize == last
}

fn none_above(marked_lines: &[MarkedLine], last: usize) -> bool
    ensures { Decides result (AllByRecursion (λ m. m ≤ last) (marks_of marked_lines.now)) }
{
    for line in marked_lines {
        if line.mark as usize > last {
            return false;
        }
    }
    true
}

// Whether the marks are 1, 2 and so on.
fn are_counted(updates: &[Marked]) -> bool
    ensures { Decides result (map (λ u. u.mark) updates.now ≡ numbers_from 1 (length updates.now)) }
{
    for (place, update) in updates.iter().enumerate() {
        if update.mark as usize != place + 1 {
            return false;
        }
    }
    true
}

fn are_in_order(commands: &[Command], marked_lines: &[MarkedLine]) -> bool
    requires plain { AllByRecursion IsPlain commands.now }
    requires many { length marked_lines.now ≡ length commands.now + 1 }
    ensures { Decides result (AreInOrder commands.now (marks_of marked_lines.now)) }
{
    for caller in 1..9 {
        if !is_in_order(caller, commands, marked_lines) {
            return false;
        }
    }
    true
}

// Whether the marks of this caller's commands and of the barriers are in order.
fn is_in_order(caller: u8, commands: &[Command], marked_lines: &[MarkedLine]) -> bool
    requires { length marked_lines.now ≡ length commands.now + 1 }
    ensures { Decides result (AreCallersInOrder caller commands.now (marks_of marked_lines.now)) }
{
    let mut floor = None;
    for place in 0..commands.len() {
        let command = &commands[place];
        let mark = marked_lines[place].mark;
        if is_for(caller, command) {
            if !is_late(floor, command, mark) {
                return false;
            }
            floor = Some(mark);
        }
    }
    true
}

fn is_for(x: u8, command: &Command) -> bool
    ensures { result ≡ is_for x command.now }
{
    match command.caller() {
        Some(own) => own == x,
        None => true,
    }
}

// Whether the mark may follow the last one, if there is one.
fn is_late(floor: Option<u32>, command: &Command, mark: u32) -> bool
    ensures { result ≡ is_late floor command.now mark }
{
    match (floor, command) {
        (None, _) => true,
        (Some(low), Command::Change { .. }) => low < mark,
        (Some(low), _) => low <= mark,
    }
}
