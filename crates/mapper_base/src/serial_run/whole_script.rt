//! A script, run in the log's order.
ghost use Rattle.std.specs.Prelude.{◌≡◌, IfOk};
ghost use Rattle.rebuild_core.specs.Lawful.{new_state};
ghost use Rattle.scan_log.specs.{Poses.{plain_script}, Transcript.{replies, serial_marks, lines_text}};

use crate::serial_run::one_command::{answer, totals};
use map_items::{NoMemory, Sequence};
use rebuild_core::MapState;
use scan_log::{PlainScript, Reply, Script, reply_line};
use std::alloc::Global;

pub type Replies = Sequence<Reply>;

/// The replies to the commands in their order, and to the end. The map keeps its updates, so each is copied, and the script too.
pub fn serial(alloc: Global, script: &Script) -> Result<Replies, NoMemory>
    ensures { IfOk result (λ rs. rs ≡ replies (plain_script script.now) (serial_marks (plain_script script.now))) }
{
    let plain = PlainScript::copied(alloc, script)?;
    in_order(alloc, &plain)
}

/// As `serial`, of a script without poses: only the updates are copied.
pub fn in_order(alloc: Global, script: &PlainScript) -> Result<Replies, NoMemory>
    ensures { IfOk result (λ rs. rs ≡ replies script.now (serial_marks script.now)) }
{
    let mut state = MapState::new(alloc, *script.settings())?;
    in_order_on(alloc, &mut state, script)
}

// On an empty map.
fn in_order_on(
    alloc: Global,
    state: &mut MapState,
    script: &PlainScript,
) -> Result<Replies, NoMemory>
    requires { state.old.state ≡ new_state script.now.sizes }
    ensures { IfOk result (λ rs. rs ≡ replies script.now (serial_marks script.now)) }
{
    let mut replies = Replies::new(alloc);
    for command in script.commands() {
        let reply = answer(alloc, state, command)?;
        replies.push(reply)?;
    }
    replies.push(totals(state))?;
    Ok(replies)
}

pub fn transcript(
    alloc: Global,
    script: &PlainScript,
    replies: &Replies,
) -> Result<Vec<u8>, NoMemory>
    ensures { IfOk result (λ v. v.items ≡ lines_text script.now.format script.now.commands replies.now) }
{
    let mut out = Vec::new(alloc);
    let format = script.format();
    let mut left = replies.as_slice();
    for command in script.commands() {
        match left {
            [reply, rest @ ..] => {
                reply_line(&mut out, format, Some(command), reply)?;
                left = rest;
            }
            [] => return Ok(out),
        }
    }
    if let [reply, ..] = left {
        reply_line(&mut out, format, None, reply)?;
    }
    Ok(out)
}
