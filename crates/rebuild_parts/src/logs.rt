//! What a step makes of the logs of detached subtrees.
ghost use Rattle.std.specs.Prelude.{◌≡◌, ◌↔◌, true, false, List, [], ◌∷◌, IfSome, IsNone, IfOk, OnOk};
ghost use Rattle.kd_mark.specs.declared.watch.Watch.{Watch};
ghost use Rattle.rebuild_parts.specs.Logs.{AddsLogs, planned_parts, relogged};
ghost use Rattle.kd_update.specs.Detached.{AreLeft, AreOwn, PartAt, without, watches_of};

use crate::part::{Part, index_of};
use kd_mark::Watch;
use kd_tree::Path;
use kd_update::Watches;
use map_items::NoMemory;
use op_logger::OpLog;
use std::alloc::Global;
use std::marker::Model;

/// What becomes of the part of a ticket.
#[derive(Drop)]
pub struct PartLog {
    pub ticket: u64,
    /// The new log, or none where the part is forgotten.
    pub log: Option<OpLog>,
}

impl Model for PartLog {
    ghost use Rattle.rebuild_parts.specs.Logs.{LogPlan};

    ghost Value = { LogPlan };

    ghost view = { λ l. record { ticket = l.ticket; log = l.log } };
}

/// What becomes of each part where these watches remain, in their order: a part without a watch is forgotten.
pub fn logs_of(alloc: Global, parts: &[Part], watches: Watches) -> Result<Vec<PartLog>, NoMemory>
    requires { AreOwn parts.now }
    ensures { (qs : List PartAt) → AreLeft parts.now qs → watches ≡ watches_of qs
        → IfOk result (λ v. planned_parts v.items parts.now ≡ qs) }
{
    let mut watches = watches.into_vec();
    let mut logs = Vec::new(alloc);
    add_logs(parts, &mut watches, &mut logs)?;
    Ok(logs)
}

fn add_logs(
    parts: &[Part],
    watches: &mut Vec<Watch>,
    logs: &mut Vec<PartLog>,
) -> Result<(), NoMemory>
    requires { AreOwn parts.now }
    ensures { (qs : List PartAt) → AreLeft parts.now qs → watches.old.items ≡ watches_of qs
        → OnOk result (AddsLogs logs.old.items parts.now qs logs.new.items) }
{
    let Some((part, rest)) = parts.split_first() else {
        return Ok(());
    };
    let log = taken(watches, &part.path);
    logs.push(PartLog {
        ticket: part.ticket,
        log,
    })?;
    add_logs(rest, watches, logs)
}

fn taken(watches: &mut Vec<Watch>, path: &Path) -> Option<OpLog>
    ensures none { IsNone result → watches.new.items ≡ watches.old.items }
    ensures other { (w : Watch) (ws : List Watch) → IsNone result → watches.old.items ≡ w ∷ ws → w.path ≡ path.now → ⊥ }
    ensures some { IfSome result (λ log. watches.old.items ≡ record { path = path.now; log = log } ∷ watches.new.items) }
{
    let (first, _rest) = watches.split_first()?;
    if !is_same(&first.path, path) {
        return None;
    }
    let Watch { log, .. } = watches.remove(0);
    Some(log)
}

fn is_same(path: &Path, other: &Path) -> bool
    ensures { result ≡ true ↔ (path.now ≡ other.now) }
{
    path.as_slice() == other.as_slice()
}

pub fn forgotten(alloc: Global, parts: &[Part]) -> Result<Vec<PartLog>, NoMemory>
    ensures { IfOk result (λ v. planned_parts v.items parts.now ≡ []) }
{
    let mut logs = Vec::new(alloc);
    for part in parts {
        logs.push(PartLog {
            ticket: part.ticket,
            log: None,
        })?;
    }
    Ok(logs)
}

/// The part of the ticket is forgotten, or all are.
pub fn forgotten_for(
    alloc: Global,
    parts: &[Part],
    ticket: u64,
    all: bool,
) -> Result<Vec<PartLog>, NoMemory>
    ensures all { all ≡ true → IfOk result (λ v. planned_parts v.items parts.now ≡ []) }
    ensures one { all ≡ false → IfOk result (λ v. planned_parts v.items parts.now ≡ without ticket parts.now) }
{
    if all {
        return forgotten(alloc, parts);
    }
    let mut logs = Vec::new(alloc);
    logs.push(PartLog { ticket, log: None })?;
    Ok(logs)
}

/// Does the plans in turn.
pub fn relog_all(parts: &mut Vec<Part>, logs: Vec<PartLog>)
    ensures { parts.new.items ≡ planned_parts logs.items parts.old.items }
{
    for log in logs {
        relog(parts, log);
    }
}

fn relog(parts: &mut Vec<Part>, log: PartLog)
    ensures { parts.new.items ≡ relogged log parts.old.items }
{
    let PartLog { ticket, log } = log;
    let Some(place) = index_of(parts.as_slice(), ticket) else {
        return;
    };
    match log {
        None => {
            let _part = parts.remove(place);
        }
        Some(log) => {
            let part = &mut parts[place];
            part.log = log;
        }
    }
}
