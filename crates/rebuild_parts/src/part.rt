ghost use Rattle.std.specs.{Prelude.{◌≡◌, ◌≤◌, length, IfOk, IfSome, IsNone}, Option.{option_map}};
ghost use Rattle.kd_update.specs.Detached.{IsNewTicket, IsPlaceOf, part_in, part_of, paths, without, watches_of};

use crate::DetachedItems;
use kd_mark::Watch;
use kd_tree::Path;
use kd_update::Watches;
use map_items::NoMemory;
use op_logger::OpLog;
use std::alloc::Global;
use std::marker::Model;

/// What can be seen of a detached subtree.
#[derive(Clone, Copy, Debug, PartialEq, Eq)]
pub struct PartInfo {
    pub ticket: u64,
    /// How many operations were logged since it was detached.
    pub logged: u32,
}

/// A detached subtree. It shares what it held with its snapshot or job.
#[derive(Drop)]
pub struct Part {
    /// From 1 to 4. No two parts of a state have the same.
    pub slot: u8,
    /// Where it is in the tree.
    pub path: Path,
    pub ticket: u64,
    /// What it held when it was detached.
    pub held: DetachedItems,
    /// What was done to it since.
    pub log: OpLog,
}

impl Model for Part {
    ghost use Rattle.kd_update.specs.Detached.{PartAt};

    ghost Value = { PartAt };

    ghost view = { λ p. record { slot = p.slot; path = p.path; ticket = p.ticket; items = p.held; log = p.log } };
}

/// The parts as they are watched, each with a copy of its log.
pub fn watched(alloc: Global, parts: &[Part]) -> Result<Watches, NoMemory>
    requires { length parts.now ≤ 4 }
    ensures { IfOk result (λ w. w ≡ watches_of parts.now) }
{
    let mut watches = Watches::new(alloc);
    for part in parts {
        let log = part.log.copy(alloc)?;
        watches.push(Watch {
            path: part.path,
            log,
        })?;
    }
    Ok(watches)
}

pub fn part_in(parts: &[Part], slot: u8) -> Option<&Part>
    ensures { option_map (λ p. p.now) result ≡ part_in slot parts.now }
{
    parts.iter().find(|part| slot == part.slot)
}

pub fn part_of(parts: &[Part], ticket: u64) -> Option<&Part>
    ensures { option_map (λ p. p.now) result ≡ part_of ticket parts.now }
{
    parts.iter().find(|part| ticket == part.ticket)
}

/// The paths of the parts, except for that of the ticket.
pub fn others_of(alloc: Global, parts: &[Part], ticket: u64) -> Result<Vec<Path>, NoMemory>
    ensures { IfOk result (λ v. v.items ≡ paths (without ticket parts.now)) }
{
    let mut paths = paths_of(alloc, parts)?;
    let Some(place) = index_of(parts, ticket) else {
        return Ok(paths);
    };
    let _path = paths.remove(place);
    Ok(paths)
}

pub fn paths_of(alloc: Global, parts: &[Part]) -> Result<Vec<Path>, NoMemory>
    ensures { IfOk result (λ v. v.items ≡ paths parts.now) }
{
    let mut paths = Vec::new(alloc);
    for part in parts {
        paths.push(part.path)?;
    }
    Ok(paths)
}

/// The index of the part of the ticket.
pub fn index_of(parts: &[Part], ticket: u64) -> Option<usize>
    ensures none { IsNone result → IsNewTicket ticket parts.now }
    ensures some { IfSome result (λ i. IsPlaceOf ticket i parts.now) }
{
    let (first, rest) = parts.split_first()?;
    if first.ticket == ticket {
        return Some(0);
    }
    let place = index_of(rest, ticket)?;
    Some(place + 1)
}
