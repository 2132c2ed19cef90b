ghost use Rattle.std.specs.Prelude.{◌≡◌, IfErr, IfOk};

use crate::{DetachedItems, Job};
use map_items::NoMemory;
use std::alloc::Global;
use std::marker::Model;

/// A detached subtree, not listed yet. It shares its nodes with the map's tree.
#[derive(Drop)]
pub struct Snapshot {
    ticket: u64,
    detached_items: DetachedItems,
}

impl Model for Snapshot {
    ghost use Rattle.rebuild_parts.specs.Built.{JobAt};

    ghost Value = { JobAt };

    ghost view = { λ s. record { ticket = s.ticket; items = s.detached_items } };
}

/// A snapshot as it was, on `NoMemory`.
#[derive(Drop)]
pub struct SnapshotLeft {
    pub snapshot: Snapshot,
}

impl Snapshot {
    /// The subtree of the ticket, which held this.
    pub fn new(ticket: u64, detached_items: DetachedItems) -> Snapshot
        ensures { result ≡ record { ticket = ticket; items = detached_items } }
    {
        Snapshot {
            ticket,
            detached_items,
        }
    }

    /// The ticket of the subtree.
    pub fn ticket(&self) -> u64
        ensures { result ≡ self.now.ticket }
    {
        self.ticket
    }

    /// What the subtree held: a pointer is copied.
    pub fn detached_items(&self) -> Result<DetachedItems, NoMemory>
        ensures { IfOk result (λ h. h ≡ self.now.items) }
    {
        self.detached_items.try_clone()
    }

    /// The job of rebuilding it. n items take time in the order of n log n. On `NoMemory` the snapshot is handed back.
    pub fn job(self, alloc: Global) -> Result<Job, SnapshotLeft>
        ensures job { IfOk result (λ j. j ≡ self) }
        ensures handed_back { IfErr result (λ l. l.snapshot ≡ self) }
    {
        match self.detached_items.list(alloc) {
            Err(_) => Err(SnapshotLeft { snapshot: self }),
            Ok(items) => Ok(Job {
                ticket: self.ticket,
                items,
            }),
        }
    }
}
