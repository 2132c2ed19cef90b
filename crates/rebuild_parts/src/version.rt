ghost use Rattle.std.specs.Prelude.{◌≡◌, IfOk};
ghost use Rattle.map_items.specs.Contents.{totals};
ghost use Rattle.kd_tree.specs.{Shape.{leaf}, Contents.{contents}};

use kd_tree::{Scratch, Steps, Tree};
use map_items::{Counts, NoMemory};
use std::alloc::Global;
use std::marker::Model;
use std::mem;
use std::sync::Arc;
use std::sync::ledger::Ledger;

/// A version of a map, which stays as it is while the map goes on.
#[derive(Drop)]
pub struct Version {
    tree: Tree,
    next: u32,
    len: u64,
}

impl Model for Version {
    ghost use Rattle.rebuild_parts.specs.Seen.{VersionAt};

    ghost Value = { VersionAt };

    ghost use Rattle.std.specs.Coded.{codes};
    ghost use Rattle.kd_tree.specs.ShapeCode.{coded_shape};

    ghost coded = { Prim.hlevel (codes, coded_shape) };

    ghost view = { λ v. record { tree = v.tree; next = v.next; len = v.len } };
}

impl Version {
    /// A version with this tree, whose nodes it shares.
    pub fn shared<L: Ledger>(
        alloc: Global,
        tree: &Tree,
        next: u32,
        len: u64,
        steps: &mut Steps<L>,
    ) -> Result<Arc<Version>, NoMemory>
        ensures shown { IfOk result (λ v. v.value ≡ record { tree = tree.now; next = next; len = len }) }
        ensures no_nodes_made { steps.new ≡ steps.old }
    {
        let tree = tree.copy(alloc, steps)?;
        let version = Arc::new(alloc, Version { tree, next, len })?;
        Ok(version)
    }

    /// The version of a map that holds nothing.
    pub fn empty(alloc: Global) -> Result<Arc<Version>, NoMemory>
        ensures { IfOk result (λ v. v.value ≡ record { tree = leaf; next = 0; len = 0 }) }
    {
        let version = Version {
            tree: Tree::empty(),
            next: 0,
            len: 0,
        };
        let version = Arc::new(alloc, version)?;
        Ok(version)
    }

    /// Drops a version. Where nobody else holds it, the scratch takes the memory of its nodes.
    pub fn reclaim(version: Arc<Version>, scratch: &mut Scratch) {
        let mut version = version;
        if let Some(version) = Arc::get_mut(&mut version) {
            let tree = mem::replace(&mut version.tree, Tree::empty());
            scratch.reclaim(tree);
        }
    }

    /// What the map holds.
    pub fn tree(&self) -> &Tree
        ensures { result.now ≡ self.now.tree }
    {
        &self.tree
    }

    /// How many points were submitted.
    pub fn next(&self) -> u32
        ensures { result ≡ self.now.next }
    {
        self.next
    }

    /// How many entries the history had.
    pub fn len(&self) -> u64
        ensures { result ≡ self.now.len }
    {
        self.len
    }

    /// How many points are live and how many suspended.
    pub fn counts(&self) -> Counts
        ensures { result ≡ totals (contents self.now.tree) }
    {
        let counts = self.tree.counts();
        Counts {
            live: counts.live,
            suspended: counts.suspended,
            dropped: 0,
        }
    }
}
