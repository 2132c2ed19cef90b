//! Detached subtrees, handed out to be rebuilt. Nothing here knows the state that they come from.
ghost use Rattle.std.specs.Prelude.{◌≡◌, IfErr, IfOk};
ghost use Rattle.kd_tree.specs.{Contents.{contents}, Criteria.{AllMeetCriteria}, Counter.{IsBlankOf}};
ghost use Rattle.rebuild_parts.specs.Built.{AreNumbersOf, IsBuiltOf};

use crate::{Built, DetachedItems};
use kd_tree::{Steps, Tree};
use map_items::{Item, Items, MAX_POINTS, NoMemory};
use std::alloc::Global;
use std::marker::{Brand, Model};
use std::sync::Arc;
use std::sync::ledger::{Blank, Ledger};

/// The items of a detached subtree, which its state holds as well.
pub struct Job {
    pub(crate) ticket: u64,
    pub(crate) items: Arc<Items>,
}

// Manual `Drop`: a derived one is proved at every exit of every owner.
impl Drop for Job {
    fn drop(self) {
        let Job {
            ticket: _ticket,
            items: _items,
        } = self;
    }
}

impl Model for Job {
    ghost use Rattle.map_items.specs.Contents.{AreContents};
    ghost use Rattle.rebuild_parts.specs.Built.{JobAt};

    ghost Value = { JobAt };

    ghost view = { λ j. record { ticket = j.ticket; items = j.items.value } };

    ghost use Rattle.map_items.specs.declared.limits.TheConstants.{MAX_POINTS};

    ghost invariant = { λ j. AreContents 0 MAX_POINTS j.items.value };
}

/// A job as it was, on `NoMemory`.
#[derive(Drop)]
pub struct JobLeft {
    pub job: Job,
}

impl Job {
    /// The ticket of the subtree.
    pub fn ticket(&self) -> u64
        ensures { result ≡ self.now.ticket }
    {
        self.ticket
    }

    /// What the subtree held, by itself, when it was detached.
    pub fn items(&self) -> &[Item]
        ensures { result.now ≡ self.now.items }
    {
        self.items.as_slice()
    }

    /// The items once more: a pointer is copied.
    pub fn detached_items(&self) -> Result<DetachedItems, NoMemory>
        ensures { IfOk result (λ h. h ≡ self.now.items) }
    {
        let items = Arc::try_clone(&self.items)?;
        Ok(DetachedItems::listed(items))
    }

    pub(crate) fn try_clone(&self) -> Result<Job, NoMemory>
        ensures { IfOk result (λ j. j ≡ self.now) }
    {
        let items = Arc::try_clone(&self.items)?;
        Ok(Job {
            ticket: self.ticket,
            items,
        })
    }

    /// A tree of the items, built by medians: n of them take time in the order of n log n. On `NoMemory` the job is
    /// handed back. `large` is best the state's.
    pub fn build(self, alloc: Global, large: u32) -> Result<Built, JobLeft>
        ensures built { IfOk result (IsBuiltOf self) }
        ensures large { IfOk result (λ b. b.large ≡ large) }
        ensures handed_back { IfErr result (λ l. l.job ≡ self) }
    {
        match self.tree_by::<Brand>(alloc, Blank::new(1)) {
            Err(_) => Err(JobLeft { job: self }),
            Ok(tree) => Ok(Built::new(alloc, self, large, tree)),
        }
    }

    fn tree_by<L: Ledger>(&self, alloc: Global, blank: Blank) -> Result<Tree, NoMemory>
        requires blank { IsBlankOf L.name L.parts blank }
        ensures contents { IfOk result (λ t. contents t ≡ self.now.items) }
        ensures criteria { IfOk result (λ t. AllMeetCriteria 10 t) }
        ensures numbers { IfOk result (λ t. AreNumbersOf self.now.items t) }
    {
        let mut steps: Steps<L> = Steps::new(blank);
        Tree::build(alloc, self.items.as_slice(), &mut steps)
    }
}
