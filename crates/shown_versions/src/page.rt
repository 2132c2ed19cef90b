//! What a mark is of, as only clauses read it.
ghost use Rattle.std.specs.Prelude.{◌≡◌, ◌++◌, []};
ghost use Rattle.rebuild_parts.specs.History.{listed};

use map_items::Entry;
use rebuild_parts::Snapshot;
use std::marker::Model;
use std::snapshot;

/// A page of the book of marks, of next to no bytes. It stays in the turn that makes it.
#[derive(Drop)]
pub struct Page {
    history: Option<snapshot::Snapshot<Vec<Entry>>>,
    more: snapshot::Snapshot<Option<Entry>>,
    subtree: Option<snapshot::Snapshot<Snapshot>>,
}

impl Model for Page {
    ghost use Rattle.std.specs.Prelude.{◌++◌};
    ghost use Rattle.rebuild_parts.specs.History.{listed};
    ghost use Rattle.shown_versions.specs.Book.{PageAt, told};

    ghost Value = { PageAt };

    ghost view = { λ s. record { history = told (λ x. x.value.items ++ listed s.more.value) s.history; items = told (λ x. x.value.items) s.subtree } };
}

impl Page {
    /// After a step that adds this entry, if there is one.
    pub fn of(history: snapshot::Snapshot<Vec<Entry>>, more: &Option<Entry>) -> Page
        ensures { result ≡ record { history = history.value.items ++ listed more.now; items = [] } }
    {
        Page {
            history: Some(history),
            more: snapshot::Snapshot::of(more),
            subtree: None,
        }
    }

    pub fn of_subtree(subtree: &Snapshot) -> Page
        ensures { result ≡ record { history = []; items = subtree.now.items } }
    {
        Page {
            history: None,
            more: snapshot::Snapshot::of(&None),
            subtree: Some(snapshot::Snapshot::of(subtree)),
        }
    }
}
