//! The rule of the published version.
use crate::name::MapName;
use crate::published::Published;
use crossbeam_utils::rule::{Outcome, Protocol};
use map_items::Entry;
use std::collections::LinkedList;

/// The published history begins with each list that a place knows.
pub struct Follows;

impl<L: MapName> Protocol<Published<L>, LinkedList<Entry>> for Follows {
    ghost use Rattle.std.specs.Prelude.{[]};
    ghost use Rattle.shown_versions.specs.Rules.{Keeps};

    ghost holds = { Keeps };

    ghost first = { [] };
}

pub struct Publishes;

impl<L: MapName> Outcome<Published<L>, LinkedList<Entry>> for Publishes {
    ghost use Rattle.shown_versions.specs.Rules.{PublishStep};

    ghost then = { PublishStep };
}

pub struct Enters;

impl<L: MapName> Outcome<Published<L>, LinkedList<Entry>> for Enters {
    ghost use Rattle.shown_versions.specs.Rules.{EnterStep};

    ghost then = { EnterStep };
}
