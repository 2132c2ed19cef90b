//! Counts of labels.
ghost use Rattle.std.specs.Prelude.{◌≡◌, ◌+◌, ◌≤◌, List, map};
ghost use Rattle.node_labels.specs.{Labels.{apply}, Tallies.{added, applied, counted, label_counts, total}, declared.label.Label.{Label}};

use crate::{Label, Tag};

/// The most that counts may have together: as many as a map may be given points.
pub const MAX_COUNTED: u32 = 4_194_304;

/// How many have each label.
#[derive(Clone, Copy, Debug, Default, PartialEq, Eq)]
pub struct Counts {
    pub live: u32,
    pub suspended: u32,
    pub dropped: u32,
}

impl Counts {
    /// After the action on all that was counted.
    pub fn apply(self, tag: Tag) -> Counts
        requires { total self ≤ MAX_COUNTED }
        ensures value { result ≡ applied tag self }
        ensures counts { (labels : List Label) → self ≡ label_counts labels → result ≡ label_counts (map (apply tag) labels) }
        ensures same { total result ≡ total self }
    {
        let mut counts = Counts {
            live: 0,
            suspended: 0,
            dropped: self.dropped,
        };
        counts.gain(tag.live, self.live);
        counts.gain(tag.suspended, self.suspended);
        counts
    }

    pub fn add(self, other: Counts) -> Counts
        requires { total self + total other ≤ MAX_COUNTED }
        ensures { result ≡ added self other }
    {
        Counts {
            live: self.live + other.live,
            suspended: self.suspended + other.suspended,
            dropped: self.dropped + other.dropped,
        }
    }

    fn gain(&mut self, label: Label, n: u32)
        requires { total self.old + n ≤ MAX_COUNTED }
        ensures { self.new ≡ added self.old (counted label n) }
    {
        match label {
            Label::Live => self.live += n,
            Label::Suspended => self.suspended += n,
            Label::Dropped => self.dropped += n,
        }
    }
}
