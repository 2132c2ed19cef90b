//! Actions on labels.
ghost use Rattle.std.specs.Prelude.{◌≡◌};
ghost use Rattle.node_labels.specs.{Labels.{apply, composed}, declared.label.Label.{Label}};

use crate::Label;

/// An action on labels: what a live and a suspended one become. A dropped one stays dropped.
#[derive(Clone, Copy, Debug, PartialEq, Eq)]
pub struct Tag {
    pub live: Label,
    pub suspended: Label,
}

impl Tag {
    pub const KEEP: Tag = Tag {
        live: Label::Live,
        suspended: Label::Suspended,
    };

    pub const DELETE: Tag = Tag {
        live: Label::Dropped,
        suspended: Label::Dropped,
    };

    pub const SUSPEND: Tag = Tag {
        live: Label::Suspended,
        suspended: Label::Suspended,
    };

    pub const RESTORE: Tag = Tag {
        live: Label::Live,
        suspended: Label::Live,
    };

    /// Thinning drops what is live, and leaves what is suspended.
    pub const THIN: Tag = Tag {
        live: Label::Dropped,
        suspended: Label::Suspended,
    };

    /// The label after this action.
    pub fn apply(self, label: Label) -> Label
        ensures { result ≡ apply self label }
    {
        match label {
            Label::Live => self.live,
            Label::Suspended => self.suspended,
            Label::Dropped => Label::Dropped,
        }
    }

    /// This action, then the second.
    pub fn then(self, second: Tag) -> Tag
        ensures value { result ≡ composed self second }
        ensures composes { (label : Label) → apply result label ≡ apply second (apply self label) }
    {
        Tag {
            live: second.apply(self.live),
            suspended: second.apply(self.suspended),
        }
    }
}
