//! What a history is replayed on.
ghost use Rattle.std.specs.{Prelude.{◌≡◌, ◌+◌, ◌≤◌, IfOk}, Option.{ForSome, option_copied}};
ghost use Rattle.map_items.specs.Fold.{no_points, points_in, step};
ghost use Rattle.scan_log.specs.Plain.{IsPlain};
ghost use Rattle.transcript_check.specs.MarkedLines.{reply_at};

use map_items::{MAX_POINTS, NoMemory, Settings, Update};
use scan_log::{Command, Reply};
use std::alloc::Global;

/// A reply, or memory ran out.
pub type Replied = Result<Reply, NoMemory>;

/// A map that replays updates and replies to commands. How it stores its items, and so what that costs, is its own.
pub trait HeldMap: Drop {
    ghost use Rattle.map_items.specs.Fold.{MapAt};

    /// What it holds, and how many points were submitted.
    ghost holds: { Self → MapAt };

    fn empty(alloc: Global) -> Self
        ensures { holds result ≡ no_points };

    /// On `NoMemory` the map is lost.
    fn apply(self, alloc: Global, settings: &Settings, update: &Update) -> Result<Self, NoMemory>
        requires { (holds self).next + points_in update.now ≤ MAX_POINTS }
        ensures { IfOk result (λ m. holds m ≡ step settings.now.voxel update.now (holds self)) };

    /// The reply with this mark, to the end where there is no command.
    fn reply(&self, alloc: Global, command: Option<&Command>, mark: u64) -> Replied
        requires plain { ForSome (option_copied command) IsPlain }
        requires points { (holds self.now).next ≤ MAX_POINTS }
        ensures { IfOk result (λ r. r ≡ reply_at (holds self.now).items (option_copied command.entry) mark) };
}
