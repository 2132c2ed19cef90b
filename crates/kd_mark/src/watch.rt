//! Subtrees that are watched while they are rebuilt elsewhere and updates go on.
ghost use Rattle.std.specs.Prelude.{◌≡◌, ◌+◌, ◌<◌, ◌≤◌, [], ◌∷◌, ◌++◌, length, OnOk};
ghost use Rattle.map_items.specs.Ops.{Extends};

use kd_tree::Path;
use map_items::{NoMemory, Op};
use op_logger::{MAX_LOGGED, OpLog};

/// The path of a watched subtree, and the operations on its own items since the log was empty.
#[derive(Drop)]
pub struct Watch {
    pub path: Path,
    pub log: OpLog,
}

/// Puts the operation at the end.
pub fn note(log: &mut OpLog, op: Op) -> Result<(), NoMemory>
    requires { length log.old < MAX_LOGGED }
    ensures logged { OnOk result (log.new ≡ log.old ++ op ∷ []) }
    ensures begins { Extends log.old log.new }
    ensures few { length log.new ≤ length log.old + 1 }
{
    match log.push(op) {
        Ok(()) => Ok(()),
        Err(_) => Err(NoMemory),
    }
}
