//! Commands.
ghost use Rattle.std.specs.Prelude.{◌≡◌};
ghost use Rattle.scan_log.specs.Scripts.{room_of};

use local_region::RegionRules;
use map_items::{NoMemory, Points, Update};
use point_geom::{Cuboid, Point};
use std::alloc::Global;

/// A command of a log.
pub enum Command {
    /// A change of the map.
    Change {
        /// From 1 to 8.
        caller: u8,
        update: Update,
    },
    /// A search for the nearest points.
    Near {
        /// From 1 to 8.
        caller: u8,
        /// At most how many points are looked for, from 1 to 256.
        k: u32,
        /// Of intensity 0.
        point: Point,
        /// The greatest distance, in millimetres, up to 4,000,000,000 in version 1 and 4,398,046,511,104 in version 2.
        within: Option<u64>,
    },
    /// Searches for the nearest points of several places, all at one version. In logs of version 2 alone.
    Nears {
        /// From 1 to 8.
        caller: u8,
        /// At most how many points are looked for round each place, from 1 to 256.
        k: u32,
        /// The places, each of intensity 0.
        points: Points,
    },
    /// A search for the points of a box.
    Inside {
        /// From 1 to 8.
        caller: u8,
        /// At most how many points are listed, from 1 to 256.
        k: u32,
        cuboid: Cuboid,
    },
    /// A search for the points of a ball. In logs of version 2 alone.
    Ball {
        /// From 1 to 8.
        caller: u8,
        /// At most how many points are listed, from 1 to 256.
        k: u32,
        /// The greatest distance, in millimetres, up to 4,398,046,511,104.
        r: u64,
        /// Of intensity 0.
        point: Point,
    },
    /// A search for the points that have no other near them. In logs of version 2 alone.
    Lonely {
        /// From 1 to 8.
        caller: u8,
        /// At most how many points are listed, from 1 to 256.
        k: u32,
        /// Up to which distance a point is near, in millimetres, at most 4,398,046,511,104.
        r: u64,
    },
    /// A search for the clusters. In logs of version 2 alone.
    Clusters {
        /// From 1 to 8.
        caller: u8,
        /// At most how many clusters are listed, from 1 to 256.
        k: u32,
        /// Up to which distance two points are joined, in millimetres, at most 4,398,046,511,104.
        r: u64,
    },
    /// A place that a robot has come to. What leaves its region of the map by this move is deleted. In logs of version 2 alone.
    Pose {
        /// From 1 to 8.
        caller: u8,
        /// How its region moves. Under other rules than before, a new region begins.
        rules: RegionRules,
        /// Of intensity 0.
        point: Point,
    },
    /// A barrier: commands after it run after those before it.
    Sync,
}

// Manual `Drop`: a derived one is proved at every exit of every owner.
impl Drop for Command {
    fn drop(self) {
        match self {
            Command::Change {
                caller: _caller,
                update: _update,
            } => {}
            Command::Near {
                caller: _caller,
                k: _k,
                point: _point,
                within: _within,
            } => {}
            Command::Nears {
                caller: _caller,
                k: _k,
                points: _points,
            } => {}
            Command::Inside {
                caller: _caller,
                k: _k,
                cuboid: _cuboid,
            } => {}
            Command::Ball {
                caller: _caller,
                k: _k,
                r: _r,
                point: _point,
            } => {}
            Command::Lonely {
                caller: _caller,
                k: _k,
                r: _r,
            }
            | Command::Clusters {
                caller: _caller,
                k: _k,
                r: _r,
            } => {}
            Command::Pose {
                caller: _caller,
                rules: _rules,
                point: _point,
            } => {}
            Command::Sync => {}
        }
    }
}

impl Command {
    ghost use Rattle.std.specs.Prelude.{◌≡◌, IfOk};
    ghost use Rattle.scan_log.specs.{declared.format.Format.TheVariants.{Two}, Scripts.{IsCommand, asked, submitted}, Commands.{command_caller}};

    /// The caller's number. A barrier has none.
    pub fn caller(&self) -> Option<u8>
        ensures { result ≡ command_caller self.now }
    {
        match self {
            Command::Change { caller, .. }
            | Command::Near { caller, .. }
            | Command::Nears { caller, .. }
            | Command::Inside { caller, .. }
            | Command::Ball { caller, .. }
            | Command::Lonely { caller, .. }
            | Command::Clusters { caller, .. }
            | Command::Pose { caller, .. } => Some(*caller),
            Command::Sync => None,
        }
    }

    /// How many points it submits.
    pub fn points(&self) -> usize
        ensures { result ≡ submitted self.now }
    {
        match self {
            Command::Change { update, .. } => update.points(),
            _ => 0,
        }
    }

    /// How many hits its reply has room for.
    pub fn hits(&self) -> usize
        requires { IsCommand Two self.now }
        ensures { result ≡ asked self.now }
    {
        match self {
            Command::Near { k, .. } => room_of(*k),
            Command::Nears { k, points, .. } => points.len() * room_of(*k),
            Command::Change { .. }
            | Command::Inside { .. }
            | Command::Ball { .. }
            | Command::Lonely { .. }
            | Command::Clusters { .. }
            | Command::Pose { .. }
            | Command::Sync => 0,
        }
    }

    /// An equal command, with memory of its own.
    pub fn copy(&self, alloc: Global) -> Result<Command, NoMemory>
        ensures { IfOk result (λ copy. copy ≡ self.now) }
    {
        Ok(match *self {
            Command::Change { caller, ref update } => {
                let update = update.copy(alloc)?;
                Command::Change { caller, update }
            }
            Command::Nears {
                caller,
                k,
                ref points,
            } => {
                let points = points.copy(alloc)?;
                Command::Nears { caller, k, points }
            }
            Command::Near {
                caller,
                k,
                point,
                within,
            } => Command::Near {
                caller,
                k,
                point,
                within,
            },
            Command::Inside { caller, k, cuboid } => Command::Inside { caller, k, cuboid },
            Command::Ball {
                caller,
                k,
                r,
                point,
            } => Command::Ball {
                caller,
                k,
                r,
                point,
            },
            Command::Lonely { caller, k, r } => Command::Lonely { caller, k, r },
            Command::Clusters { caller, k, r } => Command::Clusters { caller, k, r },
            Command::Pose {
                caller,
                rules,
                point,
            } => Command::Pose {
                caller,
                rules,
                point,
            },
            Command::Sync => Command::Sync,
        })
    }
}

// A list of hits has room for 16 in itself.
fn room_of(k: u32) -> usize
    ensures { result ≡ room_of k }
{
    k.max(16) as usize
}
