//! Who shares the map.
ghost use Rattle.std.specs.Prelude.{◌≤◌};

use crate::stop::Stop;
use crate::{grown, robot};
use std::time::Duration;

/// The works on a map that threads share.
#[derive(Clone, Copy)]
pub enum Sharing {
    /// A writer that makes no pause, and from 1 to 7 readers. The updates rebuild uneven subtrees.
    Readers,
    /// The same, but the writer sleeps before each scan.
    Paced,
    /// A writer that adds a scan each turn, a reader, and 1 or 2 workers, which rebuild large subtrees.
    Steady,
    /// The writer and the reader. The updates rebuild uneven subtrees, as soon as they are.
    Inline,
    /// The same, but nobody rebuilds large subtrees.
    Unhelped,
}

/// Who shares the map, and what the writer adds beside the others.
#[derive(Clone, Copy)]
pub struct Company {
    pub readers: u8,
    pub workers: u8,
    /// Subtrees from so many nodes on aren't rebuilt in the updates.
    pub large: u32,
    /// So many scans are added.
    pub scans: u32,
    /// How long the writer sleeps before each of them.
    pub pause: Duration,
    /// How long a scanner leaves for each. One that takes longer than its turn is followed at once.
    pub turn: Duration,
    ghost few: { readers ≤ 7 },
}

impl Company {
    /// Who they are, where so many are asked for.
    pub fn of(sharing: Sharing, asked: u32) -> Result<Company, Stop> {
        let few = asked.min(8) as u8;
        match sharing {
            Sharing::Readers if 1 <= few && few <= 7 => Ok(Company::reading(few, 0)),
            Sharing::Paced if 1 <= few && few <= 7 => Ok(Company::reading(few, 50)),
            Sharing::Steady if 1 <= few && few <= 2 => Ok(Company::steady(few, robot::LARGE)),
            Sharing::Inline => Ok(Company::steady(0, grown::LARGE)),
            Sharing::Unhelped => Ok(Company::steady(0, robot::LARGE)),
            _ => Err(Stop::Words),
        }
    }

    /// The same, but the writer never sleeps.
    pub fn at_once(self) -> Company {
        let mut company = self;
        company.pause = Duration::ZERO;
        company.turn = Duration::ZERO;
        company
    }

    fn reading(readers: u8, pause: u64) -> Company
        requires { readers ≤ 7 }
    {
        Company {
            readers,
            workers: 0,
            large: grown::LARGE,
            scans: 100,
            pause: Duration::from_millis(pause),
            turn: Duration::ZERO,
        }
    }

    fn steady(workers: u8, large: u32) -> Company {
        Company {
            readers: 1,
            workers,
            large,
            scans: 300,
            pause: Duration::ZERO,
            turn: Duration::from_millis(10),
        }
    }
}
