use crate::{Late, LogAsk, StateFault, SwapFault};
use std::fmt::{Display, Error, Formatter, Write};

impl Display for StateFault {
    fn fmt<W: Write>(&self, f: &mut Formatter<W>) -> Result<(), Error> {
        match self {
            StateFault::TooManyUpdates { len } => {
                write!(f, "the history is full: it has {len} updates")
            }
            StateFault::TooManyPoints { next, asked } => {
                write!(
                    f,
                    "{next} points were submitted, and there is no room for {asked} more"
                )
            }
            StateFault::NoMemory => f.write_str("no memory"),
        }
    }
}

impl Display for LogAsk {
    fn fmt<W: Write>(&self, f: &mut Formatter<W>) -> Result<(), Error> {
        match self {
            LogAsk::Stale { ticket } => stale(f, *ticket),
            LogAsk::NoMemory => f.write_str("no memory"),
        }
    }
}

impl Display for SwapFault {
    fn fmt<W: Write>(&self, f: &mut Formatter<W>) -> Result<(), Error> {
        match self {
            SwapFault::Stale { ticket } => stale(f, *ticket),
            SwapFault::Behind { left } => behind(f, *left as usize),
            SwapFault::NoMemory => f.write_str("no memory"),
        }
    }
}

impl Display for Late {
    fn fmt<W: Write>(&self, f: &mut Formatter<W>) -> Result<(), Error> {
        match self {
            Late::Stale { built } => stale(f, built.ticket()),
            Late::Behind { ops, .. } => behind(f, ops.len()),
            Late::NoMemory => f.write_str("no memory"),
        }
    }
}

fn stale<W: Write>(f: &mut Formatter<W>, ticket: u64) -> Result<(), Error> {
    write!(
        f,
        "no detached subtree has ticket {ticket} and what the value was built of"
    )
}

fn behind<W: Write>(f: &mut Formatter<W>, left: usize) -> Result<(), Error> {
    write!(f, "the value is {left} operations behind")
}
