//! Why a log is not read.
ghost use Rattle.std.specs.Prelude.{◌≡◌};
ghost use Rattle.scan_log.specs.declared.fault.ParseFault.TheVariants as parse_fault;

use map_items::NoMemory;
use std::fmt::{Display, Error, Formatter, Write};

/// What is wrong with a line of a log.
#[derive(Clone, Copy, Debug, PartialEq, Eq)]
pub enum LogCause {
    /// The first kept line is no header.
    NoHeader,
    /// The line's first word is no command of the log's version, or there is none.
    UnknownCommand,
    /// The caller isn't one of 1 to 8.
    BadCaller,
    /// A field isn't a number in the log's spelling.
    BadNumber,
    /// A number is beyond its limits.
    OutOfRange,
    /// There are more or fewer fields than the command may have.
    WrongCount,
    /// A box's upper number is below its lower one on an axis.
    InvertedBox,
    /// The log has more points than a map takes.
    TooManyPoints,
    /// The log has more commands than are run.
    TooManyCommands,
    /// The replies would have room for more hits than are kept.
    TooManyHits,
}

impl LogCause {
    ghost use Rattle.std.specs.Prelude.{◌≡◌};
    ghost use Rattle.scan_log.specs.Faults.{cause_text, is_limit};

    /// Its text in notes.
    pub fn text(self) -> &'static [u8]
        ensures { result.now ≡ cause_text self }
    {
        match self {
            LogCause::NoHeader => b"no header",
            LogCause::UnknownCommand => b"unknown command",
            LogCause::BadCaller => b"bad caller",
            LogCause::BadNumber => b"bad number",
            LogCause::OutOfRange => b"out of range",
            LogCause::WrongCount => b"wrong count",
            LogCause::InvertedBox => b"inverted box",
            LogCause::TooManyPoints => b"too many points",
            LogCause::TooManyCommands => b"too many commands",
            LogCause::TooManyHits => b"too many hits",
        }
    }

    /// Whether the log is refused for its length alone.
    pub fn is_limit(self) -> bool
        ensures { result ≡ is_limit self }
    {
        matches!(
            self,
            LogCause::TooManyPoints | LogCause::TooManyCommands | LogCause::TooManyHits
        )
    }
}

/// Why bytes were not read as a script.
#[derive(Clone, Copy, Debug, PartialEq, Eq)]
pub enum ParseFault {
    Bad {
        /// The first faulty line, counted from 1.
        line: u32,
        /// The first fault in it.
        cause: LogCause,
    },
    NoMemory,
}

impl From<NoMemory> for ParseFault {
    ghost from_gives = { λ _ e. e ≡ parse_fault.NoMemory };

    fn from(_error: NoMemory) -> ParseFault {
        ParseFault::NoMemory
    }
}

impl Display for LogCause {
    fn fmt<W: Write>(&self, f: &mut Formatter<W>) -> Result<(), Error> {
        for byte in self.text() {
            f.write_char(char::from(*byte))?;
        }
        Ok(())
    }
}

impl Display for ParseFault {
    fn fmt<W: Write>(&self, f: &mut Formatter<W>) -> Result<(), Error> {
        match self {
            ParseFault::Bad { line, cause } => write!(f, "line {line}: {cause}"),
            ParseFault::NoMemory => f.write_str("no memory"),
        }
    }
}
