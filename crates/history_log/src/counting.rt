//! Counting the lines of a history.
ghost use Rattle.std.specs.Prelude.{◌≡◌, length, min};
ghost use Rattle.history_log.specs.Lines.{lines_of};

use crate::parts::line_count;
use map_items::Entry;
use scan_log::MAX_COMMANDS;

/// At most one more than a log has commands.
pub(crate) fn lines_in(history: &[Entry]) -> usize
    ensures { result ≡ min 65537 (length (lines_of history.now)) }
{
    let mut lines = 0;
    for entry in history {
        lines = (lines + line_count(&entry.update)).min(MAX_COMMANDS + 1);
    }
    lines
}
