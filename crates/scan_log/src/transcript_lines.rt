//! The lines of a transcript.
ghost use Rattle.std.specs.{Prelude.{◌≡◌, ◌∷◌, ◌++◌, [], codes, decimal, OnOk, OnErr}, List.{flat_map}, Option.{option_copied}};
ghost use Rattle.scan_log.specs.{Spelling.{caller_field}, Transcript.{clusters_text, done_text, items_text, reply_text, spaced, totals_text}};

use crate::append::{Listed, put, put_all, put_head, put_named, put_spaced};
use crate::{Command, Format, Reply};
use map_fold::{BoxReply, ClusterReply, Group, Hit, Hits, NearReply, NearsReply};
use map_items::{Item, NoMemory};

/// Appends the line of a reply, as logs of this version have it. `command` is `None` for the end of the log. A reply that isn't of
/// the command's kind has no line. On `NoMemory` nothing is appended. The line takes memory of its own while it is made.
pub fn reply_line(
    out: &mut Vec<u8>,
    format: Format,
    command: Option<&Command>,
    reply: &Reply,
) -> Result<(), NoMemory>
    ensures ok { OnOk result (out.new.items ≡ out.old.items ++ reply_text format (option_copied command.entry) reply.now) }
    ensures err { OnErr result (out.new.items ≡ out.old.items) }
{
    let mut line = Vec::new(*out.allocator());
    put_reply(&mut line, format, command, reply)?;
    put(out, line.as_slice())
}

// On `NoMemory` these may leave a part of the line, which is dropped.

fn put_reply(
    out: &mut Vec<u8>,
    format: Format,
    command: Option<&Command>,
    reply: &Reply,
) -> Result<(), NoMemory>
    ensures { OnOk result (out.new.items ≡ out.old.items ++ reply_text format (option_copied command.entry) reply.now) }
{
    match (command, reply) {
        (
            Some(Command::Change { caller, .. } | Command::Pose { caller, .. }),
            Reply::Done { mark },
        ) => put_done(out, *caller, *mark),
        (Some(Command::Near { caller, .. }), Reply::Near(NearReply { mark, hits })) => {
            put_nearest(out, format, *caller, b"near", *mark, hits.as_slice())
        }
        (Some(Command::Nears { caller, .. }), Reply::Nears(NearsReply { mark, lists })) => {
            put_nearest(out, format, *caller, b"nears", *mark, lists.as_slice())
        }
        (Some(Command::Inside { caller, .. }), Reply::Inside(inside)) => {
            put_found(out, format, *caller, b"box", inside)
        }
        (Some(Command::Ball { caller, .. }), Reply::Ball(ball)) => {
            put_found(out, format, *caller, b"ball", ball)
        }
        (Some(Command::Lonely { caller, .. }), Reply::Lonely(lonely)) => {
            put_found(out, format, *caller, b"lonely", lonely)
        }
        (Some(Command::Clusters { caller, .. }), Reply::Clusters(clusters)) => {
            put_clusters(out, format, *caller, clusters)
        }
        (
            Some(Command::Sync),
            Reply::Totals {
                mark,
                live,
                suspended,
            },
        ) => put_totals(out, b"sync", *mark, *live, *suspended),
        (
            None,
            Reply::Totals {
                mark,
                live,
                suspended,
            },
        ) => put_totals(out, b"end", *mark, *live, *suspended),
        _ => Ok(()),
    }
}

fn put_done(out: &mut Vec<u8>, caller: u8, mark: u64) -> Result<(), NoMemory>
    ensures { OnOk result (out.new.items ≡ out.old.items ++ done_text caller mark) }
{
    put_head(out, caller, b"ok", mark)?;
    put(out, b"\n")
}

// The nearest points of a place, or the lists of those of each place.
fn put_nearest<T: Listed>(
    out: &mut Vec<u8>,
    format: Format,
    caller: u8,
    word: &[u8],
    mark: u64,
    found: &[T],
) -> Result<(), NoMemory>
    ensures { OnOk result (out.new.items ≡ out.old.items ++ (caller_field caller ++ spaced word.now ++ spaced (decimal mark) ++ flat_map (T.text format) found.now ++ 10 ∷ [])) }
{
    put_head(out, caller, word, mark)?;
    put_all(out, format, found)?;
    put(out, b"\n")
}

// What a search that counts items found.
fn put_found(
    out: &mut Vec<u8>,
    format: Format,
    caller: u8,
    word: &[u8],
    found: &BoxReply,
) -> Result<(), NoMemory>
    ensures { OnOk result (out.new.items ≡ out.old.items ++ items_text format caller word.now found.now) }
{
    put_head(out, caller, word, found.mark)?;
    put_spaced(out, found.count)?;
    put_all(out, format, found.items.as_slice())?;
    put(out, b"\n")
}

fn put_clusters(
    out: &mut Vec<u8>,
    format: Format,
    caller: u8,
    clusters: &ClusterReply,
) -> Result<(), NoMemory>
    ensures { OnOk result (out.new.items ≡ out.old.items ++ clusters_text caller clusters.now) }
{
    put_head(out, caller, b"clusters", clusters.mark)?;
    put_spaced(out, clusters.count)?;
    put_all(out, format, clusters.groups.as_slice())?;
    put(out, b"\n")
}

fn put_totals(
    out: &mut Vec<u8>,
    word: &[u8],
    mark: u64,
    live: u32,
    suspended: u32,
) -> Result<(), NoMemory>
    ensures { OnOk result (out.new.items ≡ out.old.items ++ totals_text word.now mark live suspended) }
{
    put(out, word)?;
    put_spaced(out, mark)?;
    put_named(out, b"live", live)?;
    put_named(out, b"suspended", suspended)?;
    put(out, b"\n")
}

impl Listed for Hits {
    ghost use Rattle.scan_log.specs.Transcript.{list_text};

    ghost text = { list_text };

    fn put(&self, out: &mut Vec<u8>, format: Format) -> Result<(), NoMemory> {
        put(out, b" /")?;
        put_all(out, format, self.as_slice())
    }
}

impl Listed for Hit {
    ghost use Rattle.scan_log.specs.Transcript.{hit_text};

    ghost text = { hit_text };

    fn put(&self, out: &mut Vec<u8>, format: Format) -> Result<(), NoMemory> {
        put_named(out, b"|", self.number)?;
        self.point.put(out, format)?;
        put_spaced(out, self.dist2)
    }
}

impl Listed for Item {
    ghost use Rattle.scan_log.specs.Transcript.{item_text};

    ghost text = { item_text };

    fn put(&self, out: &mut Vec<u8>, format: Format) -> Result<(), NoMemory> {
        put_named(out, b"|", self.number)?;
        self.point.put(out, format)
    }
}

impl Listed for Group {
    ghost use Rattle.scan_log.specs.Transcript.{group_text};

    ghost text = { λ _. group_text };

    fn put(&self, out: &mut Vec<u8>, _format: Format) -> Result<(), NoMemory> {
        put_named(out, b"|", self.least)?;
        put_spaced(out, self.size)
    }
}
