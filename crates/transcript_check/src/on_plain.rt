//! The plain map, replayed on and asked. Tests run it next to the tree.
ghost use Rattle.std.specs.Prelude.{◌≡◌, ◌≤◌, IfOk, Some, None};
ghost use Rattle.map_fold.specs.Answers.{nears};
ghost use Rattle.kd_search.specs.Query.{IsQuery};
ghost use Rattle.scan_log.specs.Plain.{IsPlain};
ghost use Rattle.transcript_check.specs.MarkedLines.{reply_at};

use crate::held_map::{HeldMap, Replied};
use crate::neighbours::{ball_reply, tree_of};
use crate::on_tree::tree_reply;
use map_fold::{BoxReply, HitLists, NearReply, NearsReply, PlainMap};
use map_items::{MAX_POINTS, NoMemory, Settings, Update};
use point_geom::Point;
use scan_log::{Command, Reply};
use std::alloc::Global;

impl HeldMap for PlainMap {
    ghost holds = { λ m. m };

    fn empty(alloc: Global) -> PlainMap {
        PlainMap::new(alloc)
    }

    fn apply(
        self,
        _alloc: Global,
        settings: &Settings,
        update: &Update,
    ) -> Result<PlainMap, NoMemory> {
        PlainMap::apply(self, settings, update)
    }

    fn reply(&self, alloc: Global, command: Option<&Command>, mark: u64) -> Replied {
        match command {
            Some(command) => answer_to(alloc, self, command, mark),
            None => Ok(totals(self, mark)),
        }
    }
}

fn answer_to(alloc: Global, map: &PlainMap, command: &Command, mark: u64) -> Result<Reply, NoMemory>
    requires plain { IsPlain command.now }
    requires points { map.now.next ≤ MAX_POINTS }
    ensures { IfOk result (λ r. r ≡ reply_at map.now.items (Some command.now) mark) }
{
    Ok(match command {
        Command::Change { .. } | Command::Pose { .. } => Reply::Done { mark },
        Command::Near {
            k,
            point,
            within,
            ..
        } => {
            let hits = map.nearest(alloc, *k, point, *within)?;
            Reply::Near(NearReply { mark, hits })
        }
        Command::Nears { k, points, .. } => {
            let lists = nearest_in_turn(alloc, map, *k, points.as_slice())?;
            Reply::Nears(NearsReply { mark, lists })
        }
        Command::Inside { k, cuboid, .. } => {
            let count = map.count_in(cuboid);
            let items = map.in_cuboid(alloc, cuboid, *k)?;
            Reply::Inside(BoxReply { mark, count, items })
        }
        Command::Ball { k, r, point, .. } => {
            Reply::Ball(ball_reply(alloc, map, mark, *k, *r, point)?)
        }
        Command::Lonely { .. } | Command::Clusters { .. } => {
            tree_reply(alloc, &tree_of(alloc, map)?, mark, command)?
        }
        Command::Sync => totals(map, mark),
    })
}

// One search after another.
fn nearest_in_turn(
    alloc: Global,
    map: &PlainMap,
    k: u32,
    points: &[Point],
) -> Result<HitLists, NoMemory>
    requires query { IsQuery k None }
    ensures { IfOk result (λ lists. lists ≡ nears map.now.items k points.now) }
{
    let mut lists = HitLists::new(alloc);
    for point in points {
        lists.push(map.nearest(alloc, k, point, None)?)?;
    }
    Ok(lists)
}

fn totals(map: &PlainMap, mark: u64) -> Reply
    ensures { result ≡ reply_at map.now.items None mark }
{
    let counts = map.counts();
    Reply::Totals {
        mark,
        live: counts.live,
        suspended: counts.suspended,
    }
}
