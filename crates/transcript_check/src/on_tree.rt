//! Replies of one tree, at the given mark.
ghost use Rattle.std.specs.Prelude.{◌≡◌, IfOk, None};
ghost use Rattle.kd_tree.specs.Contents.{contents};
ghost use Rattle.map_fold.specs.Answers.{nears};
ghost use Rattle.kd_search.specs.Query.{IsQuery};
ghost use Rattle.scan_log.specs.{Plain.{IsPlain}, Transcript.{reply_on, totals_on}};

use kd_search::{count_in, in_cuboid, nearest};
use kd_tree::Tree;
use map_fold::{BoxReply, ClusterReply, HitLists, NearReply, NearsReply};
use map_items::NoMemory;
use neighbour_sets::{Found, Grouped, clusters, count_ball, in_ball, lonely};
use point_geom::Point;
use scan_log::{Command, Reply};
use std::alloc::Global;

/// The reply to a command. An update is one that the tree has taken. A list of places is searched place by place.
pub fn tree_reply(
    alloc: Global,
    tree: &Tree,
    mark: u64,
    command: &Command,
) -> Result<Reply, NoMemory>
    requires { IsPlain command.now }
    ensures { IfOk result (λ r. r ≡ reply_on (contents tree.now) command.now mark) }
{
    Ok(match command {
        Command::Change { .. } | Command::Pose { .. } => Reply::Done { mark },
        Command::Near {
            k,
            point,
            within,
            ..
        } => {
            let hits = nearest(alloc, tree, *k, point, *within)?;
            Reply::Near(NearReply { mark, hits })
        }
        Command::Nears { k, points, .. } => {
            let lists = nearest_in_turn(alloc, tree, *k, points.as_slice())?;
            Reply::Nears(NearsReply { mark, lists })
        }
        Command::Inside { k, cuboid, .. } => {
            let count = count_in(tree, cuboid);
            let items = in_cuboid(alloc, tree, cuboid, *k)?;
            Reply::Inside(BoxReply { mark, count, items })
        }
        Command::Ball { k, r, point, .. } => {
            let count = count_ball(tree, point, *r);
            let items = in_ball(alloc, tree, point, *r, *k)?;
            Reply::Ball(BoxReply { mark, count, items })
        }
        Command::Lonely { k, r, .. } => {
            let Found { count, items } = lonely(alloc, tree, *r, *k)?;
            Reply::Lonely(BoxReply { mark, count, items })
        }
        Command::Clusters { k, r, .. } => {
            let Grouped { count, groups } = clusters(alloc, tree, *r, *k)?;
            Reply::Clusters(ClusterReply {
                mark,
                count,
                groups,
            })
        }
        Command::Sync => tree_totals(tree, mark),
    })
}

// One search after another.
fn nearest_in_turn(
    alloc: Global,
    tree: &Tree,
    k: u32,
    points: &[Point],
) -> Result<HitLists, NoMemory>
    requires query { IsQuery k None }
    ensures { IfOk result (λ lists. lists ≡ nears (contents tree.now) k points.now) }
{
    let mut lists = HitLists::new(alloc);
    for point in points {
        lists.push(nearest(alloc, tree, k, point, None)?)?;
    }
    Ok(lists)
}

/// How many points are live, and how many suspended.
pub fn tree_totals(tree: &Tree, mark: u64) -> Reply
    ensures { result ≡ totals_on (contents tree.now) mark }
{
    let counts = tree.counts();
    Reply::Totals {
        mark,
        live: counts.live,
        suspended: counts.suspended,
    }
}
