//! Each public name is where callers look for it: in the crate that promises it, whichever crate defines it. A name that can't be imported
//! is an error of the compiler; the small calls are made as well.

use crate::tests::assertions::holds;
use crate::tests::assertions::same;
use batch_near::nearest_each;
use kd_search::best_in;
use kd_search::count_in;
use kd_search::in_cuboid;
use kd_search::nearest;
use kd_tree::Fork;
use kd_tree::Numbers;
use kd_tree::Path;
use kd_tree::Side;
use kd_tree::Steps;
use kd_tree::Top;
use kd_tree::Tree;
use kd_update::Replaced;
use kd_update::Watch;
use kd_update::Watches;
use kd_update::marked;
use kd_update::marked_watched;
use kd_update::put;
use kd_update::put_watched;
use kd_update::replaced;
use kd_update::replayed;
use kd_update::settled;
use local_region::Moved;
use local_region::Region;
use local_region::RegionRules;
use local_region::RulesFault;
use map_fold::BoxReply;
use map_fold::Choice;
use map_fold::ClusterReply;
use map_fold::Counts;
use map_fold::Cuboids;
use map_fold::Entry;
use map_fold::Group;
use map_fold::Groups;
use map_fold::Hit;
use map_fold::HitLists;
use map_fold::Hits;
use map_fold::Item;
use map_fold::Items;
use map_fold::NearReply;
use map_fold::NearsReply;
use map_fold::NoMemory;
use map_fold::Op;
use map_fold::Ops;
use map_fold::PlainMap;
use map_fold::Points;
use map_fold::Settings;
use map_fold::Update;
use mapper_core::Failed;
use mapper_core::MemSink;
use mapper_core::MemSource;
use mapper_core::Replies;
use mapper_core::Sink;
use mapper_core::SinkFault;
use mapper_core::Source;
use mapper_core::Status;
use mapper_core::SureSink;
use mapper_core::SureSource;
use mapper_core::made;
use mapper_core::run;
use mapper_core::run_callers;
use mapper_core::serial;
use mapper_core::threaded;
use neighbour_sets::Found;
use neighbour_sets::Grouped;
use neighbour_sets::clusters;
use neighbour_sets::count_ball;
use neighbour_sets::in_ball;
use neighbour_sets::lonely;
use node_labels::Counts as LabelCounts;
use node_labels::Label;
use node_labels::Tag;
use op_logger::OpLog;
use op_logger::PushFault;
use point_geom::Axis;
use point_geom::Corner;
use point_geom::Cuboid;
use point_geom::CuboidError;
use point_geom::Extent;
use point_geom::OutOfRange;
use point_geom::Point;
use point_geom::centre_dist2;
use point_geom::dist2;
use point_geom::voxel;
use published_map::Ended;
use published_map::MapName;
use published_map::Opened;
use published_map::Pass;
use published_map::Shared;
use rebuild_core::Built;
use rebuild_core::BuiltLeft;
use rebuild_core::Desk;
use rebuild_core::Job;
use rebuild_core::JobLeft;
use rebuild_core::LogAsk;
use rebuild_core::MapState;
use rebuild_core::PartInfo;
use rebuild_core::Planned;
use rebuild_core::StateFault;
use rebuild_core::SwapFault;
use rebuild_core::SwapLeft;
use rebuild_core::Version;
use rebuild_worker::Bell;
use rebuild_worker::CountDesk;
use rebuild_worker::FreeGate;
use rebuild_worker::Gate;
use rebuild_worker::HoldGate;
use rebuild_worker::MeetGate;
use rebuild_worker::Rest;
use rebuild_worker::pair;
use rebuild_worker::work;
use scan_log::Command;
use scan_log::Format;
use scan_log::LogCause;
use scan_log::ParseFault;
use scan_log::Reply;
use scan_log::Script;
use scan_log::parse;
use scan_log::reply_line;
use scan_log::write_script;
use std::alloc::Global;
use std::process::Abort;
use transcript_check::Verdict;
use transcript_check::check;

#[test]
fn each_name_is_where_callers_look_for_it(rt: HostRuntime) {
    let alloc = rt.alloc();
    let origin = origin(&rt);
    same(&rt, "dist2", dist2(&origin, &origin), 0);
    let cube = voxel(&origin, 2);
    same(&rt, "centre_dist2", centre_dist2(&origin, &cube), 12);
    same(&rt, "Axis", origin.on(Axis::X), 0);
    same(&rt, "Tag", Tag::KEEP.apply(Label::Live), Label::Live);
    let tree = Tree::empty();
    same(&rt, "count_in", count_in(&tree, &cube), 0);
    same(&rt, "count_ball", count_ball(&tree, &origin, 1), 0);
    holds(&rt, "best_in", best_in(&tree, &cube).is_none());
    holds(
        &rt,
        "nearest",
        nearest(alloc, &tree, 1, &origin, None).is_ok(),
    );
    holds(&rt, "pair", pair(alloc).is_ok());
    plain(&rt, alloc, origin);
}

fn origin(rt: &impl Abort) -> Point {
    match Point::new(0, 0, 0) {
        Ok(point) => point,
        Err(OutOfRange { .. }) => panic!(rt; "the origin is out of range"),
    }
}

fn plain(rt: &impl Abort, alloc: Global, origin: Point) {
    let map = PlainMap::new(alloc);
    let hits = map.nearest(alloc, 1, &origin, None);
    holds(rt, "PlainMap", hits.is_ok());
    let state = MapState::new(alloc, Settings::new(1, 16));
    holds(rt, "MapState", state.is_ok());
}
