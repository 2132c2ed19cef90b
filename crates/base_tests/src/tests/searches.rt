//! The searches that version 2 alone has, by hand.
use crate::tests::assertions::{made, same};
use crate::tests::hits::one_hit;
use crate::tests::reading::{WIDE_HEADER, read};
use crate::tests::written::{found, is_told, is_written_as};
use map_fold::{ClusterReply, Group, Groups, HitLists, Hits, NearsReply};
use point_geom::Point;
use scan_log::Reply;
use std::alloc::Global;
use std::process::Abort;

#[test]
fn each_search_is_written_as_it_was_read(rt: HostRuntime) {
    let alloc = rt.alloc();
    let log = b"ikdmap 2 voxel 200 large 1500\n\
                @3 nears 2 1 -2 3 4 5 -6\n\
                @2 ball 256 4398046511104 1 -2 3\n\
                @8 lonely 5 0\n\
                @1 clusters 7 12\n"
        .as_slice();
    let script = made(&rt, read(alloc, log));
    is_written_as(&rt, alloc, &script, log);
    let points = script.commands().first().map(|nears| nears.points());
    same(&rt, "points of the first", points, Some(0));
}

fn hits(rt: &impl Abort, alloc: Global, number: u32) -> Hits {
    let point = made(rt, Point::new(1, 0, -1)).with_intensity(9);
    one_hit(rt, alloc, number, point, 4)
}

#[test]
fn each_place_has_its_hits_behind_a_stroke(rt: HostRuntime) {
    let lists = three_lists(&rt, rt.alloc());
    let reply = Reply::Nears(NearsReply { mark: 12, lists });
    let nears = b"@3 nears 2 0 0 0";
    let want = b"@3 nears 12 / | 5 1 0 -1 9 4 / / | 0 1 0 -1 9 4\n";
    is_told(&rt, rt.alloc(), WIDE_HEADER, nears, reply, want);
}

// The second is empty.
fn three_lists(rt: &impl Abort, alloc: Global) -> HitLists {
    let mut lists = HitLists::new(alloc);
    push(rt, &mut lists, hits(rt, alloc, 5));
    push(rt, &mut lists, Hits::new(alloc));
    push(rt, &mut lists, hits(rt, alloc, 0));
    lists
}

fn push(rt: &impl Abort, lists: &mut HitLists, hits: Hits) {
    made(rt, lists.push(hits));
}

#[test]
fn how_many_are_found_is_told_before_them(rt: HostRuntime) {
    let alloc = rt.alloc();
    let inside = Reply::Ball(found(&rt, alloc, 6));
    let want = b"@2 ball 9 7 | 6 1 -2 3 4\n";
    is_told(&rt, alloc, WIDE_HEADER, b"@2 ball 1 5 0 0 0", inside, want);
    let alone = Reply::Lonely(found(&rt, alloc, 6));
    let want = b"@8 lonely 9 7 | 6 1 -2 3 4\n";
    is_told(&rt, alloc, WIDE_HEADER, b"@8 lonely 1 5", alone, want);
}

#[test]
fn a_cluster_is_told_by_its_least_number_and_its_size(rt: HostRuntime) {
    let reply = Reply::Clusters(two_groups(&rt, rt.alloc()));
    let clusters = b"@1 clusters 2 5";
    let want = b"@1 clusters 1 4 | 0 3 | 4194303 1\n";
    is_told(&rt, rt.alloc(), WIDE_HEADER, clusters, reply, want);
}

fn two_groups(rt: &impl Abort, alloc: Global) -> ClusterReply {
    let mut groups = Groups::new(alloc);
    for &(least, size) in &[(0, 3), (4_194_303, 1)] {
        made(rt, groups.push(Group { least, size }));
    }
    ClusterReply {
        mark: 1,
        count: 4,
        groups,
    }
}
