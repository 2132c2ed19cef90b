//! Scans that thin their voxels at once, also beside a detached subtree, beside the plain map, where their points do so in turn.
use crate::tests::assertions::{holds, made};
use crate::tests::beside::{compare, updated_plainly};
use crate::tests::draws::Draws;
use crate::tests::steps::{new_map, settled, update};
use map_fold::{Cuboids, PlainMap, Settings, Update};
use rebuild_core::MapState;
use std::alloc::Global;
use std::process::Abort;

#[derive(Drop)]
struct Twins {
    settings: Settings,
    at_once: MapState,
    plain: PlainMap,
    draws: Draws,
}

impl Twins {
    fn new(rt: &impl Abort, alloc: Global, settings: Settings) -> Twins {
        Twins {
            settings,
            at_once: new_map(rt, alloc, settings),
            plain: PlainMap::new(alloc),
            draws: Draws::from(1),
        }
    }

    // The update in both, which are compared then.
    fn both(&mut self, rt: &impl Abort, alloc: Global, change: Update) {
        updated_plainly(rt, alloc, &self.settings, &mut self.plain, &change);
        update(rt, alloc, &mut self.at_once, change);
        compare(
            rt,
            alloc,
            self.at_once.version(),
            &self.plain,
            &mut self.draws,
        );
    }

    fn drawn_box(&mut self, rt: &impl Abort, alloc: Global) -> Cuboids {
        let cuboid = self.draws.cuboid(rt);
        let mut boxes = Cuboids::new(alloc);
        made(rt, boxes.push(cuboid));
        boxes
    }

    fn add(&mut self, rt: &impl Abort, alloc: Global, count: u32) {
        let scan = self.draws.scan(rt, alloc, count);
        self.both(rt, alloc, Update::Add(scan));
    }

    fn thin(&mut self, rt: &impl Abort, alloc: Global, count: u32) {
        let scan = self.draws.scan(rt, alloc, count);
        self.both(rt, alloc, Update::Thin(scan));
    }

    fn suspend(&mut self, rt: &impl Abort, alloc: Global) {
        let boxes = self.drawn_box(rt, alloc);
        self.both(rt, alloc, Update::Suspend(boxes));
    }

    fn restore(&mut self, rt: &impl Abort, alloc: Global) {
        let boxes = self.drawn_box(rt, alloc);
        self.both(rt, alloc, Update::Restore(boxes));
    }

    // What is detached is watched from here on.
    fn thin_detached(&mut self, rt: &impl Abort, alloc: Global, count: u32) {
        let job = made(rt, self.at_once.detach(alloc, 1));
        self.thin(rt, alloc, count);
        let is_detached = job.is_some() || count < 400;
        holds(rt, "a subtree was detached", is_detached);
    }

    // Some points of a small grid, a few of them suspended. Then a scan before anything is detached, one beside a detached subtree,
    // and one that finds the map settled.
    fn scans(&mut self, rt: &impl Abort, alloc: Global, count: u32) {
        self.add(rt, alloc, 40);
        self.suspend(rt, alloc);
        self.thin(rt, alloc, count);
        self.restore(rt, alloc);
        self.thin_detached(rt, alloc, count);
        settled(rt, alloc, &mut self.at_once);
        self.thin(rt, alloc, count);
    }
}

#[test]
fn a_scan_thins_as_its_points_do_in_turn(rt: HostRuntime) {
    let alloc = rt.alloc();
    // On the grid of 512 places, an edge of 1 makes a voxel of each, and one of 200 makes eight of all.
    for edge in [1, 3, 200] {
        thins(&rt, alloc, Settings::new(edge, 16));
    }
}

fn thins(rt: &impl Abort, alloc: Global, settings: Settings) {
    let mut twins = Twins::new(rt, alloc, settings);
    for count in [1, 63, 64, 65, 400, 3_000, 100] {
        twins.scans(rt, alloc, count);
    }
}
