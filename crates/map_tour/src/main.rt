//! A tour of the library: a map takes scans, a version of it is kept while the map goes on, and both are asked.
#![tactic(auto)]

ghost use Rattle.kd_tree.specs.Counter.{IsBlankOf};

use kd_search::nearest;
use kd_tree::Steps;
use map_fold::{Cuboids, Hits, NoMemory, Points, Settings, Update};
use point_geom::{Corner, Cuboid, Point};
use rebuild_core::{MapState, StateFault};
use std::alloc::{AllocError, Global};
use std::io;
use std::marker::Brand;
use std::sync::Arc;
use std::sync::ledger::{Blank, Ledger};

fn main(rt: HostRuntime) -> io::Result<()> {
    let (then, now) = tour::<Brand>(rt.alloc(), Blank::new(1)).map_err(|_| AllocError)?;
    show(&rt, "then", &then)?;
    show(&rt, "now", &now)
}

// What is near the origin before a box is hidden, and after.
fn tour<L: Ledger>(alloc: Global, blank: Blank) -> Result<(Hits, Hits), StateFault>
    requires blank { IsBlankOf L.name L.parts blank }
{
    // Counts the nodes that are made, for whoever wants to prove a bound on them.
    let steps: &mut Steps<L> = &mut Steps::new(blank);
    let origin = Point::new(0, 0, 0).unwrap();
    let scan = scanned(alloc)?;
    let aside = beside_the_origin(alloc)?;

    // One point stays in each voxel of half a metre; subtrees below 1,500 nodes are rebuilt at once.
    let mut map = MapState::new(alloc, Settings::new(500, 1_500))?;
    // Caller 1 adds a scan, in millimetres. Each point gets the next number, from 0 on.
    map.update(alloc, 1, Update::Thin(scan), steps)?;
    // This version is kept, and the map goes on: what lies in a box is hidden.
    let before = Arc::try_clone(map.version())?;
    map.update(alloc, 1, Update::Suspend(aside), steps)?;
    // The 5 nearest within 2 metres. Up to 16 take no memory, so there is an answer.
    let then = nearest(alloc, before.tree(), 5, &origin, Some(2_000)).unwrap();
    let now = nearest(alloc, map.version().tree(), 5, &origin, Some(2_000)).unwrap();
    Ok((then, now))
}

// Four points, of which two are in one voxel, and one is farther than 2 metres.
fn scanned(alloc: Global) -> Result<Points, NoMemory> {
    let mut scan = Points::new(alloc);
    scan.push(Point::new(1, 2, 3).unwrap())?;
    scan.push(Point::new(-40, 0, 900).unwrap())?;
    scan.push(Point::new(-40, 0, 905).unwrap())?;
    scan.push(Point::new(2_500, 0, 0).unwrap())?;
    Ok(scan)
}

// A box with sides of a centimetre.
fn beside_the_origin(alloc: Global) -> Result<Cuboids, NoMemory> {
    let lo = Corner { x: 0, y: 0, z: 0 };
    let hi = Corner {
        x: 10,
        y: 10,
        z: 10,
    };
    let mut boxes = Cuboids::new(alloc);
    boxes.push(Cuboid::new(lo, hi).unwrap())?;
    Ok(boxes)
}

fn show(rt: &impl Print, when: &str, hits: &Hits) -> io::Result<()> {
    for hit in hits.as_slice() {
        let (x, y, z) = (hit.point.x(), hit.point.y(), hit.point.z());
        let (number, dist2) = (hit.number, hit.dist2);
        println!(rt; "{when}: point {number} at ({x}, {y}, {z}), squared distance {dist2}")?;
    }
    Ok(())
}
