//! Frozen indexes beside the tree that they were made of: equal points, lines, lattices, corners of space, one point and none, asked
//! from among the points and from far outside; and boxes that cut what is found.
ghost use Rattle.std.specs.Prelude.{◌≤◌};
ghost use Rattle.kd_search.specs.Query.{IsQuery};

use crate::tests::assertions::{holds, made, same};
use crate::tests::draw::Draw;
use crate::tests::each::{are_as_single, is_as_single};
use crate::tests::grown::grown;
use crate::tests::places::{Place, at};
use batch_near::frozen_nearest_each;
use kd_frozen::{Frozen, Shortlist, nearest_beside};
use kd_search::count_in;
use kd_tree::Tree;
use map_fold::{Points, Tag};
use point_geom::{Cuboid, Point};
use std::alloc::Global;
use std::process::Abort;
use std::thread::Threads;

// The last coordinate there is.
const FAR: i64 = 1_099_511_627_776;

const CORNERS: [Place; 8] = [
    (-FAR, -FAR, -FAR),
    (-FAR, -FAR, FAR),
    (-FAR, FAR, -FAR),
    (-FAR, FAR, FAR),
    (FAR, -FAR, -FAR),
    (FAR, -FAR, FAR),
    (FAR, FAR, -FAR),
    (FAR, FAR, FAR),
];

#[test]
fn of_nothing_nothing_is_found(rt: HostRuntime) {
    finds_as_the_tree(&rt, rt.alloc(), &[]);
}

#[test]
fn one_point_is_found_from_everywhere(rt: HostRuntime) {
    let points = [at(&rt, (7, 7, 7))];
    finds_as_the_tree(&rt, rt.alloc(), &points);
}

#[test]
fn equal_points_are_found_by_their_numbers(rt: HostRuntime) {
    let points = [at(&rt, (7, 7, 7)); 100];
    finds_as_the_tree(&rt, rt.alloc(), &points);
}

#[test]
fn points_of_a_line_are_found(rt: HostRuntime) {
    let alloc = rt.alloc();
    let points = line(&rt, alloc);
    finds_as_the_tree(&rt, alloc, points.as_slice());
}

// Each of its points is there twice.
fn line(rt: &impl Abort, alloc: Global) -> Vec<Point> {
    let mut points = Vec::new(alloc);
    for i in 0..200 {
        made(rt, points.push(at(rt, (7, i % 100 - 40, 7))));
    }
    points
}

#[test]
fn points_of_a_lattice_are_found(rt: HostRuntime) {
    let alloc = rt.alloc();
    let mut draw = Draw { state: 3 };
    let points = draw.points(&rt, alloc, 400);
    finds_as_the_tree(&rt, alloc, points.as_slice());
}

#[test]
fn corners_of_space_are_found(rt: HostRuntime) {
    let alloc = rt.alloc();
    let mut draw = Draw { state: 5 };
    let mut points = draw.points(&rt, alloc, 20);
    put_corners(&rt, &mut points);
    finds_as_the_tree(&rt, alloc, points.as_slice());
}

fn put_corners(rt: &impl Abort, points: &mut Vec<Point>) {
    for corner in CORNERS {
        made(rt, points.push(at(rt, corner)));
    }
}

// Every third point is suspended.
fn finds_as_the_tree(rt: &impl Abort, alloc: Global, points: &[Point]) {
    let tree = grown(rt, alloc, points, Tag::KEEP);
    let frozen = made(rt, Frozen::of(alloc, &tree));
    same(rt, "how many", frozen.len(), tree.counts().live as usize);
    same(rt, "none", frozen.is_empty(), tree.counts().live == 0);
    let mut places = Draw { state: 7 }.points(rt, alloc, 10);
    put_corners(rt, &mut places);
    for q in places.as_slice() {
        from_place(rt, alloc, &tree, &frozen, q);
    }
}

fn from_place(rt: &impl Abort, alloc: Global, tree: &Tree, frozen: &Frozen, q: &Point) {
    for within in [None, Some(0), Some(3), Some(60), Some(4_398_046_511_104)] {
        for k in 1..18 {
            let got = made(rt, frozen.nearest(alloc, k, q, within));
            is_as_single(rt, alloc, &got, tree, q, k, within);
        }
    }
}

// Drawn points in a tree, frozen too, and what draws on.
#[derive(Drop)]
struct Scene {
    draw: Draw,
    tree: Tree,
    frozen: Frozen,
}

impl Scene {
    // Of so many points, drawn from this state on.
    fn drawn(rt: &impl Abort, alloc: Global, state: u64, count: u32) -> Scene {
        let mut draw = Draw { state };
        let points = draw.points(rt, alloc, count);
        let tree = grown(rt, alloc, points.as_slice(), Tag::KEEP);
        let frozen = made(rt, Frozen::of(alloc, &tree));
        Scene { draw, tree, frozen }
    }
}

#[test]
fn few_are_found_in_a_list_of_their_own(rt: HostRuntime) {
    let alloc = rt.alloc();
    let Scene {
        mut draw,
        frozen,
        ..
    } = Scene::drawn(&rt, alloc, 13, 200);
    let q = draw.point(&rt);
    are_few(&rt, alloc, &frozen, 1, &q);
    are_few(&rt, alloc, &frozen, 16, &q);
    let (mut many, mut far) = (Shortlist::new(), Shortlist::new());
    let found_many = frozen.nearest_few(17, &q, None, &mut many);
    let found_far = frozen.nearest_few(1, &at(&rt, CORNERS[0]), None, &mut far);
    holds(&rt, "neither", !found_many && !found_far);
}

fn are_few(rt: &impl Abort, alloc: Global, frozen: &Frozen, k: u32, q: &Point)
    requires k_from { 1 ≤ k }
    requires k_to { k ≤ 256 }
{
    let mut few = Shortlist::new();
    holds(rt, "few", frozen.nearest_few(k, q, None, &mut few));
    let want = made(rt, frozen.nearest(alloc, k, q, None));
    same(rt, "how many", few.len(), want.len());
    for i in 0..few.len() {
        let hit = few.hit(i);
        assert_eq!(rt; Some(&hit), want.as_slice().get(i));
    }
}

#[test]
fn what_is_beside_a_frozen_box_is_found_too(rt: HostRuntime) {
    let alloc = rt.alloc();
    let Scene { mut draw, tree, .. } = Scene::drawn(&rt, alloc, 9, 300);
    for _ in 0..40 {
        let cuboid = draw.cuboid(&rt);
        let q = draw.point(&rt);
        freezes_a_box(&rt, alloc, &tree, &cuboid, &q);
    }
}

fn freezes_a_box(rt: &impl Abort, alloc: Global, tree: &Tree, cuboid: &Cuboid, q: &Point) {
    let frozen = made(rt, Frozen::inside(alloc, tree, cuboid));
    let count = count_in(tree, cuboid) as usize;
    same(rt, "how many", frozen.len(), count);
    for within in [None, Some(0), Some(3), Some(60)] {
        for k in 1..18 {
            let got = nearest_beside(alloc, tree, cuboid, &frozen, k, q, within);
            is_as_single(rt, alloc, &made(rt, got), tree, q, k, within);
        }
    }
}

#[test]
fn each_list_of_many_places_is_what_one_search_finds(rt: HostRuntime) {
    let alloc = rt.alloc();
    let mut scene = Scene::drawn(&rt, alloc, 11, 500);
    // Above 16 hits, or for fewer than 256 places, lists aren't filled where they are.
    finds_each(&rt, alloc, &mut scene, 300, 17, Some(3));
    finds_each(&rt, alloc, &mut scene, 255, 16, None);
    finds_each(&rt, alloc, &mut scene, 256, 16, Some(3));
}

// For so many places.
fn finds_each<R: Threads + Sync + Abort>(
    rt: &R,
    alloc: Global,
    scene: &mut Scene,
    count: u32,
    k: u32,
    within: Option<u64>,
)
    requires { IsQuery k within }
{
    let queries = Points::from(scene.draw.points(rt, alloc, count));
    let lists = frozen_nearest_each(rt, alloc, &scene.frozen, k, &queries, within);
    let lists = made(rt, lists);
    are_as_single(rt, alloc, &lists, &scene.tree, &queries, k, within);
}
