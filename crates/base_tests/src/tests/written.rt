//! What is written, by hand: logs, and the lines of replies.
ghost use Rattle.std.specs.Prelude.{◌≡◌, ◌≤◌, IfOk, IfErr};
ghost use Rattle.map_items.specs.Fold.{points_in};
ghost use Rattle.scan_log.specs.declared.format.Format.TheVariants.{One, Two};
ghost use Rattle.scan_log.specs.Scripts.{AreBoxes, AreScanned, IsCaller, IsCallerBox, IsCommand, IsUpdate, asked, submitted};
ghost use Rattle.scan_log.specs.declared.fault.ParseFault.TheVariants.{NoMemory as want};

use crate::tests::assertions::{are_bytes, made};
use crate::tests::reading::{HEADER, WIDE_HEADER, log_with, read, read_with};
use map_fold::{
    BoxReply, Cuboids, Hit, Hits, Item, Items, Label, MAX_POINTS, NearReply, Points, Settings,
    Update,
};
use point_geom::{Corner, Cuboid, Point};
use scan_log::{Command, Format, ParseFault, Reply, Script, parse, reply_line, write_script};
use std::alloc::Global;
use std::process::Abort;

// The log of this one command.
fn log_of(rt: &impl Abort, alloc: Global, format: Format, command: Command) -> Vec<u8>
    requires limits { IsCommand format command }
    requires room { submitted command ≤ 262144 }
    requires hits { asked command ≤ MAX_POINTS }
{
    let mut script = Script::new(alloc, format, Settings::new(200, 1500));
    made(rt, script.push(command));
    made(rt, write_script(alloc, &script))
}

fn points(rt: &impl Abort, alloc: Global) -> Points
    ensures { AreScanned One result }
{
    let near = made(rt, Point::new(1, -2, 3));
    let far = made(rt, Point::new(1_000_000_000, 0, -1_000_000_000));
    let mut points = Points::new(alloc);
    made(rt, points.push(near));
    made(rt, points.push(far));
    points
}

// Points with intensities.
fn wide_points(rt: &impl Abort, alloc: Global) -> Points
    ensures { AreScanned Two result }
{
    let near = made(rt, Point::new(1, -2, 3)).with_intensity(65_535);
    let far = made(rt, Point::new(1_099_511_627_776, 0, 0)).with_intensity(7);
    let mut points = Points::new(alloc);
    made(rt, points.push(near));
    made(rt, points.push(far));
    points
}

fn cuboid(rt: &impl Abort) -> Cuboid
    ensures { IsCallerBox One result }
{
    let lo = Corner { x: 4, y: -5, z: 6 };
    let hi = Corner {
        x: 1_000_000_001,
        y: -5,
        z: 7,
    };
    made(rt, Cuboid::new(lo, hi))
}

fn boxes(rt: &impl Abort, alloc: Global) -> Cuboids
    ensures { AreBoxes One result }
{
    let point = made(rt, Point::new(1, -2, 3));
    let mut boxes = Cuboids::new(alloc);
    made(rt, boxes.push(Cuboid::unit(&point)));
    made(rt, boxes.push(cuboid(rt)));
    boxes
}

// The log of this one command is its header and this line.
fn is_written(rt: &impl Abort, alloc: Global, format: Format, command: Command, line: &[u8])
    requires limits { IsCommand format command }
    requires room { submitted command ≤ 262144 }
    requires hits { asked command ≤ MAX_POINTS }
{
    let header = match format {
        Format::One => HEADER,
        Format::Two => WIDE_HEADER,
    };
    let log = log_of(rt, alloc, format, command);
    let want = log_with(rt, alloc, header, line);
    are_bytes(rt, log.as_slice(), want.as_slice());
}

// The line of this update has this word and these numbers.
fn update_is_written(
    rt: &impl Abort,
    alloc: Global,
    format: Format,
    caller: u8,
    update: Update,
    word: &str,
    numbers: &str,
)
    requires caller { IsCaller caller }
    requires limits { IsUpdate format update }
    requires room { points_in update ≤ 262144 }
{
    let line = made(rt, format!(in alloc; "@{caller} {word} {numbers}\n"));
    let change = Command::Change { caller, update };
    is_written(rt, alloc, format, change, line.as_bytes());
}

#[test]
fn an_update_has_one_line_with_all_its_numbers(rt: HostRuntime) {
    let alloc = rt.alloc();
    points_are_written(&rt, alloc);
    boxes_are_written(&rt, alloc);
    wide_numbers_are_written(&rt, alloc);
}

fn points_are_written(rt: &impl Abort, alloc: Global) {
    let add = Update::Add(points(rt, alloc));
    let thin = Update::Thin(points(rt, alloc));
    let numbers = "1 -2 3 1000000000 0 -1000000000";
    update_is_written(rt, alloc, Format::One, 1, add, "add", numbers);
    update_is_written(rt, alloc, Format::One, 2, thin, "thin", numbers);
}

fn boxes_are_written(rt: &impl Abort, alloc: Global) {
    let delete = Update::Delete(boxes(rt, alloc));
    let suspend = Update::Suspend(boxes(rt, alloc));
    let restore = Update::Restore(boxes(rt, alloc));
    let numbers = "1 -2 3 2 -1 4 4 -5 6 1000000001 -5 7";
    update_is_written(rt, alloc, Format::One, 3, delete, "delete", numbers);
    update_is_written(rt, alloc, Format::One, 4, suspend, "suspend", numbers);
    update_is_written(rt, alloc, Format::One, 5, restore, "restore", numbers);
}

fn wide_numbers_are_written(rt: &impl Abort, alloc: Global) {
    let update = Update::Add(wide_points(rt, alloc));
    let numbers = "1 -2 3 65535 1099511627776 0 0 7";
    update_is_written(rt, alloc, Format::Two, 1, update, "add", numbers);
    let update = Update::Expire(4_194_304);
    update_is_written(rt, alloc, Format::Two, 4, update, "expire", "4194304");
}

#[test]
fn a_search_has_its_distance_where_one_is_given(rt: HostRuntime) {
    let alloc = rt.alloc();
    let point = made(&rt, Point::new(1, -2, 3));
    let (caller, k) = (8, 256);
    let near = Command::Near {
        caller,
        k,
        point,
        within: None,
    };
    is_written(&rt, alloc, Format::One, near, b"@8 near 256 1 -2 3\n");
    let within = Command::Near {
        caller,
        k,
        point,
        within: Some(4_398_046_511_104),
    };
    let line = b"@8 near 256 1 -2 3 within 4398046511104\n";
    is_written(&rt, alloc, Format::Two, within, line);
    let cuboid = cuboid(&rt);
    let inside = Command::Inside { caller, k, cuboid };
    let line = b"@8 box 256 4 -5 6 1000000001 -5 7\n";
    is_written(&rt, alloc, Format::One, inside, line);
}

// What is written is read as an equal script, or memory runs out.
fn again(alloc: Global, script: &Script) -> Result<Script, ParseFault>
    ensures same { IfOk result (λ again. again ≡ script.now) }
    ensures fault { IfErr result (λ fault. fault ≡ want) }
{
    let log = write_script(alloc, script)?;
    parse(alloc, log.as_slice())
}

#[test]
fn what_is_written_is_read_as_the_same_script(rt: HostRuntime) {
    let alloc = rt.alloc();
    is_written_twice(
        &rt,
        alloc,
        b"# by hand\nikdmap 1 voxel 200 large 1500\n\n@1 erase 1 2 3\nsync\n@8 near 2 0 0 0 within 7",
        b"ikdmap 1 voxel 200 large 1500\n@1 delete 1 2 3 2 3 4\nsync\n@8 near 2 0 0 0 within 7\n",
    );
    is_written_twice(
        &rt,
        alloc,
        b"ikdmap 2 voxel 200 large 1500\n@1 add 1 2 3 4 -5 0 6 65535\n#\n@2 erase 1 2 3",
        b"ikdmap 2 voxel 200 large 1500\n@1 add 1 2 3 4 -5 0 6 65535\n@2 delete 1 2 3 2 3 4\n",
    );
}

// The log by hand is written as this one, and so is what is read of that.
fn is_written_twice(rt: &impl Abort, alloc: Global, by_hand: &[u8], written: &[u8]) {
    let script = made(rt, read(alloc, by_hand));
    is_written_as(rt, alloc, &script, written);
    let script = made(rt, again(alloc, &script));
    is_written_as(rt, alloc, &script, written);
}

// The script is written as this log.
pub fn is_written_as(rt: &impl Abort, alloc: Global, script: &Script, log: &[u8]) {
    let written = made(rt, write_script(alloc, script));
    are_bytes(rt, written.as_slice(), log);
}

// The line of this reply is this text, where this line behind this header asks for it, or at the end where none does.
fn has_line(
    rt: &impl Abort,
    alloc: Global,
    header: &[u8],
    asked: &[u8],
    reply: &Reply,
    want: &[u8],
) {
    let script = read_with(rt, alloc, header, asked);
    let command = script.commands().first();
    let mut line = Vec::new(alloc);
    made(rt, reply_line(&mut line, script.format(), command, reply));
    are_bytes(rt, line.as_slice(), want);
}

// The same of a reply that is told once.
pub fn is_told(
    rt: &impl Abort,
    alloc: Global,
    header: &[u8],
    asked: &[u8],
    reply: Reply,
    want: &[u8],
) {
    has_line(rt, alloc, header, asked, &reply, want);
}

// The same in version 1, where no point has an intensity, and in version 2.
fn is_told_in_both(
    rt: &impl Abort,
    alloc: Global,
    asked: &[u8],
    reply: &Reply,
    plain: &[u8],
    wide: &[u8],
) {
    has_line(rt, alloc, HEADER, asked, reply, plain);
    has_line(rt, alloc, WIDE_HEADER, asked, reply, wide);
}

#[test]
fn an_update_is_told_by_its_place(rt: HostRuntime) {
    let reply = Reply::Done { mark: 65_536 };
    let want = b"@8 ok 65536\n";
    is_told(&rt, rt.alloc(), HEADER, b"@8 add 1 2 3", reply, want);
}

#[test]
fn each_hit_is_told_with_its_distance(rt: HostRuntime) {
    let alloc = rt.alloc();
    let point = made(&rt, Point::new(1, -2, 3));
    let near = b"@7 near 2 1 -2 3";
    let hits = two_hits(&rt, alloc, point.with_intensity(65_535));
    let reply = Reply::Near(NearReply { mark: 9, hits });
    let plain = b"@7 near 9 | 5 1 -2 3 0 | 0 1 -2 3 12000000000000000000\n";
    let wide = b"@7 near 9 | 5 1 -2 3 65535 0 | 0 1 -2 3 65535 12000000000000000000\n";
    is_told_in_both(&rt, alloc, near, &reply, plain, wide);
}

fn two_hits(rt: &impl Abort, alloc: Global, point: Point) -> Hits {
    let mut hits = Hits::new(alloc);
    for &(number, dist2) in &[(5, 0), (0, 12_000_000_000_000_000_000)] {
        let hit = Hit {
            number,
            point,
            dist2,
        };
        made(rt, hits.push(hit));
    }
    hits
}

#[test]
fn what_is_found_in_a_box_is_told_after_its_number(rt: HostRuntime) {
    let alloc = rt.alloc();
    let inside = b"@2 box 1 4 -5 6 1000000001 -5 7";
    let reply = Reply::Inside(found(&rt, alloc, 4_194_303));
    let plain = b"@2 box 9 7 | 4194303 1 -2 3\n";
    let wide = b"@2 box 9 7 | 4194303 1 -2 3 4\n";
    is_told_in_both(&rt, alloc, inside, &reply, plain, wide);
}

#[test]
fn a_reply_of_another_kind_has_no_line(rt: HostRuntime) {
    let alloc = rt.alloc();
    // A box is no ball.
    let inside = Reply::Inside(found(&rt, alloc, 6));
    is_told(&rt, alloc, WIDE_HEADER, b"@2 ball 1 5 0 0 0", inside, b"");
    let done = Reply::Done { mark: 1 };
    let boxed = b"@2 box 1 4 -5 6 1000000001 -5 7";
    is_told(&rt, alloc, WIDE_HEADER, boxed, done, b"");
}

// Seven points, of which this one is listed.
pub fn found(rt: &impl Abort, alloc: Global, number: u32) -> BoxReply {
    let point = made(rt, Point::new(1, -2, 3)).with_intensity(4);
    let item = Item {
        number,
        point,
        label: Label::Live,
    };
    let mut items = Items::new(alloc);
    made(rt, items.push(item));
    BoxReply {
        mark: 9,
        count: 7,
        items,
    }
}

#[test]
fn a_barrier_and_the_end_tell_how_many_are_held(rt: HostRuntime) {
    let alloc = rt.alloc();
    let want = b"sync 3 live 2 suspended 1\n";
    is_told(&rt, alloc, WIDE_HEADER, b"sync", totals(), want);
    let want = b"end 3 live 2 suspended 1\n";
    is_told(&rt, alloc, HEADER, b"", totals(), want);
}

fn totals() -> Reply {
    Reply::Totals {
        mark: 3,
        live: 2,
        suspended: 1,
    }
}
