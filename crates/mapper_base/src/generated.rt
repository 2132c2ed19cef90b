//! The generated script: scans of a robot that moves a metre along x from scan to scan.
ghost use Rattle.std.specs.{Prelude.{◌≡◌, ◌≤◌, ◌<◌, ◌+◌, ◌*◌, ◌++◌, length, IfOk, OnOk}, List.{AllByRecursion}, Option.{ForSome}};
ghost use Rattle.scan_log.specs.declared.format.Format.TheVariants.{One};
ghost use Rattle.scan_log.specs.Scripts.{IsCaller, IsCallerBox, IsCommand, IsScannedPlace, asked, hits_of, points_of, submitted, with_command};
ghost use Rattle.mapper_base.specs.Generated.{after, box_behind, deletions, generated, next_draws, points_of_draws, robot, scan_commands};

use crate::draws::{Draws, point_at};
use map_items::{Cuboids, MAX_POINTS, NoMemory, Points, Settings, Update};
use point_geom::{Corner, Cuboid};
use scan_log::{Command, Format, MAX_COMMANDS, Script};
use std::alloc::Global;

/// In millimetres.
const VOXEL: u32 = 500;

/// In nodes.
const LARGE: u32 = 1_500;

const POINTS: u32 = 2_000;

const K: u32 = 5;

/// The greatest distance that caller 2 asks for, in millimetres.
const WITHIN: u64 = 2_000;

/// The script of `scans` scans. In each, caller 1 thins 2,000 points into the map and asks for those nearest to the robot, as
/// caller 2 does within 2 metres; each tenth scan deletes what is far behind. Takes 24 bytes a point, and little else.
pub fn made(alloc: Global, scans: u32) -> Result<Script, NoMemory>
    requires scans_from { 1 ≤ scans }
    requires scans_to { scans ≤ 200 }
    ensures { IfOk result (λ s. s ≡ generated scans) }
{
    let mut script = Script::new(alloc, Format::One, Settings::new(VOXEL, LARGE));
    let mut draws = Draws::new();
    for scan in 0..scans {
        push_scan(alloc, &mut script, &mut draws, scan)?;
    }
    Ok(script)
}

fn push_scan(
    alloc: Global,
    script: &mut Script,
    draws: &mut Draws,
    scan: u32,
) -> Result<(), NoMemory>
    requires format { script.old.format ≡ One }
    requires scan { scan < 200 }
    requires commands { length script.old.commands + 5 ≤ MAX_COMMANDS }
    requires room { points_of script.old.commands + 2000 ≤ MAX_POINTS }
    requires hits { hits_of script.old.commands ≤ 256 * length script.old.commands }
    ensures format { OnOk result (script.new.format ≡ One) }
    ensures sizes { OnOk result (script.new.sizes ≡ script.old.sizes) }
    ensures commands { OnOk result (script.new.commands ≡ script.old.commands ++ scan_commands scan (points_of_draws scan (next_draws 6000 draws.old))) }
    ensures count { OnOk result (length script.new.commands ≤ length script.old.commands + 5) }
    ensures points { OnOk result (points_of script.new.commands ≡ points_of script.old.commands + 2000) }
    ensures hits { OnOk result (hits_of script.new.commands ≤ 256 * length script.new.commands) }
    ensures moved { OnOk result (draws.new ≡ after 6000 draws.old) }
{
    let update = Update::Thin(scan_points(alloc, draws, scan)?);
    push(script, Command::Change { caller: 1, update })?;
    push(script, question(1, scan, None))?;
    push(script, question(2, scan, Some(WITHIN)))?;
    push_deletions(alloc, script, scan)?;
    push(script, Command::Sync)
}

fn scan_points(alloc: Global, draws: &mut Draws, scan: u32) -> Result<Points, NoMemory>
    requires { scan < 200 }
    ensures points { IfOk result (λ ps. ps ≡ points_of_draws scan (next_draws 6000 draws.old)) }
    ensures many { IfOk result (λ ps. length ps ≡ 2000) }
    ensures places { IfOk result (AllByRecursion (IsScannedPlace One)) }
    ensures moved { OnOk result (draws.new ≡ after 6000 draws.old) }
{
    let mut points = Points::new(alloc);
    for _ in 0..POINTS {
        points.push(draws.point(scan))?;
    }
    Ok(points)
}

fn question(caller: u8, scan: u32, within: Option<u64>) -> Command
    requires caller { IsCaller caller }
    requires scan { scan < 200 }
    requires within { ForSome within (λ r. r ≤ 4000000000) }
    ensures value { result ≡ Command.Near caller 5 (robot scan) within }
    ensures lawful { IsCommand One result }
{
    let point = point_at(1_000 * scan as i64, 0, 0);
    Command::Near {
        caller,
        k: K,
        point,
        within,
    }
}

fn push_deletions(alloc: Global, script: &mut Script, scan: u32) -> Result<(), NoMemory>
    requires format { script.old.format ≡ One }
    requires scan { scan < 200 }
    requires commands { length script.old.commands < MAX_COMMANDS }
    requires room { points_of script.old.commands ≤ MAX_POINTS }
    requires hits { hits_of script.old.commands ≤ 256 * length script.old.commands }
    ensures format { OnOk result (script.new.format ≡ One) }
    ensures sizes { OnOk result (script.new.sizes ≡ script.old.sizes) }
    ensures commands { OnOk result (script.new.commands ≡ script.old.commands ++ deletions scan) }
    ensures count { OnOk result (length script.new.commands ≤ length script.old.commands + 1) }
    ensures points { OnOk result (points_of script.new.commands ≡ points_of script.old.commands) }
    ensures hits { OnOk result (hits_of script.new.commands ≤ 256 * length script.new.commands) }
{
    if scan % 10 != 9 {
        return Ok(());
    }
    let mut boxes = Cuboids::new(alloc);
    boxes.push(behind(scan))?;
    let update = Update::Delete(boxes);
    push(script, Command::Change { caller: 1, update })
}

// 30 to 60 metres behind the robot.
fn behind(scan: u32) -> Cuboid
    requires { scan < 200 }
    ensures value { result ≡ box_behind scan }
    ensures lawful { IsCallerBox One result }
{
    let x = 1_000 * scan as i64;
    let lo = Corner {
        x: x - 60_000,
        y: -30_000,
        z: -3_000,
    };
    let hi = Corner {
        x: x - 30_000,
        y: 30_001,
        z: 3_001,
    };
    match Cuboid::new(lo, hi) {
        Ok(cuboid) => cuboid,
        Err(_) => unreachable!(),
    }
}

fn push(script: &mut Script, command: Command) -> Result<(), NoMemory>
    requires format { script.old.format ≡ One }
    requires lawful { IsCommand One command }
    requires commands { length script.old.commands < MAX_COMMANDS }
    requires room { points_of script.old.commands + submitted command ≤ MAX_POINTS }
    requires hits { hits_of script.old.commands ≤ 256 * length script.old.commands }
    requires asks { asked command ≤ 256 }
    ensures format { OnOk result (script.new.format ≡ One) }
    ensures pushed { OnOk result (script.new ≡ with_command script.old command) }
    ensures count { OnOk result (length script.new.commands ≡ length script.old.commands + 1) }
    ensures points { OnOk result (points_of script.new.commands ≡ points_of script.old.commands + submitted command) }
    ensures hits { OnOk result (hits_of script.new.commands ≤ 256 * length script.new.commands) }
{
    // A fact: the script is in its limits.
    let _ = script.commands();
    script.push(command)
}
