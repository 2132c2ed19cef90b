//! Writing a script as a log.
ghost use Rattle.std.specs.{Prelude.{◌≡◌, ◌+◌, [], ◌∷◌, ◌++◌, length, codes, decimal, IfOk, OnOk}, List.{flat_map}};
ghost use Rattle.scan_log.specs.{Formats.{version_field}, Faults.{line_feeds}};
ghost use Rattle.scan_log.specs.Spelling.{Spells, box_fields, caller_field, command_fields, header_fields, point_fields, update_fields, within_fields};
ghost use Rattle.scan_log.specs.{Transcript.{all_spaced, spaced}, Written.{command_text, corner_text, cuboid_text, joined_fields, written_line, script_text}};

use crate::append::{
    Listed, put, put_all, put_caller, put_head, put_named, put_point, put_spaced, put_three,
    put_word,
};
use crate::{Command, Format, Script};
use local_region::RegionRules;
use map_items::{NoMemory, Settings, Update};
use point_geom::{Corner, Cuboid, Point};
use std::alloc::Global;

/// The log of the script: its header, and a line for each command. A deletion is written with its boxes, whichever way it was
/// spelled. Costs time and memory by the log's length, which may exceed what a program reads.
pub fn write_script(alloc: Global, script: &Script) -> Result<Vec<u8>, NoMemory>
    ensures text { IfOk result (λ log. log.items ≡ script_text script.now) }

    // So it is read as an equal script, and has few enough line feeds to be read.
    ensures spells { IfOk result (λ log. Spells log.items script.now) }
    ensures lines { IfOk result (λ log. line_feeds log.items ≡ length script.now.commands + 1) }
{
    let mut log = Vec::new(alloc);
    let format = script.format();
    put_header(&mut log, format, script.settings())?;
    put_all(&mut log, format, script.commands())?;
    Ok(log)
}

/// Appends a log's header, with its line feed. On `NoMemory` maybe a part of it.
pub fn write_header(out: &mut Vec<u8>, format: Format, settings: &Settings) -> Result<(), NoMemory>
    ensures { OnOk result (out.new.items ≡ out.old.items ++ written_line (header_fields format settings.now)) }
{
    put_header(out, format, settings)
}

/// Appends the command's line, as a log of this version has it. On `NoMemory` maybe a part of it.
pub fn write_command(out: &mut Vec<u8>, format: Format, command: &Command) -> Result<(), NoMemory>
    ensures { OnOk result (out.new.items ≡ out.old.items ++ command_text format command.now) }
{
    command.put(out, format)
}

fn put_header(out: &mut Vec<u8>, format: Format, settings: &Settings) -> Result<(), NoMemory>
    ensures { OnOk result (out.new.items ≡ out.old.items ++ written_line (header_fields format settings.now)) }
{
    put(out, program_of(format))?;
    put_named(out, b"voxel", settings.voxel())?;
    put_named(out, b"large", settings.large())?;
    put(out, b"\n")
}

fn program_of(format: Format) -> &'static [u8]
    ensures { result.now ≡ codes "ikdmap" ++ spaced (version_field format) }
{
    match format {
        Format::One => b"ikdmap 1",
        Format::Two => b"ikdmap 2",
    }
}

impl Listed for Command {
    ghost use Rattle.scan_log.specs.Written.{command_text};

    ghost text = { command_text };

    fn put(&self, out: &mut Vec<u8>, format: Format) -> Result<(), NoMemory> {
        put_command(out, format, self)?;
        put(out, b"\n")
    }
}

// Without the line feed.
fn put_command(out: &mut Vec<u8>, format: Format, command: &Command) -> Result<(), NoMemory>
    ensures { OnOk result (out.new.items ≡ out.old.items ++ joined_fields (command_fields format command.now)) }
{
    match command {
        Command::Change { caller, update } => {
            put_caller(out, *caller)?;
            put_update(out, format, update)
        }
        Command::Near {
            caller,
            k,
            point,
            within,
        } => put_near(out, *caller, *k, point, *within),
        Command::Nears { caller, k, points } => put_nears(out, *caller, *k, points.as_slice()),
        Command::Inside { caller, k, cuboid } => put_inside(out, *caller, *k, cuboid),
        Command::Ball {
            caller,
            k,
            r,
            point,
        } => put_ball(out, *caller, *k, *r, point),
        Command::Lonely { caller, k, r } => put_reach(out, *caller, b"lonely", *k, *r),
        Command::Clusters { caller, k, r } => put_reach(out, *caller, b"clusters", *k, *r),
        Command::Pose {
            caller,
            rules,
            point,
        } => put_pose(out, *caller, rules, point),
        Command::Sync => put(out, b"sync"),
    }
}

fn put_near(
    out: &mut Vec<u8>,
    caller: u8,
    k: u32,
    point: &Point,
    within: Option<u64>,
) -> Result<(), NoMemory>
    ensures { OnOk result (out.new.items ≡ out.old.items ++ joined_fields (caller_field caller ∷ codes "near" ∷ decimal k ∷ (point_fields point.now ++ within_fields within))) }
{
    put_head(out, caller, b"near", k)?;
    put_point(out, point)?;
    put_within(out, within)
}

// A place is written as a point of version 1, which has no intensity.
fn put_nears(out: &mut Vec<u8>, caller: u8, k: u32, points: &[Point]) -> Result<(), NoMemory>
    ensures { OnOk result (out.new.items ≡ out.old.items ++ joined_fields (caller_field caller ∷ codes "nears" ∷ decimal k ∷ flat_map point_fields points.now)) }
{
    put_head(out, caller, b"nears", k)?;
    put_all(out, Format::One, points)
}

fn put_inside(out: &mut Vec<u8>, caller: u8, k: u32, cuboid: &Cuboid) -> Result<(), NoMemory>
    ensures { OnOk result (out.new.items ≡ out.old.items ++ joined_fields (caller_field caller ∷ codes "box" ∷ decimal k ∷ box_fields cuboid.now)) }
{
    put_head(out, caller, b"box", k)?;
    put_cuboid(out, cuboid)
}

fn put_ball(out: &mut Vec<u8>, caller: u8, k: u32, r: u64, point: &Point) -> Result<(), NoMemory>
    ensures { OnOk result (out.new.items ≡ out.old.items ++ joined_fields (caller_field caller ∷ codes "ball" ∷ decimal k ∷ decimal r ∷ point_fields point.now)) }
{
    put_reach(out, caller, b"ball", k, r)?;
    put_point(out, point)
}

// A count and a distance.
fn put_reach(out: &mut Vec<u8>, caller: u8, word: &[u8], k: u32, r: u64) -> Result<(), NoMemory>
    ensures { OnOk result (out.new.items ≡ out.old.items ++ joined_fields (caller_field caller ∷ word.now ∷ decimal k ∷ decimal r ∷ [])) }
{
    put_head(out, caller, word, k)?;
    put_spaced(out, r)
}

fn put_pose(
    out: &mut Vec<u8>,
    caller: u8,
    rules: &RegionRules,
    point: &Point,
) -> Result<(), NoMemory>
    ensures { OnOk result (out.new.items ≡ out.old.items ++ joined_fields (caller_field caller ∷ codes "pose" ∷ decimal rules.now.side ∷ decimal rules.now.ball ∷ decimal rules.now.step ∷ point_fields point.now)) }
{
    put_head(out, caller, b"pose", rules.side())?;
    put_spaced(out, rules.ball())?;
    put_spaced(out, rules.step())?;
    put_point(out, point)
}

#[tactic(auto, using(crate::proofs::WrittenLines::spaced_points, crate::proofs::WrittenLines::spaced_boxes))]
fn put_update(out: &mut Vec<u8>, format: Format, update: &Update) -> Result<(), NoMemory>
    ensures { OnOk result (out.new.items ≡ out.old.items ++ all_spaced (update_fields format update.now)) }
{
    match update {
        Update::Add(points) => put_several(out, format, b"add", points.as_slice()),
        Update::Thin(points) => put_several(out, format, b"thin", points.as_slice()),
        Update::Delete(boxes) => put_several(out, format, b"delete", boxes.as_slice()),
        Update::Suspend(boxes) => put_several(out, format, b"suspend", boxes.as_slice()),
        Update::Restore(boxes) => put_several(out, format, b"restore", boxes.as_slice()),
        Update::Expire(number) => put_named(out, b"expire", *number),
    }
}

fn put_several<T: Listed>(
    out: &mut Vec<u8>,
    format: Format,
    word: &[u8],
    items: &[T],
) -> Result<(), NoMemory>
    ensures { OnOk result (out.new.items ≡ out.old.items ++ (spaced word.now ++ flat_map (T.text format) items.now)) }
{
    put_word(out, word)?;
    put_all(out, format, items)
}

impl Listed for Point {
    ghost use Rattle.scan_log.specs.Transcript.{scanned_text};

    ghost text = { scanned_text };

    fn put(&self, out: &mut Vec<u8>, format: Format) -> Result<(), NoMemory> {
        put_point(out, self)?;
        match format {
            Format::One => Ok(()),
            Format::Two => put_spaced(out, self.intensity()),
        }
    }
}

impl Listed for Cuboid {
    ghost use Rattle.scan_log.specs.Written.{cuboid_text};

    ghost text = { λ _. cuboid_text };

    fn put(&self, out: &mut Vec<u8>, _format: Format) -> Result<(), NoMemory> {
        put_cuboid(out, self)
    }
}

fn put_cuboid(out: &mut Vec<u8>, cuboid: &Cuboid) -> Result<(), NoMemory>
    ensures { OnOk result (out.new.items ≡ out.old.items ++ cuboid_text cuboid.now) }
{
    put_corner(out, cuboid.lo())?;
    put_corner(out, cuboid.hi())
}

fn put_corner(out: &mut Vec<u8>, corner: Corner) -> Result<(), NoMemory>
    ensures { OnOk result (out.new.items ≡ out.old.items ++ corner_text corner) }
{
    put_three(out, corner.x, corner.y, corner.z)
}

fn put_within(out: &mut Vec<u8>, within: Option<u64>) -> Result<(), NoMemory>
    ensures { OnOk result (out.new.items ≡ out.old.items ++ all_spaced (within_fields within)) }
{
    match within {
        Some(distance) => put_named(out, b"within", distance),
        None => Ok(()),
    }
}
