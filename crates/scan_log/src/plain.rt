//! Scripts as they are run.
ghost use Rattle.std.specs.{Prelude.{◌≡◌, length, IfOk, OnOk, Some}, List.{AllByRecursion}};
ghost use Rattle.scan_log.specs.{declared.format.Format.TheVariants.{Two}, Scripts.{IsCommand, ScriptAt}, Plain.{IsPlainScript}};
ghost use Rattle.scan_log.specs.Poses.{left_by, no_regions, plain, plain_command, plain_script, posed, regions_after};

use crate::{Command, Format, Script};
use local_region::{Moved, Region, RegionRules};
use map_items::{Cuboids, NoMemory, Settings, Update};
use point_geom::Point;
use std::alloc::Global;
use std::marker::Model;

/// A script in which each pose is the change that it submits: the deletion of what leaves its caller's region.
#[derive(Drop)]
pub struct PlainScript {
    format: Format,
    settings: Settings,
    commands: Vec<Command>,
}

impl Model for PlainScript {
    ghost Value = { ScriptAt };

    ghost view = { λ s. record { format = s.format; sizes = s.settings; commands = s.commands.items } };

    ghost invariant = { λ s. IsPlainScript (record { format = s.format; sizes = s.settings; commands = s.commands.items }) };
}

impl PlainScript {
    /// Replaces each pose by its change. Takes memory for these changes alone. On `NoMemory` the script is dropped.
    pub fn of(alloc: Global, script: Script) -> Result<PlainScript, NoMemory>
        ensures { IfOk result (λ s. s ≡ plain_script script) }
    {
        let format = script.format();
        let settings = *script.settings();
        let commands = with_changes(alloc, script.into_commands())?;
        Ok(PlainScript {
            format,
            settings,
            commands,
        })
    }

    /// As `of`, on a copy, which takes about as much memory as the script.
    pub fn copied(alloc: Global, script: &Script) -> Result<PlainScript, NoMemory>
        ensures { IfOk result (λ s. s ≡ plain_script script.now) }
    {
        PlainScript::of(alloc, script.copy(alloc)?)
    }

    /// The version of the log.
    pub fn format(&self) -> Format
        ensures { result ≡ self.now.format }
    {
        self.format
    }

    /// The settings of the map.
    pub fn settings(&self) -> &Settings
        ensures { result.now ≡ self.now.sizes }
    {
        &self.settings
    }

    /// The commands, in the log's order.
    pub fn commands(&self) -> &[Command]
        ensures all { result.now ≡ self.now.commands }
        ensures limits { IsPlainScript self.now }
    {
        self.commands.as_slice()
    }
}

fn with_changes(alloc: Global, commands: Vec<Command>) -> Result<Vec<Command>, NoMemory>
    requires { AllByRecursion (IsCommand Two) commands.items }
    ensures { IfOk result (λ v. v.items ≡ plain commands.items) }
{
    let mut commands = commands;
    put_changes(alloc, commands.as_mut_slice())?;
    Ok(commands)
}

fn put_changes(alloc: Global, commands: &mut [Command]) -> Result<(), NoMemory>
    requires { AllByRecursion (IsCommand Two) commands.old }
    ensures { OnOk result (commands.new ≡ plain commands.old) }
{
    let mut regions = no_regions(alloc)?;
    for command in commands.iter_mut() {
        put_change(alloc, regions.as_mut_slice(), command)?;
    }
    Ok(())
}

// No caller has a region yet.
fn no_regions(alloc: Global) -> Result<Vec<Option<Region>>, NoMemory>
    ensures { IfOk result (λ v. v.items ≡ no_regions) }
{
    let mut regions = Vec::new(alloc);
    regions.resize(8, None)?;
    Ok(regions)
}

// Replaces a pose by its change. `regions` are those of callers 1 to 8; it moves its caller's.
fn put_change(
    alloc: Global,
    regions: &mut [Option<Region>],
    command: &mut Command,
) -> Result<(), NoMemory>
    requires good { IsCommand Two command.old }
    requires eight { length regions.old ≡ 8 }
    ensures value { OnOk result (command.new ≡ plain_command regions.old command.old) }
    ensures regions { OnOk result (regions.new ≡ regions_after regions.old command.old) }
    ensures eight { length regions.new ≡ 8 }
{
    let Command::Pose {
        caller,
        rules,
        point,
    } = command
    else {
        return Ok(());
    };
    let caller = *caller;
    let boxes = left_at(alloc, &mut regions[caller as usize - 1], *rules, point)?;
    *command = Command::Change {
        caller,
        update: Update::Delete(boxes),
    };
    Ok(())
}

// Moves a caller's region, or begins it, and returns what leaves it.
fn left_at(
    alloc: Global,
    region: &mut Option<Region>,
    rules: RegionRules,
    p: &Point,
) -> Result<Cuboids, NoMemory>
    ensures region { OnOk result (region.new ≡ Some (posed region.old rules p.now)) }
    ensures left { IfOk result (λ boxes. boxes ≡ left_by region.old rules p.now) }
{
    if let Some(old) = *region {
        if *old.rules() == rules {
            let Moved {
                region: new,
                removed,
            } = old.moved(alloc, p)?;
            *region = Some(new);
            return Ok(removed);
        }
    }
    *region = Some(Region::begin(rules, p));
    Ok(Cuboids::new(alloc))
}
