//! Scripts: what is in a log.
ghost use Rattle.std.specs.{Prelude.{◌≡◌, [], OnOk, OnErr, IfOk}, List.{AllByRecursion}};
ghost use Rattle.scan_log.specs.{declared.format.Format.TheVariants.{Two}, Scripts.{IsCommand, IsScript, ScriptAt, with_command}};

use crate::{Command, Format};
use map_items::{NoMemory, Settings};
use std::alloc::Global;
use std::marker::Model;

/// A version, settings, and commands in order, within the limits of a log.
#[derive(Drop)]
pub struct Script {
    format: Format,
    settings: Settings,
    commands: Vec<Command>,
}

impl Model for Script {
    ghost Value = { ScriptAt };

    ghost view = { λ s. record { format = s.format; sizes = s.settings; commands = s.commands.items } };

    ghost invariant = { λ s. IsScript (record { format = s.format; sizes = s.settings; commands = s.commands.items }) };
}

impl Script {
    /// A script of no commands, which takes no memory.
    pub fn new(alloc: Global, format: Format, settings: Settings) -> Script
        ensures value { result ≡ record { format = format; sizes = settings; commands = [] } }
        ensures limits { IsScript result }
    {
        // A fact: the settings are in their limits.
        let _ = settings.voxel();
        Script {
            format,
            settings,
            commands: Vec::new(alloc),
        }
    }

    /// The version of the log that it is read from or written to.
    pub fn format(&self) -> Format
        ensures { result ≡ self.now.format }
    {
        self.format
    }

    /// The settings of the map.
    pub fn settings(&self) -> &Settings
        ensures { result.now ≡ self.now.sizes }
    {
        &self.settings
    }

    /// The commands, in the log's order.
    pub fn commands(&self) -> &[Command]
        ensures all { result.now ≡ self.now.commands }
        ensures limits { IsScript self.now }

        // What version 1 allows, version 2 allows.
        ensures wide { AllByRecursion (IsCommand Two) result.now }
    {
        self.commands.as_slice()
    }

    /// Appends a command. Points have the intensity 0, except those that are added or thinned in version 2. On `NoMemory` the
    /// script stays as it was.
    pub fn push(&mut self, command: Command) -> Result<(), NoMemory>
        requires { IsScript (with_command self.old command) }
        ensures ok { OnOk result (self.new ≡ with_command self.old command) }
        ensures err { OnErr result (self.new ≡ self.old) }
    {
        self.commands.push(command)?;
        Ok(())
    }

    /// An equal script, with memory of its own.
    pub fn copy(&self, alloc: Global) -> Result<Script, NoMemory>
        ensures { IfOk result (λ copy. copy ≡ self.now) }
    {
        let commands = copies(alloc, self.commands.as_slice())?;
        Ok(Script {
            format: self.format,
            settings: self.settings,
            commands,
        })
    }

    pub(crate) fn into_commands(self) -> Vec<Command>
        ensures all { result.items ≡ self.commands }
        ensures limits { IsScript self }
        ensures wide { AllByRecursion (IsCommand Two) result.items }
    {
        self.commands
    }
}

fn copies(alloc: Global, commands: &[Command]) -> Result<Vec<Command>, NoMemory>
    ensures { IfOk result (λ copies. copies.items ≡ commands.now) }
{
    let mut copies = Vec::with_capacity(alloc, commands.len())?;
    for command in commands {
        copies.push(command.copy(alloc)?)?;
    }
    Ok(copies)
}
