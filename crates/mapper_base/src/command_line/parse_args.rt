//! What `clap` reads from the words.
ghost use Rattle.std.specs.Prelude.{◌≡◌, false, codes, Some, IfSome, IfOk, ◌∷◌, map};
ghost use Rattle.clap.specs.Words.{app_of, found_of, one_text, subcommand_of, subcommand_rows_of, with_subcommand};
ghost use Rattle.clap.specs.declared.builder.command.Command.TheViews.{out-Command as fields_of};
ghost use Rattle.mapper_base.specs.declared.command_line.words.Ask.{Ask};
ghost use Rattle.mapper_base.specs.declared.command_line.words.Ask.TheVariants as asks;
ghost use Rattle.mapper_base.specs.{Asks.{CanBeDone, spelled}, CommandLine.{IsParsed, IsMatch, mapper, numbered, run}};

use crate::command_line::spelling::{length_of, scans_of};
use crate::command_line::words::Ask;
use clap::error::ErrorKind;
use clap::{Arg, ArgAction, ArgMatches, Command};
use std::alloc::{AllocError, Global};

/// `clap`'s reading of the words, of which the first is the program's name. `None` where it refuses them; its texts are dropped.
pub fn parsed(alloc: Global, argv: &[&str]) -> Result<Option<Ask>, AllocError>
    ensures can_be_done { IfOk result (λ r. IfSome r CanBeDone) }
    ensures parsed { (a : Ask) → CanBeDone a → map (λ w. w.now) argv.now ≡ codes "mapper" ∷ spelled a → IfOk result (λ r. IsParsed r (spelled a)) }
{
    let command = command_line(alloc)?;
    match command.try_get_matches_from(argv) {
        Ok(matches) => Ok(matched_in(&matches)),
        Err(error) => {
            if error.kind() == ErrorKind::OutOfMemory {
                Err(AllocError)
            } else {
                Ok(None)
            }
        }
    }
}

fn matched_in(matches: &ArgMatches<'_>) -> Option<Ask>
    ensures can_be_done { IfSome result CanBeDone }
    ensures parsed { (a : Ask) → CanBeDone a → subcommand_rows_of matches.now ≡ subcommand_of mapper (codes "mapper" ∷ spelled a) → IsParsed result (spelled a) }
{
    match matches.subcommand() {
        Some((name, inner)) => matched(name, inner),
        None => None,
    }
}

// `run`, `run --serial`, `make n`, `drive n` and `check n`.
fn command_line<'a>(alloc: Global) -> Result<Command<'a>, AllocError>
    ensures { IfOk result (λ c. app_of c ≡ mapper) }
{
    let run = run_command(alloc)?;
    let command = Command::new(alloc, "mapper").subcommand(run)?;
    let command = with_numbered(alloc, command, "make")?;
    let command = with_numbered(alloc, command, "drive")?;
    with_numbered(alloc, command, "check")
}

fn run_command<'a>(alloc: Global) -> Result<Command<'a>, AllocError>
    ensures app { IfOk result (λ c. app_of c ≡ run) }
    ensures local { IfOk result (λ c. (fields_of c).has_globals ≡ false) }
{
    let serial = Arg::new(alloc, "serial")
        .long("serial")
        .action(ArgAction::SetTrue);
    Command::new(alloc, "run").arg(serial)
}

fn with_numbered<'a>(
    alloc: Global,
    command: Command<'a>,
    name: &'a str,
) -> Result<Command<'a>, AllocError>
    ensures { IfOk result (λ c. app_of c ≡ with_subcommand (app_of command.entry) (numbered name.now).top) }
{
    let number = numbered(alloc, name)?;
    command.subcommand(number)
}

fn numbered<'a>(alloc: Global, name: &'a str) -> Result<Command<'a>, AllocError>
    ensures app { IfOk result (λ c. app_of c ≡ numbered name.now) }
    ensures local { IfOk result (λ c. (fields_of c).has_globals ≡ false) }
{
    let number = Arg::new(alloc, "n").action(ArgAction::Set);
    Command::new(alloc, name).arg(number)
}

fn matched(name: &str, inner: &ArgMatches<'_>) -> Option<Ask>
    ensures can_be_done { IfSome result CanBeDone }
    ensures parsed { (a : Ask) → CanBeDone a → IsMatch a name.now (found_of inner.now) → IsParsed result (spelled a) }
{
    if name == "run" {
        return Some(run_of(inner));
    }
    let Some(number) = inner.get_str("n") else {
        return None;
    };
    if name == "make" {
        return Some(Ask::Make(scans_of(number)?));
    }
    if name == "drive" {
        return Some(Ask::Drive(scans_of(number)?));
    }
    if name == "check" {
        return Some(Ask::Check(length_of(number)?));
    }
    None
}

fn run_of(inner: &ArgMatches<'_>) -> Ask
    ensures can_be_done { CanBeDone result }
    ensures serial { one_text (found_of inner.now) (codes "serial") ≡ Some (codes "true") → result ≡ asks.Serial }
    ensures plain { one_text (found_of inner.now) (codes "serial") ≡ Some (codes "false") → result ≡ asks.Run }
{
    if inner.get_flag("serial") {
        Ask::Serial
    } else {
        Ask::Run
    }
}
