ghost use Rattle.std.specs.Prelude.{◌≡◌, ◌≢◌, [], IfOk, map, string_bytes, Err};
ghost use Rattle.clap.specs.Words.{app_of, with_rule, rows_of, found_of, matches_of, fault_of};
ghost use Rattle.clap.specs.declared.builder.command.Command.TheViews.{out-Command as fields_of};
ghost use Rattle.fd_command.specs.ClapCommand.{the_app, new_command, value_rule, flag_rule, source_rule};

use crate::request::Refused;
use clap::error::ErrorKind;
use clap::{Arg, ArgAction, ArgMatches, Command};
use std::alloc::{AllocError, Global};

/// A command with one argument more, where there is memory.
type More<'a> = Result<Command<'a>, AllocError>;

/// Adds an option with one value.
fn with_value<'a>(alloc: Global, command: Command<'a>, name: &'a str) -> More<'a>
    ensures { IfOk result (λ c. app_of c ≡ with_rule (app_of command.entry) (value_rule name.entry.now)) }
{
    let arg = Arg::new(alloc, name).long(name).action(ArgAction::Set);
    command.arg(arg)
}

/// Adds an option without a value.
fn with_flag<'a>(alloc: Global, command: Command<'a>, name: &'a str) -> More<'a>
    ensures { IfOk result (λ c. app_of c ≡ with_rule (app_of command.entry) (flag_rule name.entry.now)) }
{
    let arg = Arg::new(alloc, name).long(name).action(ArgAction::SetTrue);
    command.arg(arg)
}

/// Adds the source.
fn with_source<'a>(alloc: Global, command: Command<'a>) -> More<'a>
    ensures { IfOk result (λ c. app_of c ≡ with_rule (app_of command.entry) source_rule) }
{
    let arg = Arg::new(alloc, "source").action(ArgAction::Set);
    command.arg(arg)
}

/// A command without options, help and version.
fn bare_command<'a>(alloc: Global) -> Command<'a>
    ensures { app_of result ≡ new_command }
{
    Command::new(alloc, "chaosplay")
        .no_binary_name(true)
        .disable_help_flag(true)
        .disable_version_flag(true)
}

/// The command of the program.
fn command<'a>(alloc: Global) -> More<'a>
    ensures { IfOk result (λ c. app_of c ≡ the_app) }
{
    let command = bare_command(alloc);
    let command = with_value(alloc, command, "nodes")?;
    let command = with_value(alloc, command, "iterations")?;
    let command = with_value(alloc, command, "mesh")?;
    let command = with_value(alloc, command, "size")?;
    let command = with_value(alloc, command, "turns")?;
    let command = with_flag(alloc, command, "report")?;
    let command = with_flag(alloc, command, "plain")?;
    with_source(alloc, command)
}

/// What clap makes of the words.
pub fn parsed<'a>(alloc: Global, words: &'a [String]) -> Result<ArgMatches<'a>, Refused>
    ensures rows { IfOk result (λ m. rows_of (found_of m) ≡ matches_of the_app (map string_bytes words.entry.now)) }
    ensures taken { IfOk result (λ m. fault_of the_app (map string_bytes words.entry.now) ≡ []) }
    ensures refused { result ≡ Err Refused.NotTaken → fault_of the_app (map string_bytes words.entry.now) ≢ [] }
{
    let Ok(command) = command(alloc) else {
        return Err(Refused::Memory);
    };
    match command.try_get_matches_from(words) {
        Ok(matches) => Ok(matches),
        Err(error) => {
            if error.kind() == ErrorKind::OutOfMemory {
                Err(Refused::Memory)
            } else {
                Err(Refused::NotTaken)
            }
        }
    }
}
