//! The clap command of a row of the table.

ghost use Rattle.std.specs.Prelude.{◌≡◌, ◌∷◌, [], IfOk, IfErr, List, map, true, false};
ghost use Rattle.clap.specs.Simple.{app_of};
ghost use Rattle.clap.specs.Words.{rule_of, kind_of};
ghost use Rattle.command_line.specs.Given.{Item};
ghost use Rattle.command_line.specs.Clean.{are_clean};
ghost use Rattle.command_line.specs.Matched.{HasItems};
ghost use Rattle.command_line.specs.Apps as apps;
ghost use Rattle.command_line.specs.Table.{row_of, IsGiven};
ghost use Rattle.command_line.specs.Matched.{IsRead};

use crate::command_name::CommandName;
use clap::error::ErrorKind;
use clap::{Arg, ArgAction, ArgMatches, Command, Error};
use std::alloc::{AllocError, Global};
use std::convert::AsStr;

fn first_command<'a>(alloc: Global, name: &'a str) -> Command<'a>
    ensures { app_of result ≡ apps.first_app name.entry.now }
{
    Command::new(alloc, name)
        .no_binary_name(true)
        .disable_help_flag(true)
        .disable_version_flag(true)
}

fn option_arg<'a>(alloc: Global, name: &'a str, required: bool) -> Arg<'a>
    ensures rule { rule_of result ≡ apps.option_arg name.entry.now required }
    ensures local { result.global ≡ false }
{
    Arg::new(alloc, name)
        .long(name)
        .action(ArgAction::Set)
        .required(required)
}

fn file_arg<'a>(alloc: Global) -> Arg<'a>
    ensures rule { rule_of result ≡ apps.file_arg }
    ensures local { result.global ≡ false }
{
    Arg::new(alloc, "FILE")
        .action(ArgAction::Append)
        .required(true)
}

fn with_option<'a>(
    alloc: Global,
    command: Command<'a>,
    name: &'a str,
    required: bool,
) -> Result<Command<'a>, AllocError>
    ensures { IfOk result (λ c. app_of c ≡ apps.with_options required (name.entry.now ∷ []) (app_of command.entry)) }
{
    command.arg(option_arg(alloc, name, required))
}

fn with_files<'a>(alloc: Global, command: Command<'a>) -> Result<Command<'a>, AllocError>
    ensures { IfOk result (λ c. app_of c ≡ apps.with_files true (app_of command.entry)) }
{
    command.arg(file_arg(alloc))
}

fn with_options<'a>(
    alloc: Global,
    command: Command<'a>,
    names: &'static [&'static str],
    required: bool,
) -> Result<Command<'a>, AllocError>
    ensures { IfOk result (λ c. app_of c ≡ apps.with_options required (map (λ s. s.now) names.now) (app_of command.entry)) }
{
    let mut command = command;
    for name in names {
        command = with_option(alloc, command, *name, required)?;
    }
    Ok(command)
}

fn with_names<'a>(
    alloc: Global,
    command: Command<'a>,
    takes: bool,
) -> Result<Command<'a>, AllocError>
    ensures { IfOk result (λ c. app_of c ≡ apps.with_files takes (app_of command.entry)) }
{
    if takes {
        with_files(alloc, command)
    } else {
        Ok(command)
    }
}

/// The clap command of a command.
pub(super) fn command_of<'a>(alloc: Global, which: CommandName) -> Result<Command<'a>, AllocError>
    ensures { IfOk result (λ c. app_of c ≡ apps.app_with (row_of which)) }
{
    let name: &'a str = which.name();
    let first: Command<'a> = first_command(alloc, name);
    let required = with_options(alloc, first, which.required(), true)?;
    let options = with_options(alloc, required, which.optional(), false)?;
    with_names(alloc, options, which.takes_names())
}

/// What clap makes of the words behind a command's name.
pub fn matched<'a, S: AsStr>(
    alloc: Global,
    which: CommandName,
    words: &'a [S],
) -> Result<ArgMatches<'a>, Error>
    ensures err { IfErr result (λ e. (items : List Item) → IsGiven (row_of which) (map S.text words.entry.now) items → kind_of e ≡ ErrorKind.OutOfMemory) }
    ensures ok { IfOk result (λ m. (items : List Item) → IsGiven (row_of which) (map S.text words.entry.now) items → HasItems m items) }
    ensures back { IfOk result (λ m. are_clean (map S.text words.entry.now) ≡ true
        → (items : List Item) × IsRead (row_of which) (map S.text words.entry.now) items × HasItems m items) }
{
    let command = command_of(alloc, which)?;
    command.try_get_matches_from(words)
}
