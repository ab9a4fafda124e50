//! The command that is given to clap: a required subcommand for each line of the usage text. Its own help is clap's.
ghost use Rattle.std.specs.Prelude.{◌≡◌, [], ◌∷◌, codes, false, IfOk};
ghost use Rattle.clap.specs.Words.{new_app, rule_of};
ghost use Rattle.command_line.specs.App.{name, size, number, depth, search_depth, most, workers, file, flag, name_rule, option_rule, check_app, replay_app, verify_app, demo_app, climb_app, reduce_app, batch_app, sec_app, part_rule, with_parts, subcommand_app, AreArgsOf, AreCommandsOf, IsCommand};

use crate::command::{MOST_DEPTH, MOST_SEARCH_DEPTH, MOST_SIZE, MOST_WORKERS};
use clap::builder::ValueParser;
use clap::{Arg, ArgAction, Command};
use std::alloc::{AllocError, Global};

// A word that has to be there.
fn name_arg<'a>(alloc: Global, id: &'a str) -> Arg<'a>
    ensures rule { rule_of result ≡ name_rule (name id.entry.now) }
    ensures local { result.global ≡ false }
{
    Arg::new(alloc, id).required(true).action(ArgAction::Set)
}

// The size of a demo, which has to be there.
fn size_arg<'a>(alloc: Global) -> Arg<'a>
    ensures rule { rule_of result ≡ name_rule size }
    ensures local { result.global ≡ false }
{
    name_arg(alloc, "N").value_parser(ValueParser::unsigned(0, MOST_SIZE as u64))
}

// An option with a number from 1 on.
fn number_arg<'a>(alloc: Global, id: &'a str, letter: char, most: u32) -> Arg<'a>
    ensures rule { rule_of result ≡ option_rule (number id.entry.now letter most []) }
    ensures local { result.global ≡ false }
{
    Arg::new(alloc, id)
        .short(letter)
        .action(ArgAction::Set)
        .value_parser(ValueParser::unsigned(1, most as u64))
}

// The depth of the induction.
fn depth_arg<'a>(alloc: Global) -> Arg<'a>
    ensures rule { rule_of result ≡ option_rule depth }
    ensures local { result.global ≡ false }
{
    number_arg(alloc, "k", 'k', MOST_DEPTH).default_value("1")
}

// In how many frames a difference is looked for.
fn search_depth_arg<'a>(alloc: Global) -> Arg<'a>
    ensures rule { rule_of result ≡ option_rule search_depth }
    ensures local { result.global ≡ false }
{
    number_arg(alloc, "d", 'd', MOST_SEARCH_DEPTH)
}

// The greatest depth of the induction that is tried.
fn most_arg<'a>(alloc: Global) -> Arg<'a>
    ensures rule { rule_of result ≡ option_rule most }
    ensures local { result.global ≡ false }
{
    number_arg(alloc, "m", 'm', MOST_DEPTH)
}

// How many workers are asked for.
fn workers_arg<'a>(alloc: Global) -> Arg<'a>
    ensures rule { rule_of result ≡ option_rule workers }
    ensures local { result.global ≡ false }
{
    number_arg(alloc, "j", 'j', MOST_WORKERS).default_value("1")
}

// An option with the name of a file.
fn file_arg<'a>(alloc: Global, id: &'a str) -> Arg<'a>
    ensures rule { rule_of result ≡ option_rule (file id.entry.now) }
    ensures local { result.global ≡ false }
{
    Arg::new(alloc, id).long(id).action(ArgAction::Set)
}

fn flag_arg<'a>(alloc: Global, id: &'a str) -> Arg<'a>
    ensures rule { rule_of result ≡ option_rule (flag id.entry.now) }
    ensures local { result.global ≡ false }
{
    Arg::new(alloc, id).long(id).action(ArgAction::SetTrue)
}

// A name or an option of a command.
#[derive(Clone, Copy)]
enum Part<'a> {
    Name(&'a str),
    Size,
    Depth,
    SearchDepth,
    Most,
    Workers,
    Flag(&'a str),
    File(&'a str),
}

fn part_arg<'a>(alloc: Global, part: Part<'a>) -> Arg<'a>
    ensures rule { rule_of result ≡ part_rule part.entry }
    ensures local { result.global ≡ false }
{
    match part {
        Part::Name(id) => name_arg(alloc, id),
        Part::Size => size_arg(alloc),
        Part::Depth => depth_arg(alloc),
        Part::SearchDepth => search_depth_arg(alloc),
        Part::Most => most_arg(alloc),
        Part::Workers => workers_arg(alloc),
        Part::Flag(id) => flag_arg(alloc, id),
        Part::File(id) => file_arg(alloc, id),
    }
}

// The arguments of these parts.
fn args_of<'a>(alloc: Global, parts: &[Part<'a>]) -> Result<Vec<Arg<'a>>, AllocError>
    ensures { IfOk result (λ args. AreArgsOf args.items parts.entry.now) }
{
    let mut args = Vec::new(alloc);
    for at in 0..parts.len() {
        args.push(part_arg(alloc, parts[at]))?;
    }
    Ok(args)
}

// The command of these parts.
fn command_of<'a>(
    alloc: Global,
    name: &'a str,
    parts: &[Part<'a>],
) -> Result<Command<'a>, AllocError>
    ensures { IfOk result (IsCommand (with_parts (new_app name.entry.now) parts.entry.now)) }
{
    let args = args_of(alloc, parts)?;
    Command::new(alloc, name).args(args)
}

fn check_command<'a>(alloc: Global) -> Result<Command<'a>, AllocError>
    ensures { IfOk result (IsCommand check_app) }
{
    command_of(
        alloc,
        "check",
        &[
            Part::Name("LEFT"),
            Part::Name("RIGHT"),
            Part::Depth,
            Part::SearchDepth,
            Part::Workers,
            Part::Flag("classes"),
            Part::Flag("stats"),
            Part::File("trace"),
            Part::File("cert"),
            Part::Flag("tie"),
            Part::Flag("least"),
        ],
    )
}

fn replay_command<'a>(alloc: Global) -> Result<Command<'a>, AllocError>
    ensures { IfOk result (IsCommand replay_app) }
{
    command_of(
        alloc,
        "replay",
        &[
            Part::Name("LEFT"),
            Part::Name("RIGHT"),
            Part::Name("TRACE"),
            Part::Flag("tie"),
        ],
    )
}

fn verify_command<'a>(alloc: Global) -> Result<Command<'a>, AllocError>
    ensures { IfOk result (IsCommand verify_app) }
{
    command_of(
        alloc,
        "verify",
        &[
            Part::Name("LEFT"),
            Part::Name("RIGHT"),
            Part::Name("CERT"),
            Part::Flag("tie"),
        ],
    )
}

fn demo_command<'a>(alloc: Global) -> Result<Command<'a>, AllocError>
    ensures { IfOk result (IsCommand demo_app) }
{
    command_of(alloc, "demo", &[Part::Size, Part::Depth, Part::Workers])
}

fn climb_command<'a>(alloc: Global) -> Result<Command<'a>, AllocError>
    ensures { IfOk result (IsCommand climb_app) }
{
    command_of(
        alloc,
        "climb",
        &[
            Part::Name("LEFT"),
            Part::Name("RIGHT"),
            Part::Most,
            Part::Workers,
            Part::Flag("least"),
        ],
    )
}

fn reduce_command<'a>(alloc: Global) -> Result<Command<'a>, AllocError>
    ensures { IfOk result (IsCommand reduce_app) }
{
    command_of(
        alloc,
        "reduce",
        &[
            Part::Name("NET"),
            Part::Name("OUT"),
            Part::Depth,
            Part::Workers,
            Part::Flag("binary"),
        ],
    )
}

fn batch_command<'a>(alloc: Global) -> Result<Command<'a>, AllocError>
    ensures { IfOk result (IsCommand batch_app) }
{
    command_of(
        alloc,
        "batch",
        &[Part::Name("LIST"), Part::Depth, Part::Workers],
    )
}

// The subcommands, one for each line of the usage text.
#[derive(Clone, Copy)]
pub(crate) enum Subcommand {
    Check,
    Replay,
    Verify,
    Demo,
    Climb,
    Reduce,
    Batch,
}

fn command_named<'a>(alloc: Global, named: Subcommand) -> Result<Command<'a>, AllocError>
    ensures { IfOk result (IsCommand (subcommand_app named)) }
{
    match named {
        Subcommand::Check => check_command(alloc),
        Subcommand::Replay => replay_command(alloc),
        Subcommand::Verify => verify_command(alloc),
        Subcommand::Demo => demo_command(alloc),
        Subcommand::Climb => climb_command(alloc),
        Subcommand::Reduce => reduce_command(alloc),
        Subcommand::Batch => batch_command(alloc),
    }
}

// The commands of these subcommands.
fn commands_of<'a>(alloc: Global, all: &[Subcommand]) -> Result<Vec<Command<'a>>, AllocError>
    ensures { IfOk result (λ commands. AreCommandsOf commands.items all.now) }
{
    let mut commands = Vec::new(alloc);
    for at in 0..all.len() {
        commands.push(command_named(alloc, all[at])?)?;
    }
    Ok(commands)
}

/// The whole command.
pub(crate) fn sec_command<'a>(alloc: Global) -> Result<Command<'a>, AllocError>
    ensures { IfOk result (IsCommand sec_app) }
{
    let subcommands = commands_of(
        alloc,
        &[
            Subcommand::Check,
            Subcommand::Replay,
            Subcommand::Verify,
            Subcommand::Demo,
            Subcommand::Climb,
            Subcommand::Reduce,
            Subcommand::Batch,
        ],
    )?;
    Command::new(alloc, "sec")
        .subcommand_required(true)
        .subcommands(subcommands)
}
