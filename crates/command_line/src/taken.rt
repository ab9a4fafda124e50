//! The words as clap takes them: what its matches say becomes the command.
ghost use Rattle.std.specs.Prelude.{◌≡◌, ◌≤◌, List, IfErr, IfOk, IfSome, MatchResult, None, Some, false, option_map, true};
ghost use Rattle.clap.specs.Words.{Row, first_of, found_of, rows_of, subcommand_rows_of};
ghost use Rattle.command_line.specs.Asked.{asked_of, IsWithin, batch_of, check_of, climb_of, depth_from, demo_of, most_from, reduce_of, replay_of, verify_of};
ghost use Rattle.command_line.specs.Meant.{number_of, has_flag, values_matched, asked_under, asked_where_named, matched, is_taken, taken_command};
ghost use Rattle.command_line.specs.Plain.{texts};

use crate::app::{Subcommand, sec_command};
use crate::command::{
    Batch, Check, CheckOptions, Climb, Command, Demo, MOST_DEPTH, MOST_SEARCH_DEPTH, MOST_SIZE,
    MOST_WORKERS, Reduce, Replay, Verify, WordsFault,
};
use clap::ArgMatches;
use clap::error::ErrorKind;
use std::alloc::Global;

// The first text of an argument.
fn text_of<'w>(found: &ArgMatches<'w>, id: &str) -> Option<&'w str>
    ensures { option_map (λ s. s.now) result ≡ first_of id.now (rows_of (found_of found.now)) }
{
    found.get_str(id)
}

// The number of an option, within its limits.
fn number_of(found: &ArgMatches, id: &str, least: u32, most: u32) -> Option<u32>
    ensures number { result ≡ number_of id.now least most (rows_of (found_of found.now)) }
    ensures within { IfSome result (λ n. (least ≤ n) × (n ≤ most)) }
{
    let number = found.get_one::<u32>(id)?;
    if least <= number && number <= most {
        Some(number)
    } else {
        None
    }
}

// Whether a flag was there.
fn has_flag(found: &ArgMatches, id: &str) -> bool
    ensures { result ≡ has_flag id.now (rows_of (found_of found.now)) }
{
    match text_of(found, id) {
        Some(text) => text == "true",
        None => false,
    }
}

// In how many frames a difference is looked for: in the first k, or in more where as many are asked for.
fn depth_from(k: u32, asked: Option<u32>) -> u32
    ensures { result ≡ depth_from k asked }
{
    match asked {
        Some(depth) => depth.max(k),
        None => k,
    }
}

fn check_of<'w>(found: &ArgMatches<'w>) -> Option<Command<'w>>
    ensures command { option_map asked_of result ≡ check_of (values_matched (rows_of (found_of found.now))) }
    ensures within { IfSome result (λ c. IsWithin (asked_of c)) }
{
    let left = text_of(found, "LEFT")?;
    let right = text_of(found, "RIGHT")?;
    let k = number_of(found, "k", 1, MOST_DEPTH)?;
    let depth = depth_from(k, number_of(found, "d", 1, MOST_SEARCH_DEPTH));
    let workers = number_of(found, "j", 1, MOST_WORKERS)?;
    let options = CheckOptions {
        k,
        depth,
        workers,
        classes: has_flag(found, "classes"),
        stats: has_flag(found, "stats"),
        trace: text_of(found, "trace"),
        cert: text_of(found, "cert"),
        tied: has_flag(found, "tie"),
        least: has_flag(found, "least"),
    };
    Some(Command::Check(Check {
        left,
        right,
        options,
    }))
}

fn replay_of<'w>(found: &ArgMatches<'w>) -> Option<Command<'w>>
    ensures command { option_map asked_of result ≡ replay_of (values_matched (rows_of (found_of found.now))) }
    ensures within { IfSome result (λ c. IsWithin (asked_of c)) }
{
    let left = text_of(found, "LEFT")?;
    let right = text_of(found, "RIGHT")?;
    let trace = text_of(found, "TRACE")?;
    Some(Command::Replay(Replay {
        left,
        right,
        trace,
        tied: has_flag(found, "tie"),
    }))
}

fn verify_of<'w>(found: &ArgMatches<'w>) -> Option<Command<'w>>
    ensures command { option_map asked_of result ≡ verify_of (values_matched (rows_of (found_of found.now))) }
    ensures within { IfSome result (λ c. IsWithin (asked_of c)) }
{
    let left = text_of(found, "LEFT")?;
    let right = text_of(found, "RIGHT")?;
    let cert = text_of(found, "CERT")?;
    Some(Command::Verify(Verify {
        left,
        right,
        cert,
        tied: has_flag(found, "tie"),
    }))
}

fn demo_of<'w>(found: &ArgMatches<'w>) -> Option<Command<'w>>
    ensures command { option_map asked_of result ≡ demo_of (values_matched (rows_of (found_of found.now))) }
    ensures within { IfSome result (λ c. IsWithin (asked_of c)) }
{
    let n = number_of(found, "N", 0, MOST_SIZE)?;
    let k = number_of(found, "k", 1, MOST_DEPTH)?;
    let workers = number_of(found, "j", 1, MOST_WORKERS)?;
    Some(Command::Demo(Demo { n, k, workers }))
}

// The greatest depth of the induction that is tried.
fn most_from(asked: Option<u32>) -> u32
    ensures { result ≡ most_from asked }
{
    match asked {
        Some(most) => most,
        None => MOST_DEPTH,
    }
}

fn climb_of<'w>(found: &ArgMatches<'w>) -> Option<Command<'w>>
    ensures command { option_map asked_of result ≡ climb_of (values_matched (rows_of (found_of found.now))) }
    ensures within { IfSome result (λ c. IsWithin (asked_of c)) }
{
    let left = text_of(found, "LEFT")?;
    let right = text_of(found, "RIGHT")?;
    let most = most_from(number_of(found, "m", 1, MOST_DEPTH));
    let workers = number_of(found, "j", 1, MOST_WORKERS)?;
    let least = has_flag(found, "least");
    Some(Command::Climb(Climb {
        left,
        right,
        most,
        workers,
        least,
    }))
}

fn reduce_of<'w>(found: &ArgMatches<'w>) -> Option<Command<'w>>
    ensures command { option_map asked_of result ≡ reduce_of (values_matched (rows_of (found_of found.now))) }
    ensures within { IfSome result (λ c. IsWithin (asked_of c)) }
{
    let net = text_of(found, "NET")?;
    let out = text_of(found, "OUT")?;
    let depth = number_of(found, "k", 1, MOST_DEPTH)?;
    let workers = number_of(found, "j", 1, MOST_WORKERS)?;
    let binary = has_flag(found, "binary");
    Some(Command::Reduce(Reduce {
        net,
        out,
        k: depth,
        workers,
        binary,
    }))
}

fn batch_of<'w>(found: &ArgMatches<'w>) -> Option<Command<'w>>
    ensures command { option_map asked_of result ≡ batch_of (values_matched (rows_of (found_of found.now))) }
    ensures within { IfSome result (λ c. IsWithin (asked_of c)) }
{
    let list = text_of(found, "LIST")?;
    let k = number_of(found, "k", 1, MOST_DEPTH)?;
    let workers = number_of(found, "j", 1, MOST_WORKERS)?;
    Some(Command::Batch(Batch { list, k, workers }))
}

// The subcommand of this name.
fn named(name: &str) -> Option<Subcommand>
    ensures { (rows : List Row) → matched (Some (name.now, rows)) ≡ asked_where_named result rows }
{
    match name {
        "check" => Some(Subcommand::Check),
        "replay" => Some(Subcommand::Replay),
        "verify" => Some(Subcommand::Verify),
        "demo" => Some(Subcommand::Demo),
        "climb" => Some(Subcommand::Climb),
        "reduce" => Some(Subcommand::Reduce),
        "batch" => Some(Subcommand::Batch),
        _ => None,
    }
}

// What the matches of a subcommand say.
fn command_under<'w>(named: Subcommand, found: &ArgMatches<'w>) -> Option<Command<'w>>
    ensures command { option_map asked_of result ≡ asked_under named (values_matched (rows_of (found_of found.now))) }
    ensures within { IfSome result (λ c. IsWithin (asked_of c)) }
{
    match named {
        Subcommand::Check => check_of(found),
        Subcommand::Replay => replay_of(found),
        Subcommand::Verify => verify_of(found),
        Subcommand::Demo => demo_of(found),
        Subcommand::Climb => climb_of(found),
        Subcommand::Reduce => reduce_of(found),
        Subcommand::Batch => batch_of(found),
    }
}

// What the matches say.
fn matched<'w>(matches: &ArgMatches<'w>) -> Option<Command<'w>>
    ensures command { option_map asked_of result ≡ matched (subcommand_rows_of matches.now) }
    ensures within { IfSome result (λ c. IsWithin (asked_of c)) }
{
    let (name, found) = matches.subcommand()?;
    command_under(named(name)?, found)
}

/// The command that clap reads of the words, where it takes them: then there always is one.
pub(crate) fn taken_command<'w>(
    alloc: Global,
    words: &'w [String],
) -> Result<Command<'w>, WordsFault>
    ensures read { MatchResult result (λ c. taken_command (texts words.now) ≡ Some (asked_of c)) (λ e. e ≡ WordsFault.NotACommand → taken_command (texts words.now) ≡ None) }
    ensures refused { IfErr result (λ e. e ≡ WordsFault.NotACommand → is_taken (texts words.now) ≡ false) }
    ensures taken { is_taken (texts words.now) ≡ true → IfErr result (λ e. e ≡ WordsFault.Memory) }
    ensures within { IfOk result (λ c. IsWithin (asked_of c)) }
{
    let Ok(command) = sec_command(alloc) else {
        return Err(WordsFault::Memory);
    };
    match command.try_get_matches_from(words) {
        Ok(matches) => Ok(matched(&matches).unwrap()),
        Err(error) => match error.kind() {
            ErrorKind::OutOfMemory => Err(WordsFault::Memory),
            _ => Err(WordsFault::NotACommand),
        },
    }
}
