//! What becomes of an answer: its file is stored, where the command has a name for that, and then its text is printed.
ghost use Rattle.std.specs.Prelude.{◌≡◌, ◌≤◌, ◌⊎◌, Option, Some, option_map};
ghost use Rattle.sec_base.specs.Faults.{Rose, appended, IsCutShort};
ghost use Rattle.command_line.specs.Asked.{asked_of};
ghost use Rattle.run_texts.specs.Texts.{write_failed_text};
ghost use Rattle.run_texts.specs.Told.{IsTold};
ghost use Rattle.sec_cli.specs.Reports.{IsDelivery, store_name, world_of};

use crate::ending::Reply;
use command_line::Command;
use run_texts::{tell, tell_unstored};
use sec_base::{Failed, Shelf, Sink, StoreFault, write_text};

// Prints a text, and answers the status, or 6 where that fails.
fn print<O: Sink, E: Sink>(text: &[u8], status: u8, out: &mut O, err: &mut E) -> u8
    ensures done { ((result ≡ status) × (O.taken out.new ≡ appended (O.taken out.old) text.now) × (E.taken err.new ≡ E.taken err.old))
        ⊎ ((result ≡ 6) × Rose (O.faults out.old) (O.faults out.new) × IsCutShort (O.taken out.old) text.now (O.taken out.new)
        × IsTold (E.taken err.old) (E.faults err.old) write_failed_text (E.taken err.new) (E.faults err.new)) }
    ensures out_count { O.faults out.old ≤ O.faults out.new }
    ensures err_count { E.faults err.old ≤ E.faults err.new }
{
    match write_text(out, text) {
        Ok(()) => status,
        Err(Failed) => {
            tell(err, b"sec: output: write failed\n");
            6
        }
    }
}

// Stores the file of an answer under a name, and prints the text.
fn store_and_print<S: Shelf, O: Sink, E: Sink>(
    answer: &Reply,
    name: &str,
    shelf: &mut S,
    out: &mut O,
    err: &mut E,
) -> u8
    ensures delivered { IsDelivery S.tells (Some name.now) answer.now
        (world_of (S.file shelf.old) (S.store_faults shelf.old) (O.taken out.old) (O.faults out.old) (E.taken err.old) (E.faults err.old))
        (world_of (S.file shelf.new) (S.store_faults shelf.new) (O.taken out.new) (O.faults out.new) (E.taken err.new) (E.faults err.new)) result }
    ensures names { S.failed shelf.new ≡ S.failed shelf.old }
    ensures load_count { S.load_faults shelf.new ≡ S.load_faults shelf.old }
    ensures store_count { S.store_faults shelf.old ≤ S.store_faults shelf.new }
    ensures out_count { O.faults out.old ≤ O.faults out.new }
    ensures err_count { E.faults err.old ≤ E.faults err.new }
{
    match shelf.store(name, answer.file.as_slice()) {
        Ok(()) => print(answer.text.as_slice(), answer.status, out, err),
        Err(StoreFault::Failed) => {
            tell_unstored(err, name.as_bytes());
            6
        }
        Err(StoreFault::Memory) => {
            tell(err, b"sec: out of memory\n");
            7
        }
    }
}

// The name under which a command stores the file of an answer of this status.
fn store_name<'w>(command: Command<'w>, status: u8) -> Option<&'w str>
    ensures { option_map (λ n. n.now) result ≡ store_name (asked_of command.entry) status }
{
    match command {
        Command::Check(c) => {
            if status == 1 {
                c.options.trace
            } else if status == 0 {
                c.options.cert
            } else {
                None
            }
        }
        Command::Reduce(r) => { if status == 0 { Some(r.out) } else { None } }
        Command::Replay(_)
        | Command::Verify(_)
        | Command::Demo(_)
        | Command::Climb(_)
        | Command::Batch(_) => None,
    }
}

/// Stores the file of an answer, where the command has a name for it, and prints the text. Answers the status of the run.
pub(crate) fn deliver<S: Shelf, O: Sink, E: Sink>(
    command: Command,
    answer: &Reply,
    shelf: &mut S,
    out: &mut O,
    err: &mut E,
) -> u8
    ensures delivered { IsDelivery S.tells (store_name (asked_of command.entry) answer.now.status) answer.now
        (world_of (S.file shelf.old) (S.store_faults shelf.old) (O.taken out.old) (O.faults out.old) (E.taken err.old) (E.faults err.old))
        (world_of (S.file shelf.new) (S.store_faults shelf.new) (O.taken out.new) (O.faults out.new) (E.taken err.new) (E.faults err.new)) result }
    ensures names { S.failed shelf.new ≡ S.failed shelf.old }
    ensures load_count { S.load_faults shelf.new ≡ S.load_faults shelf.old }
    ensures store_count { S.store_faults shelf.old ≤ S.store_faults shelf.new }
    ensures out_count { O.faults out.old ≤ O.faults out.new }
    ensures err_count { E.faults err.old ≤ E.faults err.new }
{
    match store_name(command, answer.status) {
        Some(name) => store_and_print(answer, name, shelf, out, err),
        None => print(answer.text.as_slice(), answer.status, out, err),
    }
}
