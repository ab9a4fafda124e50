//! The words of a run, as clap takes them.
ghost use Rattle.std.specs.Prelude.{◌≡◌, IfErr, IfOk, MatchResult, None, Some, is_some, true};
ghost use Rattle.command_line.specs.Asked.{Asked, asked_of, IsWithin};
ghost use Rattle.command_line.specs.Meant.{AreNoCommand, is_taken, meant, taken_command};
ghost use Rattle.command_line.specs.Plain.{plain_command, texts};

use crate::command::{Command, WordsFault};
use crate::taken::taken_command;
use std::alloc::Global;

/// What the words of a run ask for, of which the first is the program's own name: `check LEFT RIGHT [-k K] [-d D] [-j J] [--classes]
/// [--stats] [--trace FILE] [--cert FILE] [--tie] [--least]`, `replay LEFT RIGHT TRACE [--tie]`, `verify LEFT RIGHT CERT [--tie]`,
/// `demo N [-k K] [-j J]`, `climb LEFT RIGHT [-m M] [-j J] [--least]`,
/// `reduce NET OUT [-k K] [-j J] [--binary]` or `batch LIST [-k K] [-j J]`.
/// Clap reads them. Plain words it always takes, and they mean what they say; other words that it takes mean what its matches
/// say. The names are texts among the words. An error says that clap refuses the words, so that they aren't plain and mean
/// nothing, or that it had no memory.
pub fn read_words<'w>(alloc: Global, words: &'w [String]) -> Result<Command<'w>, WordsFault>
    ensures meant { MatchResult result (λ c. meant (texts words.now) ≡ Some (asked_of c)) (λ e. e ≡ WordsFault.NotACommand → meant (texts words.now) ≡ None) }
    ensures plain { is_some (plain_command (texts words.now)) ≡ true → IfErr result (λ e. e ≡ WordsFault.Memory) }
    ensures agree { (a : Asked) → plain_command (texts words.now) ≡ Some a → taken_command (texts words.now) ≡ Some a }
    ensures refused { IfErr result (λ e. e ≡ WordsFault.NotACommand → AreNoCommand (texts words.now)) }
    ensures taken { is_taken (texts words.now) ≡ true → IfErr result (λ e. e ≡ WordsFault.Memory) }
    ensures within { IfOk result (λ c. IsWithin (asked_of c)) }
{
    taken_command(alloc, words)
}
