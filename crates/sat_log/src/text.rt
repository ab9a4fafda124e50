//! A log as a text, both ways.
ghost use Rattle.std.specs.Prelude.{◌≡◌, ◌++◌, Ok, OnOk};
ghost use Rattle.std.specs.List.{All};
ghost use Rattle.sat_log.specs.Lines.{AreLines};
ghost use Rattle.sat_log.specs.Texts.{HasText, log_text};
ghost use Rattle.sat_log.specs.Parts.{log_from, log_of, IsDue};
ghost use Rattle.sat_log.specs.declared.text.LogError.TheVariants.{Refused};

use crate::log::Log;
use crate::part::add_line;
use crate::write::push_step;
use plain_text::next_piece;
use std::alloc::{AllocError, Global};

/// The first line that isn't a log line, counted from 1.
#[derive(Clone, Copy, Debug, PartialEq, Eq)]
pub struct LogFault {
    pub line: u64,
}

/// Why there is no log.
#[derive(Clone, Copy, Debug, PartialEq, Eq)]
pub enum LogError {
    /// A line isn't a log line.
    Refused(LogFault),
    /// Memory is wanting.
    Memory,
}

/// Adds a log's lines. Read again, they are that log.
pub fn write_log(log: &Log, into: &mut Vec<u8>) -> Result<(), AllocError>
    ensures text { OnOk result (into.new.items ≡ into.old.items ++ log_text log.now) }
    ensures again { OnOk result (log_of (log_text log.now) ≡ Ok log.now) }
    ensures lines { OnOk result (AreLines log.now) }
    ensures hints { OnOk result (All HasText log.now) }
{
    for i in 0..log.len() {
        push_step(log.clause(i), log.hints(i), into)?;
    }
    Ok(())
}

/// The log whose lines a text is.
#[tactic(auto, unfolding(crate::specs::Parts::log_from))]
pub fn read_log(alloc: Global, bytes: &[u8]) -> Result<Log, LogError>
    ensures { IsDue result (log_of bytes.now) }
{
    let mut log = Log::new(alloc);
    let mut literals = Vec::new(alloc);
    let mut hints = Vec::new(alloc);
    let mut rest = bytes;
    let mut line: u64 = 1;
    while let Some((text, after)) = next_piece(rest, b'\n') {
        match add_line(text, &mut literals, &mut hints, &mut log) {
            Ok(true) => {}
            Ok(false) => return Err(LogError::Refused(LogFault { line })),
            Err(_) => return Err(LogError::Memory),
        }
        rest = after;
        line += 1;
    }
    if rest.len() == 0 {
        Ok(log)
    } else {
        Err(LogError::Refused(LogFault { line }))
    }
}
