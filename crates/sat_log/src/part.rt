//! The lines of a log inside a longer text.
ghost use Rattle.std.specs.Prelude.{◌≡◌, ◌<◌, ◌+◌, ◌^◌, ◌≤◌, IfOk, length};
ghost use Rattle.plain_text.specs.Pieces.{pieces, last_of};
ghost use Rattle.sat_log.specs.Texts.{step_of};
ghost use Rattle.sat_log.specs.Parts.{starts_log, part, part_from, Adds};

use crate::log::Log;
use crate::read::read_step;
use plain_text::next_piece;
use std::alloc::{AllocError, Global};

/// Why reading a log's lines stopped.
#[derive(Clone, Copy, Debug, PartialEq, Eq)]
pub enum Stop {
    /// The next whole line begins with neither a digit nor `-`.
    Ends,
    /// No whole line is left.
    Cut,
    /// The next whole line begins with one of these, and is no log line.
    Wrong,
}

/// Where reading a log's lines stopped.
#[derive(Clone, Copy, Debug)]
pub struct PartEnd<'a> {
    pub stop: Stop,
    /// The number of the line that it stopped at.
    pub line: u64,
    /// The bytes from that line on.
    pub rest: &'a [u8],
}

fn starts_log(line: &[u8]) -> bool
    ensures { result ≡ starts_log line.now }
{
    line.len() > 0 && ((line[0] >= b'0' && line[0] <= b'9') || line[0] == b'-')
}

// Adds the line of a log that a text is, if it is one. What the two lists had is dropped.
pub(crate) fn add_line(
    text: &[u8],
    literals: &mut Vec<i32>,
    hints: &mut Vec<u64>,
    log: &mut Log,
) -> Result<bool, AllocError>
    ensures { IfOk result (λ yes. Adds yes literals.new.items hints.new.items log.old log.new (step_of text.now)) }
{
    literals.clear();
    hints.clear();
    if !read_step(text, literals, hints)? {
        return Ok(false);
    }
    log.add(literals.as_slice(), hints.as_slice())?;
    Ok(true)
}

/// Adds a log's lines, from line `first` of a longer text on, up to one that isn't of a log. An `Err` may leave some of the lines in the log.
#[tactic(auto, unfolding(crate::specs::Parts::part_from))]
pub fn read_part<'a>(
    alloc: Global,
    bytes: &'a [u8],
    first: u64,
    log: &mut Log,
) -> Result<PartEnd<'a>, AllocError>
    requires few { first + length bytes.now < 2 ^ 64 }
    ensures part { IfOk result (λ r. part_from log.old first (pieces 10 bytes.entry.now) ≡ part r.stop r.line log.new (pieces 10 r.rest.now)) }
    ensures last { IfOk result (λ r. last_of 10 bytes.entry.now ≡ last_of 10 r.rest.now) }
    ensures lines { IfOk result (λ r. r.line + length r.rest.now ≤ first + length bytes.entry.now) }
{
    let mut literals = Vec::new(alloc);
    let mut hints = Vec::new(alloc);
    let mut rest = bytes;
    let mut line = first;
    loop {
        let Some((text, after)) = next_piece(rest, b'\n') else {
            return Ok(PartEnd {
                stop: Stop::Cut,
                line,
                rest,
            });
        };
        if !starts_log(text) {
            return Ok(PartEnd {
                stop: Stop::Ends,
                line,
                rest,
            });
        }
        if !add_line(text, &mut literals, &mut hints, log)? {
            return Ok(PartEnd {
                stop: Stop::Wrong,
                line,
                rest,
            });
        }
        rest = after;
        line += 1;
    }
}
