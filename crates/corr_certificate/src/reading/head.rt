//! Line 1.
ghost use Rattle.std.specs.Prelude.{◌≡◌, ◌&&◌, MatchOption, None, Some, bytes_eq, codes};
ghost use Rattle.corr_certificate.specs.Certificate.{head, head_of, field_of, tie_of};
ghost use Rattle.corr_certificate.specs.Names.{stripped};

use crate::reading::names::{number_of, strip};
use plain_text::next_piece;

/// The depth of the induction, how many signals there are, and whether the free latches are tied.
#[derive(Clone, Copy)]
pub struct Head {
    pub k: u32,
    pub signals: u32,
    pub tied: bool,
}

// The number after a prefix.
fn field(prefix: &[u8], word: &[u8]) -> Option<u32>
    ensures { result ≡ field_of (stripped prefix.now word.now) }
{
    let text = strip(prefix, word)?;
    number_of(text)
}

// Whether the free latches are tied.
fn tie_of(word: &[u8]) -> Option<bool>
    ensures { result ≡ tie_of word.now }
{
    if word == b"tie=0".as_slice() {
        Some(false)
    } else if word == b"tie=1".as_slice() {
        Some(true)
    } else {
        None
    }
}

// Whether these are the first two words of this version.
fn is_version(name: &[u8], version: &[u8], number: &[u8]) -> bool
    ensures { result ≡ (bytes_eq name.now (codes "seccert") && bytes_eq version.now number.now) }
{
    name == b"seccert".as_slice() && version == number
}

// What its words tell after the version.
fn told(depth: &[u8], size: &[u8], tied: Option<bool>) -> Option<Head>
    ensures { MatchOption result (head (field_of (stripped (codes "k=") depth.now)) (field_of (stripped (codes "signals=") size.now)) tied ≡ None)
        (λ h. head (field_of (stripped (codes "k=") depth.now)) (field_of (stripped (codes "signals=") size.now)) tied ≡ Some (record { k = h.k; signals = h.signals; tied = h.tied })) }
{
    let k = field(b"k=", depth)?;
    let signals = field(b"signals=", size)?;
    let tied = tied?;
    Some(Head { k, signals, tied })
}

/// What line 1 tells, in version 2, or in version 1, which tells no tie.
pub fn read_head(line: &[u8]) -> Option<Head>
    ensures { MatchOption result (head_of line.now ≡ None) (λ h. head_of line.now ≡ Some (record { k = h.k; signals = h.signals; tied = h.tied })) }
{
    let (name, rest) = next_piece(line, b' ')?;
    let (version, rest) = next_piece(rest, b' ')?;
    let (depth, rest) = next_piece(rest, b' ')?;
    let Some((size, tie)) = next_piece(rest, b' ') else {
        return if is_version(name, version, b"1") {
            told(depth, rest, Some(false))
        } else {
            None
        };
    };
    if next_piece(tie, b' ').is_some() || !is_version(name, version, b"2") {
        return None;
    }
    told(depth, size, tie_of(tie))
}
