//! The class lines.
ghost use Rattle.std.specs.Prelude.{◌≡◌, ◌≤◌, ◌<◌, ◌+◌, ◌^◌, ℕ, length, IfOk, IfErr, IfSome, MatchOption, None, Some, Ok, Err, codes};
ghost use Rattle.circ_model.specs.Meaning.{places_of};
ghost use Rattle.class_partition.specs.Steps.{classes_of};
ghost use Rattle.plain_text.specs.Pieces.{pieces, last_of};
ghost use Rattle.corr_certificate.specs.Names.{stripped};
ghost use Rattle.std.specs.List.{range_with_len};
ghost use Rattle.class_partition.specs.Classes.{ArePartition};
ghost use Rattle.corr_certificate.specs.ClassLines.{member_of, may_join, joined, members_from, class_words, classes_from, none_joined, Gives, class_part};
ghost use Rattle.corr_certificate.specs.declared.fault.CertKind.TheVariants.{Class};

use crate::fault::{CertFault, CertKind};
use crate::reading::Cursor;
use crate::reading::names::{first_byte, named, strip, tail};
use bit_rows::BitRow;
use class_partition::Classes;
use plain_text::next_piece;
use product_machine::Product;
use std::alloc::{AllocError, Global};
use std::marker::Model;

/// The classes so far, and the least place that the next name may have.
#[derive(Drop)]
pub struct Joining {
    least: Vec<u32>,
    phase: BitRow,
    next: u32,
}

impl Model for Joining {
    ghost use Rattle.std.specs.Prelude.{◌≡◌, length};
    ghost use Rattle.corr_certificate.specs.ClassLines.{Joining};

    ghost Value = { Joining };

    ghost view = { λ j. record { classes = record { least = j.least.items; phase = j.phase }; next = j.next } };

    ghost invariant = { λ j. length j.phase ≡ length j.least.items };
}

// The places in order.
fn places_in_order(alloc: Global, places: u32) -> Result<Vec<u32>, AllocError>
    ensures { IfOk result (λ v. v.items ≡ range_with_len 0 places) }
{
    let mut least: Vec<u32> = Vec::new(alloc);
    for p in 0..places {
        least.push(p)?;
    }
    Ok(least)
}

// The place that a word names, and whether `!` stands before the name.
fn member_of(product: &Product, word: &[u8]) -> Option<(u32, bool)>
    ensures is { result ≡ member_of product.now word.now }
    ensures within { IfSome result (λ m. m.0 < places_of product.now) }
{
    let complement = first_byte(word) == b'!';
    let place = if complement {
        named(product, tail(word))?
    } else {
        named(product, word)?
    };
    Some((place, complement))
}

impl Joining {
    /// Each place in a class of its own.
    pub fn none(alloc: Global, places: u32) -> Result<Joining, AllocError>
        ensures { IfOk result (λ j. j ≡ none_joined places) }
    {
        let least = places_in_order(alloc, places)?;
        let phase = BitRow::with_len(alloc, places)?;
        Ok(Joining {
            least,
            phase,
            next: 0,
        })
    }

    // Whether a place stands late enough, and in no class yet.
    fn may_join(&self, place: u32) -> bool
        requires { place < length self.now.classes.least }
        ensures { result ≡ may_join self.now place }
    {
        self.next <= place && self.least[place as usize] == place
    }

    // Whether a member may join the class that begins at `first`. It joins.
    fn join(&mut self, first: u32, member: Option<(u32, bool)>) -> bool
        requires within { IfSome member (λ m. m.0 < length self.old.classes.least) }
        requires few { length self.old.classes.least < 2 ^ 32 }
        ensures joined { Gives result self.new (joined first self.old member) }
        ensures places { length self.new.classes.least ≡ length self.old.classes.least }
    {
        let Some((place, complement)) = member else {
            return false;
        };
        if !self.may_join(place) {
            return false;
        }
        let Joining { least, phase, next } = self;
        least[place as usize] = first;
        phase.set(place, complement);
        *next = place + 1;
        true
    }

    // Whether the members after the first are in order. They join.
    #[tactic(auto, unfolding(crate::specs::ClassLines::members_from))]
    fn join_members(&mut self, product: &Product, first: u32, text: &[u8]) -> bool
        requires places { length self.old.classes.least ≡ places_of product.now }
        ensures joined { Gives result self.new (members_from product.now first self.old (pieces 32 text.now) (last_of 32 text.now)) }
        ensures places { length self.new.classes.least ≡ length self.old.classes.least }
    {
        let _places = product.len();
        let mut rest = text;
        loop {
            let Some((word, after)) = next_piece(rest, b' ') else {
                return self.join(first, member_of(product, rest));
            };
            if !self.join(first, member_of(product, word)) {
                return false;
            }
            rest = after;
        }
    }

    // Whether the words of a class line are a class's names in order. They join.
    fn join_class(&mut self, product: &Product, text: &[u8]) -> bool
        requires places { length self.old.classes.least ≡ places_of product.now }
        ensures joined { Gives result self.new (class_words product.now self.old (pieces 32 text.now) (last_of 32 text.now)) }
        ensures places { length self.new.classes.least ≡ length self.old.classes.least }
    {
        let _places = product.len();
        let Some((word, rest)) = next_piece(text, b' ') else {
            return false;
        };
        let Some(first) = named(product, word) else {
            return false;
        };
        if !self.may_join(first) {
            return false;
        }
        self.next = first + 1;
        if !self.join_members(product, first, rest) {
            return false;
        }
        self.next = first + 1;
        true
    }

    /// Reads the class lines, the first of which has this number. Answers the line that ends them with the bytes from there
    /// on, or the first fault.
    #[tactic(auto, unfolding(crate::specs::ClassLines::classes_from))]
    pub fn read_lines<'a>(
        &mut self,
        product: &Product,
        bytes: &'a [u8],
        first: u64,
    ) -> Result<Cursor<'a>, CertFault>
        requires places { length self.old.classes.least ≡ places_of product.now }
        requires few { first + length bytes.now < 2 ^ 64 }
        ensures read { IfOk result (λ r. classes_from product.now self.old first (pieces 10 bytes.entry.now) ≡ Ok (class_part self.new.classes r.line (pieces 10 r.rest.now))) }
        ensures last { IfOk result (λ r. last_of 10 r.rest.now ≡ last_of 10 bytes.entry.now) }
        ensures lines { IfOk result (λ r. r.line + length r.rest.now ≤ first + length bytes.entry.now) }
        ensures fault { IfErr result (λ f. (f.kind ≡ Class) × (classes_from product.now self.old first (pieces 10 bytes.entry.now) ≡ Err f.line)) }
    {
        let mut rest = bytes;
        let mut line = first;
        loop {
            let Some((text, after)) = next_piece(rest, b'\n') else {
                return Ok(Cursor { line, rest });
            };
            let Some(words) = strip(b"class ", text) else {
                return Ok(Cursor { line, rest });
            };
            if !self.join_class(product, words) {
                return Err(CertFault {
                    kind: CertKind::Class,
                    line,
                });
            }
            rest = after;
            line += 1;
        }
    }

    /// The classes that were read.
    pub fn into_classes(self) -> Classes
        requires { ArePartition (length self.classes.least) self.classes }
        ensures { result ≡ self.classes }
    {
        Classes::of_least(self.least, self.phase)
    }
}
