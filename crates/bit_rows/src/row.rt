//! A row of bits, packed in words of 64. Bit `i` is bit `i % 64` of word `i / 64`; what the last word has past
//! the row's end means nothing.
ghost use Rattle.std.specs.Prelude.{◌≡◌, ◌<◌, ◌≤◌, ◌+◌, ◌≢◌, ◌==◌, ℕ, false, length, slice_index_or, slice_set, replicate, IfOk};
ghost use Rattle.std.specs.Int.{bit_at};
ghost use Rattle.bit_rows.specs.Words.{row_bits, AreWordsFor};

use std::alloc::{AllocError, Global};
use std::marker::Model;

/// A row of bits, whose number never changes. Contracts see it as the list of its bits.
#[derive(Drop)]
pub struct BitRow {
    words: Vec<u64>,
    len: u32,
}

impl Model for BitRow {
    ghost use Rattle.std.specs.Prelude.{List, Bool};
    ghost use Rattle.bit_rows.specs.Words.{row_bits, AreWordsFor};

    ghost Value = { List Bool };

    ghost view = { λ r. row_bits r.words.items r.len };

    ghost invariant = { λ r. AreWordsFor r.words.items r.len };
}

impl BitRow {
    /// A row of this many bits, all false.
    #[tactic(auto, using(crate::proofs::Words::row_zeros))]
    pub fn with_len(alloc: Global, len: u32) -> Result<BitRow, AllocError>
        ensures { IfOk result (λ r. r ≡ replicate len false) }
    {
        let count = (len as usize + 63) / 64;
        let words = vec![in alloc; 0u64; count]?;
        Ok(BitRow { words, len })
    }

    /// The row of the first `len` bits of these words: bit `i` is bit `i % 64` of word `i / 64`. There are as many words as
    /// these bits need; what the last one has past the end means nothing.
    pub fn from_words(words: Vec<u64>, len: u32) -> BitRow
        requires { AreWordsFor words.items len }
        ensures { result ≡ row_bits words.items len }
    {
        BitRow { words, len }
    }

    /// The number of bits.
    #[tactic(auto, using(crate::proofs::Words::row_length))]
    pub fn len(&self) -> u32
        ensures { result ≡ length self.now }
    {
        self.len
    }

    /// Bit `i`.
    pub fn get(&self, i: u32) -> bool
        requires { i < length self.now }
        ensures { result ≡ slice_index_or self.now i false }
    {
        word_bit(self.words[(i / 64) as usize], i % 64)
    }

    /// Writes bit `i`.
    pub fn set(&mut self, i: u32, bit: bool)
        requires { i < length self.old }
        ensures { self.new ≡ slice_set self.old i bit }
    {
        let at = (i / 64) as usize;
        let word = with_bit(self.words[at], i % 64, bit);
        self.words[at] = word;
    }

    /// Writes all bits of another row of the same length, a word at a time.
    pub fn copy_from(&mut self, other: &BitRow)
        requires same_length { length self.old ≡ length other.now }
        ensures { self.new ≡ other.now }
    {
        self.words
            .as_mut_slice()
            .copy_from_slice(other.words.as_slice());
    }

    /// Writes `count` bits from bit `start` on: those of another row from its bit `at` on.
    pub fn copy_bits(&mut self, start: u32, from: &BitRow, at: u32, count: u32)
        requires target { start + count ≤ length self.old }
        requires source { at + count ≤ length from.now }
        ensures size { length self.new ≡ length self.old }
        ensures copied { (k : ℕ) → k < count → slice_index_or self.new (start + k) false ≡ slice_index_or from.now (at + k) false }
        ensures below { (k : ℕ) → k < start → slice_index_or self.new k false ≡ slice_index_or self.old k false }
        ensures above { (k : ℕ) → start + count ≤ k → slice_index_or self.new k false ≡ slice_index_or self.old k false }
    {
        let _lengths = (self.len(), from.len());
        for k in 0..count {
            self.set(start + k, from.get(at + k));
        }
    }
}

// Whether this bit of a word is set.
fn word_bit(word: u64, at: u32) -> bool
    requires { at < 64 }
    ensures { result ≡ (bit_at word at == 1) }
{
    (word >> at) & 1 == 1
}

// The word with this bit written.
fn with_bit(word: u64, at: u32, bit: bool) -> u64
    requires { at < 64 }
    ensures written { (bit_at result at == 1) ≡ bit }
    ensures others { (k : ℕ) → k < 64 → k ≢ at → bit_at result k ≡ bit_at word k }
{
    if bit {
        word | (1 << at)
    } else {
        word & !(1 << at)
    }
}
