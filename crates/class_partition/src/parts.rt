//! Splitting classes by words, in one pass over the places. The places of a class whose words equal that of its first place
//! keep the class; each further word makes a part, which begins at the first place that has it.
ghost use Rattle.std.specs.Prelude.{◌≡◌, ◌==◌, ◌&&◌, not, ◌<◌, ◌+◌, ◌^◌, ℕ, [], length, IfOk, OnOk, Some, unwrap_or, if◌then◌else◌, slice_index};
ghost use Rattle.indexmap.specs.IndexMap.{get};
ghost use Rattle.class_partition.specs.Classes.{ArePartition, class_count, is_least};
ghost use Rattle.class_partition.specs.Steps.{classes_of};
ghost use Rattle.class_partition.specs.Words.{relative_word, split_of_words};
ghost use Rattle.class_partition.specs.WordSteps.{begins_after, place_of_word, same_part};

use bit_rows::BitRow;
use indexmap::IndexMap;
use std::alloc::{AllocError, Global};

// For the least place of a class and a word the place at which the part with that word begins.
type Parts = IndexMap<(u32, u64), u32>;

// A place's word, complemented by its phase.
fn relative_word(phase: &BitRow, words: &[u64], place: u32) -> u64
    requires words { place < length words.now }
    requires phases { place < length phase.now }
    ensures { result ≡ relative_word (classes_of [] phase.now) words.now place }
{
    let word = words[place as usize];
    if phase.get(place) { !word } else { word }
}

// Where a part begins: at this place if it is new.
fn begin_of(parts: &mut Parts, part: (u32, u64), place: u32) -> Result<u32, AllocError>
    ensures begin { IfOk result (λ at. at ≡ unwrap_or (get same_part parts.old part) place) }
    ensures parts { IfOk result (λ at. (q : ℕ × ℕ) → get same_part parts.new q ≡ (if same_part part q then Some at else get same_part parts.old q)) }
{
    if let Some(at) = parts.get(&part) {
        return Ok(*at);
    }
    parts.insert(part, place)?;
    Ok(place)
}

// The least place of a place's class after the split.
fn split_place(
    least: &[u32],
    phase: &BitRow,
    words: &[u64],
    parts: &mut Parts,
    place: u32,
) -> Result<u32, AllocError>
    requires place { place < length least.now }
    requires phases { length phase.now ≡ length least.now }
    requires words { length words.now ≡ length least.now }
    requires within { slice_index least.now place < length least.now }
    ensures place { IfOk result (λ at. at ≡ place_of_word (classes_of least.now phase.now) words.now (get same_part parts.old) place) }
    ensures parts { OnOk result ((q : ℕ × ℕ) → get same_part parts.new q ≡ begins_after (classes_of least.now phase.now) words.now (get same_part parts.old) place q) }
{
    let at = least[place as usize];
    let word = relative_word(phase, words, place);
    if word == relative_word(phase, words, at) {
        return Ok(at);
    }
    begin_of(parts, (at, word), place)
}

// Whether a place begins a class after the split, and began none before.
fn begins_class(least: &[u32], place: usize, at: u32) -> bool
    requires { place < length least.now }
    ensures { result ≡ ((at == place) && not (is_least (classes_of least.now []) place)) }
{
    at as usize == place && least[place] as usize != place
}

// Writes the least places after the split. Answers how many classes that adds.
pub(crate) fn split_places(
    alloc: Global,
    least: &[u32],
    phase: &BitRow,
    words: &[u64],
    after: &mut [u32],
) -> Result<u32, AllocError>
    requires small { length least.now < 2 ^ 32 }
    requires phases { length phase.now ≡ length least.now }
    requires words { length words.now ≡ length least.now }
    requires after { length after.old ≡ length least.now }
    requires partition { ArePartition (length least.now) (classes_of least.now phase.now) }
    ensures size { length after.new ≡ length after.old }
    ensures split { OnOk result (after.new ≡ (split_of_words (length least.now) (classes_of least.now phase.now) words.now).least) }
    ensures count { IfOk result (λ added. class_count (length least.now) (classes_of after.new phase.now) ≡ class_count (length least.now) (classes_of least.now phase.now) + added) }
{
    let mut parts = IndexMap::new(alloc);
    let mut added: u32 = 0;
    for p in 0..least.len() {
        let at = split_place(least, phase, words, &mut parts, p as u32)?;
        if begins_class(least, p, at) {
            added += 1;
        }
        after[p] = at;
    }
    Ok(added)
}
