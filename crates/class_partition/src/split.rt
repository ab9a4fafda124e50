//! Splitting classes by a row, in place, in two passes over the places. The first place of a class keeps it; the first place that
//! differs from it begins the other part, and stands meanwhile where the class's first place had itself.
ghost use Rattle.std.specs.Prelude.{◌≡◌, ◌<◌, ◌≤◌, ◌+◌, ◌^◌, ℕ, length, min, slice_index};
ghost use Rattle.class_partition.specs.Classes.{ArePartition, class_count, split_of};
ghost use Rattle.class_partition.specs.Steps.{classes_of, split_step};

use bit_rows::BitRow;

// One place of a split: which part of its class it goes to. Answers whether it begins a class.
fn split_place(least: &mut Vec<u32>, phase: &BitRow, row: &BitRow, p: usize) -> bool
    requires place { p < length least.old.items }
    requires small { length least.old.items < 2 ^ 32 }
    requires phases { length phase.now ≡ length least.old.items }
    requires rows { length row.now ≡ length least.old.items }
    requires within { slice_index least.old.items p < length least.old.items }
    ensures { (least.new.items, result) ≡ split_step phase.now row.now p least.old.items }
{
    let at = least[p];
    if at as usize == p {
        return false;
    }
    let place = p as u32;
    if (row.get(place) != phase.get(place)) == (row.get(at) != phase.get(at)) {
        return false;
    }
    let known = least[at as usize];
    if known == at {
        least[at as usize] = place;
        least[p] = place;
        return true;
    }
    least[p] = known;
    false
}

// Each place that has a later one as its least place has itself again.
fn restore_first(least: &mut Vec<u32>)
    requires small { length least.old.items < 2 ^ 32 }
    ensures size { length least.new.items ≡ length least.old.items }
    ensures least { (q : ℕ) → q < length least.old.items → slice_index least.new.items q ≡ min (slice_index least.old.items q) q }
{
    for p in 0..least.len() {
        least[p] = least[p].min(p as u32);
    }
}

// Splits the classes by a row. Answers how many classes that adds.
pub(crate) fn split_places(least: &mut Vec<u32>, phase: &BitRow, row: &BitRow) -> u32
    requires small { length least.old.items < 2 ^ 32 }
    requires phases { length phase.now ≡ length least.old.items }
    requires rows { length row.now ≡ length least.old.items }
    requires partition { ArePartition (length least.old.items) (classes_of least.old.items phase.now) }
    ensures split { least.new.items ≡ (split_of (length least.old.items) (classes_of least.old.items phase.now) row.now).least }
    ensures count { class_count (length least.old.items) (classes_of least.new.items phase.now) ≡ class_count (length least.old.items) (classes_of least.old.items phase.now) + result }
{
    let mut added: u32 = 0;
    for p in 0..least.len() {
        if split_place(least, phase, row, p) {
            added += 1;
        }
    }
    restore_first(least);
    added
}
