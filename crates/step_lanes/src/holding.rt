//! In which of 64 lanes the classes hold: words are compared place by place.
ghost use Rattle.std.specs.Prelude.{◌≡◌, ◌<◌, ◌≤◌, ◌&&◌, ℕ, not, IsTrue, length};
ghost use Rattle.circ_model.specs.Meaning.{signed};
ghost use Rattle.class_partition.specs.Classes.{HoldIn, relative};
ghost use Rattle.sim_words.specs.Lanes.{lane, lane_bit};

use class_partition::Classes;

// A place's word, complemented where its phase is 1.
pub(crate) fn phased_word(classes: &Classes, words: &[u64], place: u32) -> u64
    requires place { place < length words.now }
    requires words { length words.now ≡ length classes.now.least }
    ensures { (b : ℕ) → b < 64 → lane_bit b result ≡ relative classes.now (lane b words.now) place }
{
    let word = words[place as usize];
    if classes.phase(place) { !word } else { word }
}

// The lanes of a mask in which two words have one bit.
fn equal_lanes(x: u64, y: u64, mask: u64) -> u64
    ensures kept { (b : ℕ) → b < 64 → IsTrue (lane_bit b result) → IsTrue (lane_bit b mask) }
    ensures equal { (b : ℕ) → b < 64 → IsTrue (lane_bit b result) → lane_bit b x ≡ lane_bit b y }
    ensures all { (b : ℕ) → b < 64 → IsTrue (lane_bit b mask) → lane_bit b x ≡ lane_bit b y → IsTrue (lane_bit b result) }
{
    !(x ^ y) & mask
}

// The lanes of a mask in which two words have two bits.
pub(crate) fn apart_lanes(x: u64, y: u64, mask: u64) -> u64
    ensures { (b : ℕ) → lane_bit b result ≡ (signed (lane_bit b y) (lane_bit b x) && lane_bit b mask) }
{
    (x ^ y) & mask
}

// The lanes of a mask in which the classes hold.
fn holding(classes: &Classes, words: &[u64], mask: u64) -> u64
    requires { length words.now ≡ length classes.now.least }
    ensures kept { (b : ℕ) → b < 64 → IsTrue (lane_bit b result) → IsTrue (lane_bit b mask) }
    ensures hold { (b : ℕ) → b < 64 → IsTrue (lane_bit b result) → HoldIn (length words.now) classes.now (lane b words.now) }
    ensures all { (b : ℕ) → b < 64 → IsTrue (lane_bit b mask) → HoldIn (length words.now) classes.now (lane b words.now) → IsTrue (lane_bit b result) }
{
    let mut lanes = mask;
    for p in 0..classes.len() {
        let least = phased_word(classes, words, classes.rep(p));
        let place = phased_word(classes, words, p);
        lanes = equal_lanes(least, place, lanes);
    }
    lanes
}

// The lanes to keep after so many frames: in the first k the classes must hold.
pub(crate) fn kept_lanes(classes: &Classes, words: &[u64], mask: u64, frames: u32, k: u32) -> u64
    requires { length words.now ≡ length classes.now.least }
    ensures kept { (b : ℕ) → b < 64 → IsTrue (lane_bit b result) → IsTrue (lane_bit b mask) }
    ensures hold { (b : ℕ) → b < 64 → IsTrue (lane_bit b result) → 0 < frames → frames ≤ k → HoldIn (length words.now) classes.now (lane b words.now) }
    ensures all { (b : ℕ) → b < 64 → IsTrue (lane_bit b mask) → (0 < frames → frames ≤ k → HoldIn (length words.now) classes.now (lane b words.now)) → IsTrue (lane_bit b result) }
{
    if 0 < frames && frames <= k {
        holding(classes, words, mask)
    } else {
        mask
    }
}
