//! The law of the grammar. The function has an empty body; its contract is the law.
ghost use Rattle.pair_list.specs.Readings.{HasReading, HasOneReading};

/// Each text has a reading, a list or a first fault, and no other.
pub fn one_reading()
    ensures some { HasReading }
    ensures one { HasOneReading }
{}
