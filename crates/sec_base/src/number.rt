//! Numbers into a sink, in decimal, from an array of the longest number's length.
ghost use Rattle.std.specs.Prelude.{◌≡◌, ◌≤◌, decimal, OnOk, OnErr};
ghost use Rattle.sec_base.specs.Faults.{Rose, appended, IsCutShort};

use crate::{Failed, Sink, write_text};
use plain_text::decimal_digits;

/// Writes the number in decimal. After `Failed` the sink has taken a part of it from the front.
pub fn write_number<K: Sink>(sink: &mut K, n: u64) -> Result<(), Failed>
    ensures ok { OnOk result (K.taken sink.new ≡ appended (K.taken sink.old) (decimal n)) }
    ensures cut_short { OnErr result (IsCutShort (K.taken sink.old) (decimal n) (K.taken sink.new)) }
    ensures failed { OnErr result (Rose (K.faults sink.old) (K.faults sink.new)) }
    ensures count { K.faults sink.old ≤ K.faults sink.new }
{
    let mut digits = [0u8; 20];
    let start = decimal_digits(n, &mut digits);
    write_text(sink, &digits[start..])
}
