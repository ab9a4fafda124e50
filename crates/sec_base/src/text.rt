//! Whole texts into a sink. They take no memory, so that a fault can be told where there is none.
ghost use Rattle.std.specs.Prelude.{◌≡◌, ◌≤◌, OnOk, OnErr};
ghost use Rattle.sec_base.specs.Faults.{Rose, appended, IsCutShort};

use crate::{Failed, Sink};

/// Writes all of the bytes. After `Failed` the sink has taken a part from their front.
pub fn write_text<K: Sink>(sink: &mut K, bytes: &[u8]) -> Result<(), Failed>
    ensures ok { OnOk result (K.taken sink.new ≡ appended (K.taken sink.old) bytes.now) }
    ensures cut_short { OnErr result (IsCutShort (K.taken sink.old) bytes.now (K.taken sink.new)) }
    ensures failed { OnErr result (Rose (K.faults sink.old) (K.faults sink.new)) }
    ensures count { K.faults sink.old ≤ K.faults sink.new }
{
    let mut rest = bytes;
    while !rest.is_empty() {
        let count = sink.write(rest)?;
        rest = &rest[count..];
    }
    Ok(())
}
