//! Numbers of the binary form: seven bits a byte, lowest first, and bit 7 set where another byte follows.
ghost use Rattle.std.specs.Prelude.{◌≡◌, ◌<◌, ◌++◌, OnOk, OnErr};
ghost use Rattle.aiger_codec.specs.Deltas.{delta_at, shortest};

use std::alloc::AllocError;

/// What stands at a place of a binary body.
#[derive(Clone, Copy, Debug, PartialEq, Eq)]
pub enum Delta {
    /// A number, and the place after it.
    Value(u32, u64),
    /// The bytes end within it.
    Cut,
    /// It takes more than five bytes, or is 2^32 or more.
    Wide,
}

/// The number at a place.
pub fn read_delta(bytes: &[u8], at: u64) -> Delta
    ensures { result ≡ delta_at bytes.now at }
{
    let len = bytes.len() as u64;
    let mut value: u64 = 0;
    let mut weight: u64 = 1;
    for i in 0..5u64 {
        if at >= len || i >= len - at {
            return Delta::Cut;
        }
        let byte = bytes[(at + i) as usize];
        if byte < 128 {
            value += weight * byte as u64;
            if value < 4294967296 {
                return Delta::Value(value as u32, at + i + 1);
            }
            return Delta::Wide;
        }
        value += weight * (byte - 128) as u64;
        weight *= 128;
    }
    Delta::Wide
}

/// Writes the shortest spelling at the end.
pub fn write_delta(into: &mut Vec<u8>, n: u32) -> Result<(), AllocError>
    ensures ok { OnOk result (into.new.items ≡ into.old.items ++ shortest n) }
    ensures err { OnErr result (into.new.items ≡ into.old.items) }
{
    into.reserve(5)?;
    let mut rest = n;
    for _ in 0..4u32 {
        if rest < 128 {
            break;
        }
        into.push_reserved((rest % 128) as u8 + 128);
        rest /= 128;
    }
    into.push_reserved(rest as u8);
    Ok(())
}
