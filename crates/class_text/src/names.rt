//! The names of signals.
ghost use Rattle.std.specs.Prelude.{◌≡◌, ◌++◌, ◌∷◌, OnOk, decimal};
ghost use Rattle.class_text.specs.ClassLines.{name_of};

use circ_model::Signal;
use itoa::Buffer;
use std::alloc::AllocError;

// Adds a letter and a number.
fn push_numbered(letter: u8, number: u32, text: &mut Vec<u8>) -> Result<(), AllocError>
    ensures { OnOk result (text.new.items ≡ text.old.items ++ letter ∷ decimal number) }
{
    let mut buffer = Buffer::new();
    text.push(letter)?;
    text.extend_from_slice(buffer.format(number).as_bytes())
}

/// Adds the name of a signal: `c` for the constant, `i` with an input's position, `l` or `r` with a latch's or gate's variable.
pub fn push_name(signal: Signal, text: &mut Vec<u8>) -> Result<(), AllocError>
    ensures { OnOk result (text.new.items ≡ text.old.items ++ name_of signal) }
{
    match signal {
        Signal::Const => {
            text.push(b'c')?;
            Ok(())
        }
        Signal::Input(i) => push_numbered(b'i', i, text),
        Signal::Left(v) => push_numbered(b'l', v, text),
        Signal::Right(v) => push_numbered(b'r', v, text),
    }
}
