//! Free bits of paths.
ghost use Rattle.std.specs.Prelude.{◌≡◌, IfNone, IfOk, None};

use and_graph::{LeafValue, Pattern};
use frame_graph::{FrameMap, Leaf};
use std::alloc::{AllocError, Global};

/// A latch of the first frame, or an input of a frame, with a value.
#[derive(Clone, Copy, PartialEq, Eq, Debug)]
pub struct FreeBit {
    /// Which free bit of a path it is.
    pub leaf: Leaf,
    /// Its value.
    pub value: bool,
}

/// Whether a pair is equal in the last frame of the step where what is assumed holds.
#[derive(Drop)]
pub enum Difference {
    /// It is.
    Equal,
    /// It seems to differ where free bits on which it rests have these values: a hint.
    Apart(Vec<FreeBit>),
    /// That isn't known.
    Unknown,
}

// The free bits for which a pattern's leaves stand.
pub(crate) fn free_bits(
    alloc: Global,
    frames: &FrameMap<'_>,
    pattern: &Pattern,
) -> Result<Vec<FreeBit>, AllocError> {
    let mut bits = Vec::new(alloc);
    for at in pattern.leaves.as_slice() {
        if let Some(leaf) = frames.leaf(at.leaf) {
            bits.push(FreeBit {
                leaf,
                value: at.value,
            })?;
        }
    }
    Ok(bits)
}

// The free bits of the pattern that was found, if one was.
pub(crate) fn decoded(
    alloc: Global,
    frames: &FrameMap<'_>,
    found: Option<Pattern>,
) -> Result<Option<Vec<FreeBit>>, AllocError>
    ensures { IfOk result (λ bits. IfNone bits (found ≡ None)) }
{
    match found {
        Some(pattern) => {
            let bits = free_bits(alloc, frames, &pattern)?;
            Ok(Some(bits))
        }
        None => Ok(None),
    }
}
