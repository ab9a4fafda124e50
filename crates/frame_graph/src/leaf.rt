//! What a leaf stands for.

/// A free bit of a path.
#[derive(Clone, Copy, PartialEq, Eq, Debug)]
pub enum Leaf {
    /// A latch in the first frame, by its position in the state.
    Latch(u32),
    /// An input of a frame, by the frame and its position.
    Input(u32, u32),
}
