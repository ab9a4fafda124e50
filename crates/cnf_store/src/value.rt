//! What an assignment to some of the variables says of a literal.

/// A literal's value: it has none, or is true, or is false.
#[derive(Clone, Copy, PartialEq, Eq)]
pub enum Value {
    Free,
    True,
    False,
}
