//! The two names of a line.
use std::alloc::{AllocError, Global};
use std::marker::Model;

/// The names of a pair's files, left and right. Contracts see them as two lists of bytes.
#[derive(Debug, Drop)]
pub struct Names {
    left: String,
    right: String,
}

impl Model for Names {
    ghost use Rattle.std.specs.Prelude.{ℕ, List, string_bytes};

    ghost Value = { List ℕ × List ℕ };

    ghost view = { λ n. (string_bytes n.left, string_bytes n.right) };
}

impl Names {
    ghost use Rattle.std.specs.Prelude.{◌≡◌, IfOk};

    // A copy of two names.
    pub(crate) fn new(alloc: Global, left: &str, right: &str) -> Result<Names, AllocError>
        ensures { IfOk result (λ n. n ≡ (left.now, right.now)) }
    {
        Ok(Names {
            left: String::from_str(alloc, left)?,
            right: String::from_str(alloc, right)?,
        })
    }

    /// The name of the left file.
    pub fn left(&self) -> &str
        ensures { result.now ≡ self.now.0 }
    {
        self.left.as_str()
    }

    /// The name of the right file.
    pub fn right(&self) -> &str
        ensures { result.now ≡ self.now.1 }
    {
        self.right.as_str()
    }
}
