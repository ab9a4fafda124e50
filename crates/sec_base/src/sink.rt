//! A sink of bytes. It says what it has taken, or that it doesn't tell, and counts its faults.
ghost use Rattle.std.specs.Prelude.{◌≡◌, ◌≤◌, ◌<◌, ℕ, List, Option, length, take, IfOk, OnErr};
ghost use Rattle.sec_base.specs.Faults.{Rose, appended};

use crate::Failed;

/// A place that takes bytes, piece by piece.
pub trait Sink {
    /// What it has taken, where it tells that.
    ghost taken: { Self → Option (List ℕ) };

    /// How often it has failed; it stands still at its last value.
    ghost faults: { Self → ℕ };

    /// Takes the first bytes of the piece, at least one where there is one, and answers how many.
    fn write(&mut self, piece: &[u8]) -> Result<usize, Failed>
        ensures ok { IfOk result (λ n. taken self.new ≡ appended (taken self.old) (take n piece.now)) }
        ensures some { IfOk result (λ n. 0 < length piece.now → 0 < n) }
        ensures within { IfOk result (λ n. n ≤ length piece.now) }
        ensures failed { OnErr result (Rose (faults self.old) (faults self.new)) }
        ensures nothing { OnErr result (taken self.new ≡ taken self.old) }
        ensures count { faults self.old ≤ faults self.new };
}
