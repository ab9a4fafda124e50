//! A shelf and a sink that never fail, so that a caller over them is left with no excuse.
ghost use Rattle.std.specs.Prelude.{◌≡◌, ◌≢◌, ◌≤◌, ◌<◌, ◌+◌, ◌-◌, ◌^◌, ℕ, List, [], length, take, vec_len, Some, None, Ok, true, IfOk, OnOk, OnErr, IsErrOf, is_err, false};
ghost use Rattle.sec_base.specs.Faults.{Rose};
ghost use Rattle.sec_base.specs.Files.{IsTooLong, file_or_empty, with_file};

use crate::files::{Files, copy_in};
use crate::{Failed, LoadFault, Memory, Shelf, Sink, StoreFault};
use std::alloc::Global;
use std::marker::Model;

/// A shelf that never fails. Each name that it wasn't given is an empty file.
#[derive(Drop)]
pub struct SureShelf {
    files: Files,
}

impl Model for SureShelf {
    ghost use Rattle.std.specs.Prelude.{ℕ, List};

    ghost Value = { List (List ℕ × List ℕ) };

    ghost view = { λ s. s.files };
}

impl SureShelf {
    /// A shelf on which each file is empty.
    pub fn new(alloc: Global) -> Self
        ensures { result ≡ [] }
    {
        SureShelf {
            files: Files::new(alloc),
        }
    }

    /// Makes the file under a name these bytes.
    pub fn put(&mut self, name: &str, bytes: &[u8]) -> Result<(), Memory>
        ensures ok { OnOk result (self.new ≡ with_file self.old name.now bytes.now) }
        ensures err { OnErr result (self.new ≡ self.old) }
    {
        self.files.put(name, bytes)?;
        Ok(())
    }
}

impl Shelf for SureShelf {
    ghost tells = { true };

    ghost file = { λ s name. Some (file_or_empty s name) };

    ghost failed = { λ _. Some [] };

    ghost load_faults = { λ _. 0 };

    ghost store_faults = { λ _. 0 };

    fn load(&mut self, name: &str, limit: u64, into: &mut Vec<u8>) -> Result<(), LoadFault>
        requires { limit < 2 ^ 64 - 1 }

        // It doesn't fail, and nothing changes.
        ensures sure { IsErrOf result LoadFault.Failed → ⊥ }
        ensures state { self.new ≡ self.old }

        // What was read.
        ensures ok { OnOk result (Some (file_or_empty self.old name.now) ≡ Some into.new.items) }
        ensures within { OnOk result (vec_len into.new ≤ limit) }
        ensures too_long { IsErrOf result LoadFault.TooLong → vec_len into.new ≡ limit + 1 }
        ensures first_bytes { IsErrOf result LoadFault.TooLong
            → IsTooLong (Some (file_or_empty self.old name.now)) limit into.new.items }
        ensures emptied_memory { IsErrOf result LoadFault.Memory → into.new.items ≡ [] }
    {
        match self.files.get(name) {
            Some(file) => copy_in(file, limit, into),
            None => {
                into.clear();
                Ok(())
            }
        }
    }

    #[tactic(auto, using(crate::proofs::Names::file_put, crate::proofs::Names::other_file))]
    fn store(&mut self, name: &str, bytes: &[u8]) -> Result<(), StoreFault>
        // It doesn't fail.
        ensures sure { IsErrOf result StoreFault.Failed → ⊥ }
        ensures stored { OnOk result (self.new ≡ with_file self.old name.now bytes.now) }
        ensures state { IsErrOf result StoreFault.Memory → self.new ≡ self.old }

        // What the names hold.
        ensures ok { OnOk result (Some (file_or_empty self.new name.now) ≡ Some bytes.now) }
        ensures others { (other : List ℕ) → other ≢ name.now
            → Some (file_or_empty self.new other) ≡ Some (file_or_empty self.old other) }
    {
        self.files.put(name, bytes)?;
        Ok(())
    }
}

/// A sink that takes each piece whole, and keeps none.
#[derive(Clone, Copy, Debug)]
pub struct SureSink;

impl SureSink {
    /// A sink that never fails.
    pub fn new() -> Self {
        SureSink
    }
}

impl Sink for SureSink {
    ghost taken = { λ _. None };

    ghost faults = { λ _. 0 };

    fn write(&mut self, piece: &[u8]) -> Result<usize, Failed>
        ensures whole { result ≡ Ok (length piece.now) }
    {
        Ok(piece.len())
    }
}
