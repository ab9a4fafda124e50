//! A shelf of named files. It says what stands under each name, or that it doesn't tell, and counts its faults.
ghost use Rattle.std.specs.Prelude.{◌≡◌, ◌≢◌, ◌≤◌, ◌<◌, ◌-◌, ◌^◌, ◌+◌, ℕ, Bool, List, Option, Some, [], vec_len, IsTrue, OnOk, IsErrOf};
ghost use Rattle.sec_base.specs.Faults.{Rose, appended};
ghost use Rattle.sec_base.specs.Files.{IsTooLong, failed_in};

use crate::{LoadFault, StoreFault};

/// Named files. A name is bytes of text; a file is bytes.
pub trait Shelf {
    /// Whether it tells its files.
    ghost tells: { Bool };

    /// The file under a name, or none; it means something where the shelf tells its files.
    ghost file: { Self → List ℕ → Option (List ℕ) };

    /// The names whose loads failed, in order, where it tells them.
    ghost failed: { Self → Option (List (List ℕ)) };

    /// How often a load has failed; it stands still at its last value.
    ghost load_faults: { Self → ℕ };

    /// How often a store has failed, likewise.
    ghost store_faults: { Self → ℕ };

    /// Reads the file into the emptied vector. A missing name is a fault.
    fn load(&mut self, name: &str, limit: u64, into: &mut Vec<u8>) -> Result<(), LoadFault>
        requires { limit < 2 ^ 64 - 1 }

        ensures ok { OnOk result (IsTrue tells → file self.old name.now ≡ Some into.new.items) }
        ensures within { OnOk result (vec_len into.new ≤ limit) }
        ensures failed { IsErrOf result LoadFault.Failed → Rose (load_faults self.old) (load_faults self.new) }
        ensures too_long { IsErrOf result LoadFault.TooLong → vec_len into.new ≡ limit + 1 }
        ensures first_bytes { IsErrOf result LoadFault.TooLong → IsTrue tells
            → IsTooLong (file self.old name.now) limit into.new.items }
        ensures emptied_failed { IsErrOf result LoadFault.Failed → into.new.items ≡ [] }
        ensures emptied_memory { IsErrOf result LoadFault.Memory → into.new.items ≡ [] }

        // Files stay. The list of names grows by this one where the load failed, and else stays.
        ensures files { file self.new ≡ file self.old }
        ensures names { failed self.new ≡ appended (failed self.old) (failed_in result name.now) }
        ensures load_count { load_faults self.old ≤ load_faults self.new }
        ensures store_count { store_faults self.new ≡ store_faults self.old };

    /// Makes the file these bytes. After `Failed` that one name may hold anything or nothing.
    fn store(&mut self, name: &str, bytes: &[u8]) -> Result<(), StoreFault>
        ensures ok { OnOk result (IsTrue tells → file self.new name.now ≡ Some bytes.now) }
        ensures failed { IsErrOf result StoreFault.Failed → Rose (store_faults self.old) (store_faults self.new) }
        ensures memory { IsErrOf result StoreFault.Memory → file self.new ≡ file self.old }

        ensures others { (other : List ℕ) → other ≢ name.now → file self.new other ≡ file self.old other }
        ensures names { failed self.new ≡ failed self.old }
        ensures store_count { store_faults self.old ≤ store_faults self.new }
        ensures load_count { load_faults self.new ≡ load_faults self.old };
}
