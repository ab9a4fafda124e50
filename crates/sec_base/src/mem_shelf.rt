//! A shelf in memory, for tests: it has the files that were put, and the calls that it is told to fail.
ghost use Rattle.std.specs.Prelude.{◌≡◌, ◌≢◌, ◌≤◌, ◌<◌, ◌+◌, ◌-◌, ◌^◌, ◌⊎◌, ◌↔◌, ℕ, List, [], ◌∷◌, ◌++◌, length, take, vec_len, Some, None, option_map, true, IsTrue, IsOk, OnOk, OnErr, IsErrOf};
ghost use Rattle.sec_base.specs.Calls.{one_more, is_listed};
ghost use Rattle.sec_base.specs.Faults.{Rose, appended};
ghost use Rattle.sec_base.specs.Files.{IsTooLong, file_in, with_file, failed_in};
ghost use Rattle.sec_base.specs.MemShelf.{fails_load, after_load, after_store};

use crate::files::{Files, copy_in};
use crate::{LoadFault, Memory, Shelf, StoreFault};
use std::alloc::Global;
use std::marker::Model;

/// Files that were put or stored. Load and store calls are numbered from 0 together; one whose number is listed fails
/// and changes no file.
#[derive(Drop)]
pub struct MemShelf {
    alloc: Global,
    files: Files,
    failed: Vec<String>,
    fails: Vec<u64>,
    calls: u64,
    load_faults: u64,
    store_faults: u64,
}

impl Model for MemShelf {
    ghost use Rattle.std.specs.Prelude.{map, string_bytes};
    ghost use Rattle.sec_base.specs.Shelved.{Shelved};

    ghost Value = { Shelved };

    ghost view = { λ s. record {
      files = s.files;
      failed = map (λ name. string_bytes name) s.failed.items;
      fails = s.fails.items;
      calls = s.calls;
      load_faults = s.load_faults;
      store_faults = s.store_faults;
    } };
}

impl MemShelf {
    /// A shelf with no files, which fails the calls with these numbers.
    pub fn new(alloc: Global, fails: Vec<u64>) -> Self
        ensures { result ≡ record { files = []; failed = []; fails = fails.items; calls = 0; load_faults = 0; store_faults = 0 } }
    {
        MemShelf {
            alloc,
            files: Files::new(alloc),
            failed: Vec::new(alloc),
            fails,
            calls: 0,
            load_faults: 0,
            store_faults: 0,
        }
    }

    /// Makes the file under a name these bytes. It is no numbered call.
    pub fn put(&mut self, name: &str, bytes: &[u8]) -> Result<(), Memory>
        ensures ok { OnOk result (self.new ≡ record self.old { files = with_file self.old.files name.now bytes.now }) }
        ensures err { OnErr result (self.new ≡ self.old) }
    {
        self.files.put(name, bytes)?;
        Ok(())
    }

    /// The file under a name.
    pub fn get(&self, name: &str) -> Option<&[u8]>
        ensures { option_map (λ bytes. bytes.now) result ≡ file_in self.now.files name.now }
    {
        self.files.get(name)
    }

    // Counts a call, and says whether it is to fail.
    fn is_next_listed(&mut self) -> bool
        ensures answer { result ≡ is_listed self.old.fails self.old.calls }
        ensures state { self.new ≡ record self.old { calls = one_more self.old.calls } }
    {
        let listed = self.fails.contains(&self.calls);
        self.calls = self.calls.saturating_add(1);
        listed
    }

    // Counts a load that failed, and keeps its name.
    fn fail_load(&mut self, name: &str) -> Result<(), LoadFault>
        ensures answer { IsErrOf result LoadFault.Failed ⊎ IsErrOf result LoadFault.Memory }
        ensures failed { IsErrOf result LoadFault.Failed → self.new ≡ record self.old {
          failed = self.old.failed ++ name.now ∷ [];
          load_faults = one_more self.old.load_faults;
        } }
        ensures memory { IsErrOf result LoadFault.Memory → self.new ≡ self.old }
        ensures count { self.old.load_faults ≤ self.new.load_faults }
    {
        let name = String::from_str(self.alloc, name)?;
        self.failed.push(name)?;
        self.load_faults = self.load_faults.saturating_add(1);
        Err(LoadFault::Failed)
    }
}

impl Shelf for MemShelf {
    ghost tells = { true };

    ghost file = { λ s. file_in s.files };

    ghost failed = { λ s. Some s.failed };

    ghost load_faults = { λ s. s.load_faults };

    ghost store_faults = { λ s. s.store_faults };

    fn load(&mut self, name: &str, limit: u64, into: &mut Vec<u8>) -> Result<(), LoadFault>
        requires { limit < 2 ^ 64 - 1 }

        // Which calls fail, and what stands after each answer.
        ensures fails { IsTrue (fails_load self.old name.now) → IsErrOf result LoadFault.Failed ⊎ IsErrOf result LoadFault.Memory }
        ensures cause { IsErrOf result LoadFault.Failed → IsTrue (fails_load self.old name.now) }
        ensures state { self.new ≡ after_load result self.old name.now }
        ensures count { self.old.load_faults ≤ self.new.load_faults }

        // What was read.
        ensures ok { OnOk result (file_in self.old.files name.now ≡ Some into.new.items) }
        ensures within { OnOk result (vec_len into.new ≤ limit) }
        ensures too_long { IsErrOf result LoadFault.TooLong → vec_len into.new ≡ limit + 1 }
        ensures first_bytes { IsErrOf result LoadFault.TooLong → IsTooLong (file_in self.old.files name.now) limit into.new.items }
        ensures emptied_failed { IsErrOf result LoadFault.Failed → into.new.items ≡ [] }
        ensures emptied_memory { IsErrOf result LoadFault.Memory → into.new.items ≡ [] }
    {
        into.clear();
        if self.is_next_listed() {
            return self.fail_load(name);
        }
        match self.files.get(name) {
            Some(file) => copy_in(file, limit, into),
            None => self.fail_load(name),
        }
    }

    #[tactic(auto, using(crate::proofs::Names::file_put, crate::proofs::Names::other_file))]
    fn store(&mut self, name: &str, bytes: &[u8]) -> Result<(), StoreFault>
        // Which calls fail, and what stands after each answer.
        ensures fails { IsErrOf result StoreFault.Failed ↔ IsTrue (is_listed self.old.fails self.old.calls) }
        ensures state { self.new ≡ after_store result self.old name.now bytes.now }
        ensures count { self.old.store_faults ≤ self.new.store_faults }

        // What the names hold.
        ensures ok { OnOk result (file_in self.new.files name.now ≡ Some bytes.now) }
        ensures memory { IsErrOf result StoreFault.Memory → file_in self.new.files ≡ file_in self.old.files }
        ensures others { (other : List ℕ) → other ≢ name.now → file_in self.new.files other ≡ file_in self.old.files other }
    {
        if self.is_next_listed() {
            self.store_faults = self.store_faults.saturating_add(1);
            return Err(StoreFault::Failed);
        }
        self.files.put(name, bytes)?;
        Ok(())
    }
}
