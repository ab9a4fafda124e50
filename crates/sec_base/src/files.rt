//! The files that the shelves in memory hold: names and bytes, in the order in which the names came.
ghost use Rattle.std.specs.Prelude.{◌≡◌, ◌≤◌, ◌<◌, ◌+◌, ◌-◌, ◌^◌, [], length, take, OnOk, OnErr, IsErrOf, option_map};
ghost use Rattle.sec_base.specs.Files.{file_in, with_file};

use crate::LoadFault;
use std::alloc::{AllocError, Global};
use std::marker::Model;

#[derive(Drop)]
struct File {
    name: String,
    bytes: Vec<u8>,
}

impl Model for File {
    ghost use Rattle.std.specs.Prelude.{ℕ, List, string_bytes};

    ghost Value = { List ℕ × List ℕ };

    ghost view = { λ f. (string_bytes f.name, f.bytes.items) };
}

/// Files by name.
#[derive(Drop)]
pub struct Files {
    alloc: Global,
    files: Vec<File>,
}

impl Model for Files {
    ghost use Rattle.std.specs.Prelude.{ℕ, List};

    ghost Value = { List (List ℕ × List ℕ) };

    ghost view = { λ s. s.files.items };
}

impl Files {
    ghost use Rattle.std.specs.Prelude.{[], bytes_eq};
    ghost use Rattle.std.specs.List.{position};

    /// No files.
    pub fn new(alloc: Global) -> Self
        ensures { result ≡ [] }
    {
        Files {
            alloc,
            files: Vec::new(alloc),
        }
    }

    // Where the file of this name stands.
    fn place_of(&self, name: &str) -> Option<usize>
        ensures { result ≡ position (λ f. bytes_eq f.0 name.now) self.now }
    {
        self.files
            .iter()
            .position(|file| file.name.as_str() == name)
    }

    /// The file under a name.
    pub fn get(&self, name: &str) -> Option<&[u8]>
        ensures { option_map (λ bytes. bytes.now) result ≡ file_in self.now name.now }
    {
        let Some(place) = self.place_of(name) else {
            return None;
        };
        Some(&self.files[place].bytes)
    }

    /// Makes the file under a name these bytes.
    pub fn put(&mut self, name: &str, bytes: &[u8]) -> Result<(), AllocError>
        ensures ok { OnOk result (self.new ≡ with_file self.old name.now bytes.now) }
        ensures err { OnErr result (self.new ≡ self.old) }
    {
        let file = File {
            name: String::from_str(self.alloc, name)?,
            bytes: Vec::from_slice(self.alloc, bytes)?,
        };
        match self.place_of(name) {
            Some(place) => self.files[place] = file,
            None => self.files.push(file)?,
        }
        Ok(())
    }
}

/// Copies a file into the emptied vector, up to one byte past the limit.
pub fn copy_in(file: &[u8], limit: u64, into: &mut Vec<u8>) -> Result<(), LoadFault>
    requires { limit < 2 ^ 64 - 1 }
    ensures ok { OnOk result ((into.new.items ≡ file.now) × (length file.now ≤ limit)) }
    ensures too_long { IsErrOf result LoadFault.TooLong
        → (limit < length file.now) × (into.new.items ≡ take (limit + 1) file.now) }
    ensures memory { IsErrOf result LoadFault.Memory → into.new.items ≡ [] }
    ensures no_fault { IsErrOf result LoadFault.Failed → ⊥ }
{
    into.clear();
    if file.len() as u64 <= limit {
        into.extend_from_slice(file)?;
        return Ok(());
    }
    into.extend_from_slice(&file[..limit as usize + 1])?;
    Err(LoadFault::TooLong)
}
