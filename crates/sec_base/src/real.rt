//! The edge to the system: real files and streams. What they hold is told to nobody; their errors are counted.
ghost use Rattle.std.specs.Prelude.{◌≡◌, ◌≤◌, ◌<◌, ◌+◌, ◌-◌, ◌^◌, [], None, false, vec_len, OnOk, IsErrOf};

use crate::{Failed, LoadFault, Shelf, Sink, StoreFault};
use std::fs;
use std::io::{Read, Write};
use std::rt::Files;

/// The files of the system, by path.
#[derive(Drop)]
pub struct FsShelf<'a, R: Files> {
    rt: &'a R,
    load_faults: u64,
    store_faults: u64,
}

impl<'a, R: Files> FsShelf<'a, R> {
    /// The files that this runtime reaches.
    pub fn new(rt: &'a R) -> Self {
        FsShelf {
            rt,
            load_faults: 0,
            store_faults: 0,
        }
    }
}

// Adds a piece to what was read, up to one byte past the limit.
fn add_piece(piece: &[u8], limit: u64, into: &mut Vec<u8>) -> Result<(), LoadFault>
    requires limit { limit < 2 ^ 64 - 1 }
    requires within { vec_len into.old ≤ limit }
    ensures within { OnOk result (vec_len into.new ≤ limit) }
    ensures too_long { IsErrOf result LoadFault.TooLong → vec_len into.new ≡ limit + 1 }
{
    let room = limit - into.len() as u64;
    if room < piece.len() as u64 {
        into.extend_from_slice(&piece[..room as usize + 1])?;
        return Err(LoadFault::TooLong);
    }
    into.extend_from_slice(piece)?;
    Ok(())
}

// Reads to the end, piece by piece, into an empty vector, up to one byte past the limit.
fn read_pieces<F: Read>(file: &mut F, limit: u64, into: &mut Vec<u8>) -> Result<(), LoadFault>
    requires limit { limit < 2 ^ 64 - 1 }
    requires emptied { into.old.items ≡ [] }
    ensures within { OnOk result (vec_len into.new ≤ limit) }
    ensures too_long { IsErrOf result LoadFault.TooLong → vec_len into.new ≡ limit + 1 }
{
    let mut piece = [0u8; 4096];
    for _ in 0..u64::MAX {
        let count = file.read(&mut piece).map_err(|_| LoadFault::Failed)?;
        if count == 0 {
            return Ok(());
        }
        add_piece(&piece[..count], limit, into)?;
    }
    Err(LoadFault::Failed)
}

fn read_file<R: Files>(rt: &R, name: &str, limit: u64, into: &mut Vec<u8>) -> Result<(), LoadFault>
    requires limit { limit < 2 ^ 64 - 1 }
    requires emptied { into.old.items ≡ [] }
    ensures within { OnOk result (vec_len into.new ≤ limit) }
    ensures too_long { IsErrOf result LoadFault.TooLong → vec_len into.new ≡ limit + 1 }
{
    let mut file = fs::open(rt, name).map_err(|_| LoadFault::Failed)?;
    read_pieces(&mut file, limit, into)
}

impl<R: Files> Shelf for FsShelf<'_, R> {
    ghost tells = { false };

    ghost file = { λ _ _. None };

    ghost failed = { λ _. None };

    ghost load_faults = { λ s. s.load_faults };

    ghost store_faults = { λ s. s.store_faults };

    fn load(&mut self, name: &str, limit: u64, into: &mut Vec<u8>) -> Result<(), LoadFault> {
        into.clear();
        let result = read_file(self.rt, name, limit, into);
        if result == Err(LoadFault::Failed) {
            self.load_faults = self.load_faults.saturating_add(1);
            into.clear();
        }
        if result == Err(LoadFault::Memory) {
            into.clear();
        }
        result
    }

    fn store(&mut self, name: &str, bytes: &[u8]) -> Result<(), StoreFault> {
        if fs::write(self.rt, name, bytes).is_err() {
            self.store_faults = self.store_faults.saturating_add(1);
            return Err(StoreFault::Failed);
        }
        Ok(())
    }
}

/// A stream of the system, as standard output.
#[derive(Drop)]
pub struct OutSink<W: Write> {
    stream: W,
    faults: u64,
}

impl<W: Write> OutSink<W> {
    /// A sink over this stream.
    pub fn new(stream: W) -> Self {
        OutSink { stream, faults: 0 }
    }
}

impl<W: Write> Sink for OutSink<W> {
    ghost taken = { λ _. None };

    ghost faults = { λ s. s.faults };

    fn write(&mut self, piece: &[u8]) -> Result<usize, Failed> {
        match self.stream.write(piece) {
            Ok(count) if count > 0 || piece.is_empty() => Ok(count),
            _ => {
                self.faults = self.faults.saturating_add(1);
                Err(Failed)
            }
        }
    }
}
