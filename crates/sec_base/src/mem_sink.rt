//! A sink in memory, for tests: it has some room, and the calls that it is told to fail.
ghost use Rattle.std.specs.Prelude.{◌≡◌, ◌≤◌, ◌<◌, [], length, take, min, Some, is_err, IfOk, OnErr};
ghost use Rattle.sec_base.specs.Faults.{Rose, appended};
ghost use Rattle.sec_base.specs.MemSink.{refuses, room_left, after_write};

use crate::{Failed, Memory, Sink};
use std::alloc::Global;
use std::marker::Model;

/// Takes what fits in its room. Calls are numbered from 0; one whose number is listed fails, and so does one with a
/// nonempty piece where no room is left.
#[derive(Drop)]
pub struct MemSink {
    bytes: Vec<u8>,
    room: usize,
    fails: Vec<u64>,
    calls: u64,
    faults: u64,
}

impl Model for MemSink {
    ghost use Rattle.std.specs.Prelude.{◌≤◌, vec_len, vec_capacity};
    ghost use Rattle.sec_base.specs.Held.{Held};

    ghost Value = { Held };

    ghost view = { λ s. record { bytes = s.bytes.items; room = s.room; fails = s.fails.items; calls = s.calls; faults = s.faults } };

    ghost invariant = { λ s. (vec_len s.bytes ≤ s.room) × (s.room ≤ vec_capacity s.bytes) };
}

impl MemSink {
    /// An empty sink with room for so many bytes, which fails the calls with these numbers.
    pub fn with_room(alloc: Global, room: usize, fails: Vec<u64>) -> Result<Self, Memory>
        ensures { IfOk result (λ sink. sink ≡ record { bytes = []; room = room; fails = fails.items; calls = 0; faults = 0 }) }
    {
        Ok(MemSink {
            bytes: Vec::with_capacity(alloc, room)?,
            room,
            fails,
            calls: 0,
            faults: 0,
        })
    }

    /// What it has taken.
    pub fn bytes(&self) -> &[u8]
        ensures { result.now ≡ self.now.bytes }
    {
        &self.bytes
    }
}

impl Sink for MemSink {
    ghost taken = { λ s. Some s.bytes };

    ghost faults = { λ s. s.faults };

    fn write(&mut self, piece: &[u8]) -> Result<usize, Failed>
        // Which calls fail, how much the others take, and what stands after it.
        ensures fails { is_err result ≡ refuses self.old piece.now }
        ensures fits { IfOk result (λ n. n ≡ min (room_left self.old) (length piece.now)) }
        ensures state { self.new ≡ after_write self.old piece.now }
        ensures count { self.old.faults ≤ self.new.faults }
    {
        let listed = self.fails.contains(&self.calls);
        self.calls = self.calls.saturating_add(1);
        let left = self.room - self.bytes.len();
        if listed || (left == 0 && !piece.is_empty()) {
            self.faults = self.faults.saturating_add(1);
            return Err(Failed);
        }
        let count = left.min(piece.len());
        self.bytes.extend_from_slice(&piece[..count]).unwrap();
        Ok(count)
    }
}
