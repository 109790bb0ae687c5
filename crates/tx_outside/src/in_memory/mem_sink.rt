// A sink into memory.
ghost use Rattle.std.specs.Prelude.{◌≡◌, ◌↔◌, ◌⊎◌, ◌<◌, ◌≤◌, ◌-◌, ◌++◌, []};
ghost use Rattle.std.specs.Prelude.{length, take, min, IfOk, IsErr, OnErr};
ghost use Rattle.tx_outside.specs.Counts.{Rose};
ghost use Rattle.tx_outside.specs.InMemory.{NextFails, no_calls, one_more, one_failed, seen_sink};
ghost use Rattle.tx_outside.specs.Outside.{SinkGoesOn};

use super::call_numbers::Calls;
use crate::{Failed, Sink};
use std::alloc::Global;
use std::marker::Model;
use tx_base::Memory;

/// A sink into memory, with room for so many bytes and no more. Its calls are numbered from 0, and those whose numbers
/// it is given fail, as do all once the room is full. The number stops at 2^64 - 1.
#[derive(Drop)]
pub struct MemSink {
    bytes: Vec<u8>,
    room: usize,
    calls: Calls,
}

impl Model for MemSink {
    ghost use Rattle.std.specs.Prelude.{◌≤◌, length, vec_capacity};
    ghost use Rattle.tx_outside.specs.InMemory.{MemorySink};

    ghost Value = { MemorySink };

    ghost view = { λ s. record { written = s.bytes.items; room = s.room; calls = s.calls } };

    ghost invariant = { λ s. (length s.bytes.items ≤ s.room) × (s.room ≤ vec_capacity s.bytes) };
}

impl MemSink {
    /// An empty sink with room for `room` bytes, for which it takes the memory now. It fails at the calls
    /// of these numbers.
    pub fn new(alloc: Global, room: usize, failing: Vec<u64>) -> Result<MemSink, Memory>
        ensures { IfOk result (λ sink. sink ≡ record { written = []; room = room; calls = no_calls failing.items }) }
    {
        Ok(MemSink {
            bytes: Vec::with_capacity(alloc, room)?,
            room,
            calls: Calls::new(failing),
        })
    }

    /// What was written, at most as many bytes as there was room for.
    pub fn written(&self) -> &[u8]
        ensures written { result.now ≡ self.now.written }
        ensures within_room { length self.now.written ≤ self.now.room }
    {
        &self.bytes
    }
}

impl Sink for MemSink {
    ghost seen = { seen_sink };

    /// Takes as many bytes of the piece as there is room for, and no memory.
    fn write(&mut self, piece: &[u8]) -> Result<usize, Failed>
        requires { 0 < length piece.now }

        // It fails exactly at the numbers that it was given, and where the room is full.
        ensures failed { IsErr result ↔ (NextFails self.old.calls ⊎ self.old.room ≤ length self.old.written) }
        ensures failed_sink { OnErr result (self.new ≡ record self.old { calls = one_failed self.old.calls }) }

        ensures count { IfOk result (λ n. n ≡ min (length piece.now) (self.old.room - length self.old.written)) }
        ensures sink { IfOk result (λ n. self.new ≡ record self.old {
          written = self.old.written ++ take n piece.now;
          calls = one_more self.old.calls;
        }) }

        ensures some { IfOk result (λ n. 0 < n) }
        ensures failed_rose { OnErr result (Rose self.old.calls.faults self.new.calls.faults) }
        ensures goes_on { SinkGoesOn (seen_sink self.old) (seen_sink self.new) }
    {
        let listed = self.calls.take_number();
        let space = self.room - self.bytes.len();
        if listed || space == 0 {
            self.calls.count_fault();
            return Err(Failed);
        }
        let count = piece.len().min(space);
        self.bytes.extend_from_slice(&piece[..count]).unwrap();
        Ok(count)
    }
}
