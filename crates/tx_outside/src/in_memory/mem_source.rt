// A source over bytes in memory.
ghost use Rattle.std.specs.Prelude.{◌≡◌, ◌↔◌, ◌<◌, ◌++◌};
ghost use Rattle.std.specs.Prelude.{length, take, drop, min, IfOk, IsErr, OnErr};
ghost use Rattle.tx_outside.specs.Counts.{Rose};
ghost use Rattle.tx_outside.specs.InMemory.{NextFails, no_calls, one_more, one_failed, seen_source};
ghost use Rattle.tx_outside.specs.Outside.{SourceGoesOn};

use super::call_numbers::Calls;
use crate::{Failed, Source};
use std::marker::Model;

/// A source over bytes in memory. Its calls are numbered from 0, and those whose numbers it is given fail. The number
/// stops at 2^64 - 1.
#[derive(Drop)]
pub struct MemSource {
    bytes: Vec<u8>,
    taken: usize,
    calls: Calls,
}

impl Model for MemSource {
    ghost use Rattle.std.specs.Prelude.{◌≤◌, drop, length};
    ghost use Rattle.tx_outside.specs.InMemory.{MemorySource};

    ghost Value = { MemorySource };

    ghost view = { λ s. record { left = drop s.taken s.bytes.items; calls = s.calls } };

    ghost invariant = { λ s. s.taken ≤ length s.bytes.items };
}

impl MemSource {
    /// A source of these bytes, which fails at the calls of these numbers.
    pub fn new(bytes: Vec<u8>, failing: Vec<u64>) -> MemSource
        ensures { result ≡ record { left = bytes.items; calls = no_calls failing.items } }
    {
        MemSource {
            bytes,
            taken: 0,
            calls: Calls::new(failing),
        }
    }
}

impl Source for MemSource {
    ghost seen = { seen_source };

    /// Takes as many bytes as are left and fit, and leaves the rest of `into` as it was. A call that fails
    /// leaves all of it as it was.
    fn read(&mut self, into: &mut [u8]) -> Result<usize, Failed>
        requires { 0 < length into.old }

        // It fails exactly at the numbers that it was given.
        ensures failed { IsErr result ↔ NextFails self.old.calls }
        ensures failed_source { OnErr result (self.new ≡ record self.old { calls = one_failed self.old.calls }) }
        ensures failed_into { OnErr result (into.new ≡ into.old) }

        ensures count { IfOk result (λ n. n ≡ min (length self.old.left) (length into.old)) }
        ensures source { IfOk result (λ n.
            self.new ≡ record { left = drop n self.old.left; calls = one_more self.old.calls }) }
        ensures into { IfOk result (λ n. into.new ≡ take n self.old.left ++ drop n into.old) }

        ensures failed_rose { OnErr result (Rose self.old.calls.faults self.new.calls.faults) }
        ensures goes_on { SourceGoesOn (seen_source self.old) (seen_source self.new) }
    {
        if self.calls.take_number() {
            self.calls.count_fault();
            return Err(Failed);
        }
        let rest = &self.bytes[self.taken..];
        let count = rest.len().min(into.len());
        into[..count].copy_from_slice(&rest[..count]);
        self.taken += count;
        Ok(count)
    }
}
