// The set of bytes that end a run, and its test of 32 bytes at once.
ghost use Rattle.std.specs.Prelude.{◌≡◌, ◌↔◌, ℕ, ◌+◌, ◌-◌, ◌<◌, ◌≤◌, List, ◌++◌};
ghost use Rattle.std.specs.Prelude.{length, take, replicate, IsTrue, IsSome, IfSome};
ghost use Rattle.std.specs.List.{position_or_len};
ghost use Rattle.std.specs.Simd.Lanes.{chunk};
ghost use Rattle.tx_scan.specs.Stops.{is_stop};

use std::marker::Model;
use std::simd::prelude::*;

/// How many bytes a block has.
pub(crate) const BLOCK_SIZE: usize = 32;

/// The largest size of a set.
const MAX_SIZE: usize = 8;

/// The lowest byte that is no control byte.
const SPACE: u8 = b' ';

/// A set of at most eight bytes that end a run of plain bytes. The bytes below 32 end one whatever
/// the set.
///
/// A contract sees it as the list of the set's bytes.
#[derive(Drop)]
pub struct Stops {
    // The set, and then zeros, which are control bytes and so stops in any case.
    bytes: [u8; MAX_SIZE],
    size: usize,
}

impl Model for Stops {
    ghost Value = { List ℕ };

    ghost view = { λ s. take s.size s.bytes };

    ghost invariant = { λ s. (s.size ≤ 8)
        × (s.bytes ≡ take s.size s.bytes ++ replicate (8 - s.size) 0) };
}

impl Stops {
    /// The stops of `set`, or `None` where it has more than eight bytes. It may be empty, and may have a byte twice.
    pub fn new(set: &[u8]) -> Option<Stops>
        ensures some { IsSome result ↔ (length set.now ≤ 8) }
        ensures value { IfSome result (λ stops. stops ≡ set.now) }
    {
        if set.len() > MAX_SIZE {
            return None;
        }
        let mut bytes = [0; MAX_SIZE];
        bytes[..set.len()].copy_from_slice(set);
        Some(Stops {
            bytes,
            size: set.len(),
        })
    }

    // Whether `byte` is a stop.
    #[inline(always)]
    pub(crate) fn is_stop(&self, byte: u8) -> bool
        ensures { result ≡ is_stop self.now byte }
    {
        byte < SPACE || self.bytes.contains(&byte)
    }

    // How many of the 32 bytes from `at` on come before the first stop among them.
    #[inline(always)]
    pub(crate) fn run_in_block(&self, bytes: &[u8], at: usize) -> usize
        requires { at + BLOCK_SIZE ≤ length bytes.now }
        ensures { result ≡ position_or_len (is_stop self.now) (chunk at BLOCK_SIZE bytes.now) }
    {
        let block = u8x32::from_slice(&bytes[at..]);
        let mut stops = block.simd_lt(u8x32::splat(SPACE));
        for byte in &self.bytes {
            stops |= block.simd_eq(u8x32::splat(*byte));
        }
        let marks = stops.to_bitmask();
        if marks == 0 {
            BLOCK_SIZE
        } else {
            marks.trailing_zeros() as usize
        }
    }
}
