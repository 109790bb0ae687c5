// How many places hold a byte.
ghost use Rattle.std.specs.Prelude.{◌≡◌, ◌+◌, ◌≤◌, ◌==◌, length, count_by};
ghost use Rattle.std.specs.Simd.Lanes.{chunk};

use crate::stop_set::BLOCK_SIZE;
use std::simd::prelude::*;

/// How many places of `bytes` hold `b`.
pub fn count_of(bytes: &[u8], b: u8) -> usize
    ensures { result ≡ count_by (λ x. x == b) bytes.now }
{
    let mut total = 0;
    let mut at = 0;
    while bytes.len() - at >= BLOCK_SIZE {
        total += count_in_block(bytes, at, b);
        at += BLOCK_SIZE;
    }
    total + count_one_by_one(&bytes[at..], b)
}

// How many of the 32 bytes from `at` on are `b`.
#[inline(always)]
fn count_in_block(bytes: &[u8], at: usize, b: u8) -> usize
    requires { at + BLOCK_SIZE ≤ length bytes.now }
    ensures { result ≡ count_by (λ x. x == b) (chunk at BLOCK_SIZE bytes.now) }
{
    let block = u8x32::from_slice(&bytes[at..]);
    block.simd_eq(u8x32::splat(b)).to_bitmask().count_ones() as usize
}

// Returns what `count_of` returns, a byte at a time.
fn count_one_by_one(bytes: &[u8], b: u8) -> usize
    ensures { result ≡ count_by (λ x. x == b) bytes.now }
{
    bytes.iter().filter(|x| **x == b).count()
}
