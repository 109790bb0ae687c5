// The first place that holds a stop.
ghost use Rattle.std.specs.Prelude.{◌≡◌, ℕ, ◌+◌, ◌<◌, ◌≤◌, length, slice_index, false, true};
ghost use Rattle.tx_scan.specs.Stops.{is_stop, first_stop_from};

use crate::stop_set::{BLOCK_SIZE, Stops};

/// The least place at or after `from` whose byte is in the set or below 32, or the length of `bytes`
/// where there is none. Places are counted from the start of `bytes`, and `from` is at most its length.
pub fn first_stop(bytes: &[u8], from: usize, stops: &Stops) -> usize
    requires { from ≤ length bytes.now }
    ensures value { result ≡ first_stop_from stops.now bytes.now from }
    ensures from_on { from ≤ result }
    ensures within { result ≤ length bytes.now }
    ensures before { (k : ℕ) → from ≤ k → k < result
        → is_stop stops.now (slice_index bytes.now k) ≡ false }
    ensures found { result < length bytes.now
        → is_stop stops.now (slice_index bytes.now result) ≡ true }
{
    let mut at = from;
    while bytes.len() - at >= BLOCK_SIZE {
        let run = stops.run_in_block(bytes, at);
        if run < BLOCK_SIZE {
            return at + run;
        }
        at += BLOCK_SIZE;
    }
    first_stop_one_by_one(bytes, at, stops)
}

// Returns what `first_stop` returns, a byte at a time.
fn first_stop_one_by_one(bytes: &[u8], from: usize, stops: &Stops) -> usize
    requires { from ≤ length bytes.now }
    ensures { result ≡ first_stop_from stops.now bytes.now from }
{
    for at in from..bytes.len() {
        if stops.is_stop(bytes[at]) {
            return at;
        }
    }
    bytes.len()
}
