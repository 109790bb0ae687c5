// Where bytes come from.
ghost use Rattle.std.specs.Prelude.{◌≡◌, ◌<◌, ◌≤◌, []};
ghost use Rattle.std.specs.Prelude.{length, take, IfOk, OnErr, IfSome};
ghost use Rattle.std.specs.Io.KnownBytes.{prepend_known};
ghost use Rattle.tx_outside.specs.Counts.{Rose};
ghost use Rattle.tx_outside.specs.Outside.{SourceGoesOn, SourceSeen};

use crate::Failed;

/// A source of bytes, such as the standard input.
pub trait Source {
    /// The bytes that are still to come, where the source reports them, and how often it has failed: a number up to
    /// 2^64 - 1 that never falls.
    ghost seen: { Self → SourceSeen };

    /// Takes the next bytes into the start of `into`, which isn't empty, and returns how many. It returns 0 only at the
    /// end. The rest of `into` is left open. After `Failed` no byte is taken, and all of `into` is left open.
    fn read(&mut self, into: &mut [u8]) -> Result<usize, Failed>
        requires { 0 < length into.old }
        ensures within { IfOk result (λ n. n ≤ length into.old) }
        ensures taken { IfOk result (λ n.
            (seen self.old).left ≡ prepend_known (take n into.new) (seen self.new).left) }
        ensures zero_at_end { IfOk result (λ n. n ≡ 0 → IfSome (seen self.old).left (λ bytes. bytes ≡ [])) }
        ensures failed_rose { OnErr result (Rose (seen self.old).faults (seen self.new).faults) }
        ensures failed_keeps { OnErr result ((seen self.new).left ≡ (seen self.old).left) }
        ensures goes_on { SourceGoesOn (seen self.old) (seen self.new) };
}
