// Where bytes go.
ghost use Rattle.std.specs.Prelude.{◌≡◌, ◌<◌, ◌≤◌, ◌++◌, ℕ, List, [], Option};
ghost use Rattle.std.specs.Prelude.{length, take, IfOk, OnOk, OnErr, IsOk};
ghost use Rattle.std.specs.Io.KnownBytes.{append_known};
ghost use Rattle.tx_outside.specs.Counts.{Rose};
ghost use Rattle.tx_outside.specs.Known.{AppendsPart};
ghost use Rattle.tx_outside.specs.Outside.{SinkGoesOn, SinkSeen};

use crate::{Failed, WriteFault};

/// A sink of bytes, such as the standard output.
pub trait Sink {
    /// The bytes that were written, where the sink reports them, and how often it has failed: a number up to 2^64 - 1
    /// that never falls.
    ghost seen: { Self → SinkSeen };

    /// Writes the first bytes of `piece`, which isn't empty, and returns how many: at least one, since a device that
    /// takes nothing of a piece has failed and counts it. After `Failed` nothing is written.
    fn write(&mut self, piece: &[u8]) -> Result<usize, Failed>
        requires { 0 < length piece.now }
        ensures some { IfOk result (λ n. 0 < n) }
        ensures within { IfOk result (λ n. n ≤ length piece.now) }
        ensures appended { IfOk result (λ n.
            (seen self.new).written ≡ append_known (seen self.old).written (take n piece.now)) }
        ensures failed_rose { OnErr result (Rose (seen self.old).faults (seen self.new).faults) }
        ensures failed_keeps { OnErr result ((seen self.new).written ≡ (seen self.old).written) }
        ensures goes_on { SinkGoesOn (seen self.old) (seen self.new) };
}

/// Writes the whole of `piece`, in as many calls as the sink needs, and in none where it is empty. After
/// `Failed` a part of the piece is written, from its start on.
pub fn write_all<O: Sink>(out: &mut O, piece: &[u8]) -> Result<(), WriteFault>
    ensures written { OnOk result ((O.seen out.new).written ≡ append_known (O.seen out.old).written piece.now) }
    ensures empty { piece.now ≡ [] → IsOk result × (out.new ≡ out.old) }
    ensures failed_rose { OnErr result (Rose (O.seen out.old).faults (O.seen out.new).faults) }
    ensures failed_part { OnErr result (AppendsPart piece.now (O.seen out.old).written (O.seen out.new).written) }
    ensures goes_on { SinkGoesOn (O.seen out.old) (O.seen out.new) }
{
    let mut done = 0;
    while done < piece.len() {
        done += out.write(&piece[done..])?;
    }
    Ok(())
}

/// A law: where a part of a piece was appended, that is a part of any longer piece. And where the whole of a piece was
/// appended and then a part of another, that is a part of the two in order.
pub fn parts_compose()
    ensures before { (x y : List ℕ) (old new : Option (List ℕ)) → AppendsPart x old new →
        AppendsPart (x ++ y) old new }
    ensures behind { (x y : List ℕ) (old between new : Option (List ℕ)) → between ≡ append_known old x →
        AppendsPart y between new → AppendsPart (x ++ y) old new }
{}
