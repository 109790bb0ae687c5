// The standard input and output.
ghost use Rattle.std.specs.Prelude.{◌≡◌, ◌<◌, ◌≤◌, length, take, IfOk, OnErr};
ghost use Rattle.std.specs.Io.KnownBytes.{Appends, Consumes, IsAtEnd, Keeps, append_known, prepend_known};
ghost use Rattle.tx_outside.specs.Counts.{Rose};
ghost use Rattle.tx_outside.specs.Outside.{SinkGoesOn, SourceGoesOn};
ghost use Rattle.tx_system.specs.Devices.{input_faults, output_faults, reader_of, seen_input, seen_output, writer_of};

use crate::counts::raised;
use std::io::{self, Read, Write};
use tx_outside::{Failed, Sink, Source};

/// The standard input. It reports no bytes, and counts its failures.
#[derive(Drop)]
pub struct StandardInput<R: Read + Drop> {
    reader: R,
    faults: u64,
}

impl<R: Read + Drop> StandardInput<R> {
    /// What the reader gives, with no failure yet.
    pub fn new(reader: R) -> StandardInput<R>
        ensures reader { reader_of result ≡ reader }
        ensures faults { input_faults result ≡ 0 }
    {
        StandardInput { reader, faults: 0 }
    }
}

impl<R: Read + Drop> Source for StandardInput<R> {
    ghost seen = { λ input. seen_input input };

    /// What the reader gives, no more and no less. It returns 0 only at the reader's end, and fails only where the
    /// reader did.
    fn read(&mut self, into: &mut [u8]) -> Result<usize, Failed>
        requires { 0 < length into.old }

        // What the reader gave.
        ensures within { IfOk result (λ n. n ≤ length into.old) }
        ensures consumed { IfOk result (λ n.
            Consumes (R.remaining (reader_of self.old)) (R.remaining (reader_of self.new)) (take n into.new)) }
        ensures end { IfOk result (λ n. n ≡ 0 → IsAtEnd (R.remaining (reader_of self.new))) }
        ensures failed_rose { OnErr result (Rose (input_faults self.old) (input_faults self.new)) }
        ensures failed_takes_nothing { OnErr result
            (Keeps (R.remaining (reader_of self.old)) (R.remaining (reader_of self.new))) }
        ensures goes_on { SourceGoesOn (seen_input self.old) (seen_input self.new) }
    {
        match self.reader.read(into) {
            Ok(count) => Ok(count),
            Err(_) => {
                self.faults = raised(self.faults);
                Err(Failed)
            }
        }
    }
}

/// The standard output. It reports no bytes, flushes what it is given at once, and counts its failures.
#[derive(Drop)]
pub struct StandardOutput<W: Write + Drop> {
    writer: W,
    faults: u64,
}

impl<W: Write + Drop> StandardOutput<W> {
    /// What goes to the writer, with no failure yet.
    pub fn new(writer: W) -> StandardOutput<W>
        ensures writer { writer_of result ≡ writer }
        ensures faults { output_faults result ≡ 0 }
    {
        StandardOutput { writer, faults: 0 }
    }

    // Writes some of the piece, and flushes it.
    #[tactic(auto, using(crate::proofs::Known::written_and_flushed))]
    fn write_some(&mut self, piece: &[u8]) -> io::Result<usize>
        ensures within { IfOk result (λ n. n ≤ length piece.now) }
        ensures appended { IfOk result (λ n.
            Appends (W.contents self.old.writer) (W.contents self.new.writer) (take n piece.now)) }
        ensures faults { self.new.faults ≡ self.old.faults }
    {
        let count = self.writer.write(piece)?;
        self.writer.flush()?;
        Ok(count)
    }
}

impl<W: Write + Drop> Sink for StandardOutput<W> {
    ghost seen = { λ output. seen_output output };

    /// Puts the first bytes of the piece into the writer and flushes it, and returns how many: at least one. Where the
    /// flushing fails, the bytes may have been put in.
    fn write(&mut self, piece: &[u8]) -> Result<usize, Failed>
        ensures some { IfOk result (λ n. 0 < n) }
        ensures within { IfOk result (λ n. n ≤ length piece.now) }
        ensures put { IfOk result (λ n.
            Appends (W.contents (writer_of self.old)) (W.contents (writer_of self.new)) (take n piece.now)) }
        ensures failed_rose { OnErr result (Rose (output_faults self.old) (output_faults self.new)) }
        ensures goes_on { SinkGoesOn (seen_output self.old) (seen_output self.new) }
    {
        match self.write_some(piece) {
            Ok(count) if count > 0 => Ok(count),
            _ => {
                self.faults = raised(self.faults);
                Err(Failed)
            }
        }
    }
}
