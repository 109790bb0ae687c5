// Bytes on their way to a sink, in a buffer of some size, so that few pieces are written.
ghost use Rattle.std.specs.Prelude.{◌≡◌, [], false};
ghost use Rattle.tx_print.specs.Printers.{PrinterAdds, Ends};

use arrayvec::ArrayVec;
use tx_outside::{Sink, WriteFault, write_all};

/// Bytes that wait to be written. Once the sink has failed no more is written, and the last call returns the fault.
#[derive(Drop)]
pub(crate) struct Printer {
    waiting: ArrayVec<u8, 4096>,
    failed: bool,
}

impl Printer {
    /// A printer that was given nothing.
    pub(crate) fn new() -> Printer
        ensures waiting { result.waiting.items ≡ [] }
        ensures failed { result.failed ≡ false }
    {
        Printer {
            waiting: ArrayVec::new(),
            failed: false,
        }
    }

    // Writes what waits.
    fn flush<O: Sink>(&mut self, out: &mut O)
        ensures adds { PrinterAdds [] self.old (O.seen out.old) self.new (O.seen out.new) }
        ensures empty { self.new.failed ≡ false → self.new.waiting.items ≡ [] }
    {
        if self.failed {
            return;
        }
        match write_all(out, self.waiting.as_slice()) {
            Ok(()) => self.waiting.clear(),
            Err(WriteFault::Failed) => self.failed = true,
        }
    }

    // Writes a piece, where nothing waits.
    fn write<O: Sink>(&mut self, piece: &[u8], out: &mut O)
        requires { self.old.failed ≡ false → self.old.waiting.items ≡ [] }
        ensures { PrinterAdds piece.now self.old (O.seen out.old) self.new (O.seen out.new) }
    {
        if self.failed {
            return;
        }
        match write_all(out, piece) {
            Ok(()) => {}
            Err(WriteFault::Failed) => self.failed = true,
        }
    }

    /// Adds a piece.
    pub(crate) fn push<O: Sink>(&mut self, piece: &[u8], out: &mut O)
        ensures { PrinterAdds piece.now self.old (O.seen out.old) self.new (O.seen out.new) }
    {
        if self.waiting.try_extend_from_slice(piece).is_err() {
            self.flush(out);
            self.write(piece, out);
        }
    }

    /// Writes what waits, and returns whether the sink has failed.
    pub(crate) fn finish<O: Sink>(mut self, out: &mut O) -> Result<(), WriteFault>
        ensures { Ends result self (O.seen out.old) (O.seen out.new) }
    {
        self.flush(out);
        if self.failed {
            return Err(WriteFault::Failed);
        }
        Ok(())
    }
}
