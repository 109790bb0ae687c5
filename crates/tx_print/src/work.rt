// The steps of a refresh as they are printed.
ghost use Rattle.tx_print.specs.Work.{work_reply};
ghost use Rattle.tx_print.specs.Writing.{IsPrinted};

use crate::pieces::push_numbered;
use crate::printer::Printer;
use tx_outside::{Sink, WriteFault};

/// Prints `work N`, with this number.
pub fn print_work<O: Sink>(number: u64, out: &mut O) -> Result<(), WriteFault>
    ensures { IsPrinted result (work_reply number) (O.seen out.old) (O.seen out.new) }
{
    let mut printer = Printer::new();
    push_numbered(&mut printer, b"work ", number, out);
    printer.finish(out)
}
