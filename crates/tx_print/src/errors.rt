// Errors as they are printed.
ghost use Rattle.std.specs.Prelude.{option_copied, slice_get};
ghost use Rattle.tx_view_form.specs.Errors.{errors_of};
ghost use Rattle.tx_print.specs.Errors.{detail_text, error_text, errors_text, unit_text};
ghost use Rattle.tx_print.specs.Printers.{PrinterAdds, element_text};
ghost use Rattle.tx_print.specs.Writing.{IsPrinted};

use crate::pieces::{push_numbered, push_path, push_shown};
use crate::printer::Printer;
use tx_items::ErrorAt;
use tx_outside::{Sink, WriteFault};
use tx_tree::{Path, Text};
use tx_view::View;

// Prints the path of a unit, or a dash.
fn push_unit<O: Sink>(printer: &mut Printer, path: Option<&Path>, out: &mut O)
    ensures { PrinterAdds (unit_text (option_copied path.entry)) printer.old (O.seen out.old) printer.new
        (O.seen out.new) }
{
    match path {
        Some(path) => push_path(printer, path, out),
        None => printer.push(b"-", out),
    }
}

// Prints a space and the detail, or nothing.
fn push_detail<O: Sink>(printer: &mut Printer, detail: &Text, out: &mut O)
    ensures { PrinterAdds (detail_text detail.now) printer.old (O.seen out.old) printer.new (O.seen out.new) }
{
    if !detail.bytes().is_empty() {
        printer.push(b" ", out);
        push_shown(printer, detail, out);
    }
}

// Prints an error of the unit with this path, or without one.
fn push_error<O: Sink>(printer: &mut Printer, path: Option<&Path>, error: &ErrorAt, out: &mut O)
    ensures { PrinterAdds (error_text (option_copied path.entry, error.now))
        printer.old (O.seen out.old) printer.new (O.seen out.new) }
{
    push_unit(printer, path, out);
    printer.push(b" ", out);
    push_shown(printer, &error.kind, out);
    push_detail(printer, &error.detail, out);
    printer.push(b"\n", out);
}

// Prints the error of this number, or nothing past the last one.
fn push_numbered_error<O: Sink>(printer: &mut Printer, view: &View, k: u32, out: &mut O)
    ensures { PrinterAdds (element_text error_text (slice_get (errors_of view.now.shown.units) k))
        printer.old (O.seen out.old) printer.new (O.seen out.new) }
{
    if let Some((path, error)) = view.error(k) {
        push_error(printer, path, error, out);
    }
}

// Prints how many errors there are, and each of them.
fn push_errors<O: Sink>(printer: &mut Printer, view: &View, out: &mut O)
    ensures { PrinterAdds (errors_text view.now.shown) printer.old (O.seen out.old) printer.new (O.seen out.new) }
{
    let count = view.errors();
    push_numbered(printer, b"errors ", count, out);
    for k in 0..count {
        push_numbered_error(printer, view, k, out);
    }
}

/// Prints `errors K`, and of each of the K errors the path of its unit, or a dash for a unit that isn't in the body,
/// its kind, and its detail where there is one, in display text.
pub fn print_errors<O: Sink>(view: &View, out: &mut O) -> Result<(), WriteFault>
    ensures { IsPrinted result (errors_text view.now.shown) (O.seen out.old) (O.seen out.new) }
{
    let mut printer = Printer::new();
    push_errors(&mut printer, view, out);
    printer.finish(out)
}
