// Places as they are printed.
ghost use Rattle.std.specs.Prelude.{◌++◌, ◌∷◌, [], decimal, slice_get};
ghost use Rattle.tx_tree.specs.PathSpelling.{numbers_text, place_text};
ghost use Rattle.tx_view_form.specs.Positions.{whole_path};
ghost use Rattle.tx_print.specs.Lines.{line};
ghost use Rattle.tx_print.specs.Places.{no_cell, place_reply};
ghost use Rattle.tx_print.specs.Printers.{PrinterAdds, element_text};
ghost use Rattle.tx_print.specs.Writing.{IsPrinted};

use crate::pieces::{push_number, push_numbered, push_step, push_steps};
use crate::printer::Printer;
use tx_origin::{Base, Ip, Spot};
use tx_outside::{Sink, WriteFault};
use tx_tree::Place;
use tx_view::View;

/// Prints `no cell ROWS WIDTH`, with the number of rows and the width of the page.
pub(crate) fn push_no_cell<O: Sink>(printer: &mut Printer, view: &View, out: &mut O)
    ensures { PrinterAdds (no_cell view.now.shown view.now.width) printer.old (O.seen out.old) printer.new
        (O.seen out.new) }
{
    printer.push(b"no cell ", out);
    push_number(printer, view.rows(), out);
    push_numbered(printer, b" ", view.width(), out);
}

// Prints a slash and the number of an origin at a place, or nothing past its last one.
fn push_step_at<O: Sink>(printer: &mut Printer, origin: &Ip, i: usize, out: &mut O)
    ensures { PrinterAdds (element_text (λ n. 47 ∷ decimal n) (slice_get origin.now i))
        printer.old (O.seen out.old) printer.new (O.seen out.new) }
{
    if let Some(number) = origin.step(i) {
        push_step(printer, number, out);
    }
}

// Prints a slash and a number for each number of an origin.
fn push_origin<O: Sink>(printer: &mut Printer, origin: &Ip, out: &mut O)
    ensures { PrinterAdds (numbers_text origin.now) printer.old (O.seen out.old) printer.new (O.seen out.new) }
{
    for i in 0..origin.len() {
        push_step_at(printer, origin, i, out);
    }
}

// Prints a slash and a number for each number of a path that is lent in two pieces.
fn push_base<O: Sink>(printer: &mut Printer, base: &Base<'_>, out: &mut O)
    ensures { PrinterAdds (numbers_text base.now) printer.old (O.seen out.old) printer.new (O.seen out.new) }
{
    let (front, below) = base.pieces();
    push_steps(printer, front, out);
    push_steps(printer, below, out);
}

// Prints a slash and the offset of a place, which ends its line.
fn push_offset<O: Sink>(printer: &mut Printer, offset: u32, out: &mut O)
    ensures { PrinterAdds (line (47 ∷ decimal offset)) printer.old (O.seen out.old) printer.new (O.seen out.new) }
{
    push_numbered(printer, b"/", offset, out);
}

// Prints the line of a place that is given from the path of a unit.
fn push_spot<O: Sink>(printer: &mut Printer, spot: &Spot<'_>, out: &mut O)
    ensures { PrinterAdds (line (place_text (whole_path spot.now) spot.now.offset))
        printer.old (O.seen out.old) printer.new (O.seen out.new) }
{
    push_base(printer, spot.base(), out);
    match spot.origin() {
        Some(origin) => {
            push_origin(printer, origin, out);
            push_offset(printer, spot.offset(), out);
        }
        None => push_offset(printer, spot.offset(), out),
    }
}

// Prints the place at a row and a column, or that there is no such cell.
fn push_place_at<O: Sink>(printer: &mut Printer, view: &View, r: u32, c: u32, out: &mut O)
    ensures { PrinterAdds (place_reply view.now.shown view.now.width r c) printer.old (O.seen out.old)
        printer.new (O.seen out.new) }
{
    match view.position(r, c) {
        Some(spot) => push_spot(printer, &spot, out),
        None => push_no_cell(printer, view, out),
    }
}

/// Prints the place of the document at column c of row r, or `no cell ROWS WIDTH`, with the number of rows and the
/// width of the page, past the last row or column. Both are counted from 0.
pub fn print_place<O: Sink>(view: &View, r: u32, c: u32, out: &mut O) -> Result<(), WriteFault>
    ensures { IsPrinted result (place_reply view.now.shown view.now.width r c) (O.seen out.old) (O.seen out.new) }
{
    let mut printer = Printer::new();
    push_place_at(&mut printer, view, r, c, out);
    printer.finish(out)
}

// Prints the line of a place.
fn push_place<O: Sink>(printer: &mut Printer, place: &Place, out: &mut O)
    ensures { PrinterAdds (line (place_text place.now.path place.now.offset)) printer.old (O.seen out.old)
        printer.new (O.seen out.new) }
{
    push_steps(printer, place.path.steps(), out);
    push_offset(printer, place.offset, out);
}

/// Prints a place: a slash before each number of its path and before its offset.
pub fn print_cursor<O: Sink>(place: &Place, out: &mut O) -> Result<(), WriteFault>
    ensures { IsPrinted result (line (place_text place.now.path place.now.offset)) (O.seen out.old) (O.seen out.new) }
{
    let mut printer = Printer::new();
    push_place(&mut printer, place, out);
    printer.finish(out)
}
