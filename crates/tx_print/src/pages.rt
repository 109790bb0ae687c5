// Pages as they are printed.
ghost use Rattle.std.specs.Prelude.{◌≡◌, slice_get};
ghost use Rattle.tx_print.specs.Lines.{line_text};
ghost use Rattle.tx_print.specs.Pages.{counts_text, page_numbered, page_reply, page_text, show_text};
ghost use Rattle.tx_print.specs.Printers.{PrinterAdds, element_text};
ghost use Rattle.tx_print.specs.Writing.{IsPrinted};
ghost use Rattle.tx_view_form.specs.Views.{lines_of};

use crate::lines::push_line;
use crate::pieces::{push_number, push_numbered};
use crate::printer::Printer;
use tx_lines::Cut;
use tx_outside::{Sink, WriteFault};
use tx_view::View;

// The page of this number, counted from 1.
fn page_numbered(pages: &[Cut], number: u32) -> Option<Cut>
    ensures { result ≡ page_numbered pages.now number }
{
    if number == 0 {
        return None;
    }
    pages.get(number as usize - 1).copied()
}

// Prints how many pages and rows there are.
fn push_counts<O: Sink>(printer: &mut Printer, view: &View, out: &mut O)
    ensures { PrinterAdds (counts_text view.now.shown) printer.old (O.seen out.old) printer.new (O.seen out.new) }
{
    printer.push(b"pages ", out);
    push_number(printer, view.pages().len(), out);
    push_numbered(printer, b" rows ", view.rows(), out);
}

// Prints a row, or nothing past the last one.
fn push_row<O: Sink>(printer: &mut Printer, view: &View, r: u32, out: &mut O)
    ensures { PrinterAdds (element_text line_text (slice_get (lines_of view.now.shown.units) r))
        printer.old (O.seen out.old) printer.new (O.seen out.new) }
{
    if let Some(line) = view.line(r) {
        push_line(printer, line, out);
    }
}

// Prints a page of this number.
fn push_page<O: Sink>(printer: &mut Printer, view: &View, number: usize, page: Cut, out: &mut O)
    ensures { PrinterAdds (page_text (lines_of view.now.shown.units) number page)
        printer.old (O.seen out.old) printer.new (O.seen out.new) }
{
    push_numbered(printer, b"page ", number, out);
    for r in page.from..page.to {
        push_row(printer, view, r, out);
    }
}

// Prints how many pages and rows there are, and each page.
fn push_pages<O: Sink>(printer: &mut Printer, view: &View, out: &mut O)
    ensures { PrinterAdds (show_text view.now.shown) printer.old (O.seen out.old) printer.new (O.seen out.new) }
{
    push_counts(printer, view, out);
    for (i, page) in view.pages().iter().enumerate() {
        push_page(printer, view, i + 1, *page, out);
    }
}

/// Prints `pages P rows R`, the numbers of pages and of rows, and then each page, as [`print_page`] does.
pub fn print_pages<O: Sink>(view: &View, out: &mut O) -> Result<(), WriteFault>
    ensures { IsPrinted result (show_text view.now.shown) (O.seen out.old) (O.seen out.new) }
{
    let mut printer = Printer::new();
    push_pages(&mut printer, view, out);
    printer.finish(out)
}

// Prints the page of this number, or how many there are.
fn push_numbered_page<O: Sink>(printer: &mut Printer, view: &View, number: u32, out: &mut O)
    ensures { PrinterAdds (page_reply view.now.shown number) printer.old (O.seen out.old) printer.new (O.seen out.new) }
{
    match page_numbered(view.pages(), number) {
        Some(page) => push_page(printer, view, number as usize, page, out),
        None => push_numbered(printer, b"no page ", view.pages().len(), out),
    }
}

/// Prints `page N` and the lines of page n, counted from 1, or `no page P` with the number of pages where there is
/// none. A line is its indent in spaces, its clusters, and a space for each cell of a gap.
pub fn print_page<O: Sink>(view: &View, n: u32, out: &mut O) -> Result<(), WriteFault>
    ensures { IsPrinted result (page_reply view.now.shown n) (O.seen out.old) (O.seen out.new) }
{
    let mut printer = Printer::new();
    push_numbered_page(&mut printer, view, n, out);
    printer.finish(out)
}
