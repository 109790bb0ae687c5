// The lines of pages as they are printed.
ghost use Rattle.tx_print.specs.Lines.{line_text, printed_item};
ghost use Rattle.tx_print.specs.Printers.{PrinterAdds};

use crate::pieces::push_spaces;
use crate::printer::Printer;
use tx_items::Item;
use tx_layout::Line;
use tx_outside::Sink;

// Prints an item.
fn push_item<O: Sink>(printer: &mut Printer, item: &Item, out: &mut O)
    ensures { PrinterAdds (printed_item item.now) printer.old (O.seen out.old) printer.new (O.seen out.new) }
{
    match item {
        Item::Glyph(drawn) => printer.push(drawn.cluster.glyphs.bytes(), out),
        Item::Space(drawn) => printer.push(drawn.cluster.glyphs.bytes(), out),
        Item::Chance(_) => {}
        Item::Gap(cells) => push_spaces(printer, *cells, out),
        Item::Break => {}
        Item::PageEnd => {}
        Item::Down(_) => {}
    }
}

/// Prints a line.
pub(crate) fn push_line<O: Sink>(printer: &mut Printer, line: &Line, out: &mut O)
    ensures { PrinterAdds (line_text line.now) printer.old (O.seen out.old) printer.new (O.seen out.new) }
{
    push_spaces(printer, line.indent, out);
    for item in line.items.all() {
        push_item(printer, item, out);
    }
    printer.push(b"\n", out);
}
