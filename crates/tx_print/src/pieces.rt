// Numbers, paths and display texts as they are printed.
ghost use Rattle.std.specs.Prelude.{◌≡◌, ◌++◌, ◌∷◌, [], codes, decimal};
ghost use Rattle.tx_tree.specs.PathSpelling.{numbers_text, path_text};
ghost use Rattle.tx_print.specs.Lines.{line, shown, spaces};
ghost use Rattle.tx_print.specs.Printers.{PrinterAdds};

use crate::printer::Printer;
use itoa::{Buffer, Integer};
use tx_outside::Sink;
use tx_text::show_item;
use tx_tree::{Path, Text};

/// Prints so many spaces.
pub(crate) fn push_spaces<O: Sink>(printer: &mut Printer, count: u32, out: &mut O)
    ensures { PrinterAdds (spaces count) printer.old (O.seen out.old) printer.new (O.seen out.new) }
{
    for _ in 0..count {
        printer.push(b" ", out);
    }
}

/// Prints a number.
pub(crate) fn push_number<I: Integer, O: Sink>(printer: &mut Printer, number: I, out: &mut O)
    ensures { PrinterAdds (I.text number) printer.old (O.seen out.old) printer.new (O.seen out.new) }
{
    let mut digits = Buffer::new();
    printer.push(digits.format(number).as_bytes(), out);
}

/// Prints a line of words and a number.
pub(crate) fn push_numbered<I: Integer, O: Sink>(
    printer: &mut Printer,
    words: &[u8],
    number: I,
    out: &mut O,
)
    ensures { PrinterAdds (line (words.now ++ I.text number)) printer.old (O.seen out.old) printer.new
        (O.seen out.new) }
{
    printer.push(words, out);
    push_number(printer, number, out);
    printer.push(b"\n", out);
}

/// Prints a slash and a number.
pub(crate) fn push_step<O: Sink>(printer: &mut Printer, number: u32, out: &mut O)
    ensures { PrinterAdds (47 ∷ decimal number) printer.old (O.seen out.old) printer.new (O.seen out.new) }
{
    printer.push(b"/", out);
    push_number(printer, number, out);
}

/// Prints a slash and a number for each of these numbers of a path.
pub(crate) fn push_steps<O: Sink>(printer: &mut Printer, steps: &[u32], out: &mut O)
    ensures { PrinterAdds (numbers_text steps.now) printer.old (O.seen out.old) printer.new (O.seen out.new) }
{
    for number in steps {
        push_step(printer, *number, out);
    }
}

/// Prints a path.
pub(crate) fn push_path<O: Sink>(printer: &mut Printer, path: &Path, out: &mut O)
    ensures { PrinterAdds (path_text path.now) printer.old (O.seen out.old) printer.new (O.seen out.new) }
{
    if path.steps().is_empty() {
        printer.push(b"/", out);
    } else {
        push_steps(printer, path.steps(), out);
    }
}

/// Prints the display text of a text.
pub(crate) fn push_shown<O: Sink>(printer: &mut Printer, text: &Text, out: &mut O)
    ensures { PrinterAdds (shown text.now) printer.old (O.seen out.old) printer.new (O.seen out.new) }
{
    if text.bytes().is_empty() {
        return;
    }
    let mut glyphs = [0; 300];
    let mut at = 0;
    while let Some((count, next)) = show_item(text, at, &mut glyphs) {
        printer.push(&glyphs[..count], out);
        at = next;
    }
}
