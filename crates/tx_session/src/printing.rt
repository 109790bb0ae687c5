// What commands print of the view.
ghost use Rattle.tx_print.specs.Writing.{IsPrinted};
ghost use Rattle.tx_session.specs.States.{view_reply};

use tx_cmd::Command;
use tx_outside::{Sink, WriteFault};
use tx_print::{print_attrs, print_errors, print_page, print_pages, print_place};
use tx_view::View;

/// Prints what a command asks of the view, without memory: its pages, one of them, its errors, a place or attributes.
/// Of other commands nothing is printed.
pub(crate) fn print_view<O: Sink>(
    view: &View,
    command: &Command,
    out: &mut O,
) -> Result<(), WriteFault>
    ensures { IsPrinted result (view_reply view.now.width view.now.shown command.now) (O.seen out.old)
        (O.seen out.new) }
{
    match command {
        Command::Show => print_pages(view, out),
        Command::Page(number) => print_page(view, *number, out),
        Command::Errors => print_errors(view, out),
        Command::PlaceOf(r, c) => print_place(view, *r, *c, out),
        Command::Attrs(r) => print_attrs(view, *r, out),
        _ => Ok(()),
    }
}
