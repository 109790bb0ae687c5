// The attributes of the cells of a row as they are printed.
ghost use Rattle.std.specs.Prelude.{◌≡◌};
ghost use Rattle.std.specs.List.{flat_map};
ghost use Rattle.std.specs.Option.{option_copied};
ghost use Rattle.tx_view_form.specs.Cells.{drawn_in};
ghost use Rattle.tx_print.specs.Runs.{attrs_reply, cell_look, look_in, looks_on, run_text, runs_from, same_look};
ghost use Rattle.tx_print.specs.Begun.{runs_ended, run_going_on, is_like, looks_in, run_begun, open_run_in};
ghost use Rattle.tx_print.specs.Printers.{PrinterAdds};
ghost use Rattle.tx_print.specs.Writing.{IsPrinted};

use crate::pieces::{push_number, push_shown};
use crate::places::push_no_cell;
use crate::printer::Printer;
use tx_items::{Item, Look};
use tx_layout::{Line, item_cells};
use tx_outside::{Sink, WriteFault};
use tx_view::{View, drawn_in};

// Cells from a column on, which look the same. The cells of a line that isn't on a page may be many, so columns are
// numbers that count them all.
#[derive(Clone, Copy)]
struct Begun<'a> {
    from: u128,
    look: &'a Look,
}

// Whether the cells of clusters look the same.
fn same_look(one: &Look, other: &Look) -> bool
    ensures { result ≡ same_look (cell_look one.now) (cell_look other.now) }
{
    one.series().bytes() == other.series().bytes()
        && one.shape().bytes() == other.shape().bytes()
        && one.color().bytes() == other.color().bytes()
}

// How the cells of an item look, or None where they aren't those of a cluster.
fn look_of(item: &Item) -> Option<&Look>
    ensures { looks_in (option_copied result) ≡ look_in (drawn_in item.now) }
{
    match drawn_in(item) {
        Some(drawn) => Some(&drawn.look),
        None => None,
    }
}

// Whether cells that look so go on with a run.
fn is_like(look: Option<&Look>, run: &Begun<'_>) -> bool
    ensures { result ≡ is_like (looks_in (option_copied look.entry)) (cell_look run.now.look.now) }
{
    match look {
        Some(look) => same_look(run.look, look),
        None => false,
    }
}

// Prints the line of a run.
fn push_run<O: Sink>(printer: &mut Printer, run: &Begun<'_>, to: u128, out: &mut O)
    ensures { PrinterAdds (run_text (record { from = run.now.from; to = to; look = cell_look run.now.look.now }))
        printer.old (O.seen out.old) printer.new (O.seen out.new) }
{
    push_number(printer, run.from, out);
    printer.push(b" ", out);
    push_number(printer, to, out);
    printer.push(b" ", out);
    push_shown(printer, run.look.series(), out);
    printer.push(b" ", out);
    push_shown(printer, run.look.shape(), out);
    printer.push(b" ", out);
    push_shown(printer, run.look.color(), out);
    printer.push(b"\n", out);
}

// The run that begins at a column where cells look like this, or None where they aren't those of a cluster.
fn opened<'a>(look: Option<&'a Look>, at: u128) -> Option<Begun<'a>>
    ensures { open_run_in result ≡ run_begun (looks_in (option_copied look.entry)) at }
{
    match look {
        Some(look) => Some(Begun { from: at, look }),
        None => None,
    }
}

// Goes on with the run that has begun, or prints it and begins another one, at a column where cells look like this.
fn go_on<'a, O: Sink>(
    printer: &mut Printer,
    begun: Option<Begun<'a>>,
    look: Option<&'a Look>,
    at: u128,
    out: &mut O,
) -> Option<Begun<'a>>
    ensures run { open_run_in result ≡ run_going_on (open_run_in begun.entry) (looks_in (option_copied look.entry)) at }
    ensures adds { PrinterAdds
        (flat_map run_text (runs_ended (open_run_in begun.entry) (looks_in (option_copied look.entry)) at))
        printer.old (O.seen out.old) printer.new (O.seen out.new) }
{
    match begun {
        Some(run) => {
            if is_like(look, &run) {
                return Some(run);
            }
            push_run(printer, &run, at, out);
            opened(look, at)
        }
        None => opened(look, at),
    }
}

// Prints the runs of a line.
fn push_runs<O: Sink>(printer: &mut Printer, line: &Line, out: &mut O)
    ensures { PrinterAdds (flat_map run_text (runs_from 0 (looks_on line.now)))
        printer.old (O.seen out.old) printer.new (O.seen out.new) }
{
    let mut at = u128::from(line.indent);
    let mut begun = None;
    for item in line.items.all() {
        let cells = item_cells(item);
        if cells == 0 {
            continue;
        }
        begun = go_on(printer, begun, look_of(item), at, out);
        at += u128::from(cells);
    }
    if let Some(last) = begun {
        push_run(printer, &last, at, out);
    }
}

// Prints the runs of a row, or that there is no such row.
fn push_attributes<O: Sink>(printer: &mut Printer, view: &View, r: u32, out: &mut O)
    ensures { PrinterAdds (attrs_reply view.now.shown view.now.width r) printer.old (O.seen out.old)
        printer.new (O.seen out.new) }
{
    match view.line(r) {
        Some(line) => push_runs(printer, line, out),
        None => push_no_cell(printer, view, out),
    }
}

/// Prints a line for each longest run of cells of clusters in row r that have the same three attributes: its first
/// column, the column after its last, `font-series`, `font-shape` and `color`, in display text. The cells of the indent
/// and of gaps have no attributes. Past the last row it prints `no cell ROWS WIDTH`.
pub fn print_attrs<O: Sink>(view: &View, r: u32, out: &mut O) -> Result<(), WriteFault>
    ensures { IsPrinted result (attrs_reply view.now.shown view.now.width r) (O.seen out.old) (O.seen out.new) }
{
    let mut printer = Printer::new();
    push_attributes(&mut printer, view, r, out);
    printer.finish(out)
}
