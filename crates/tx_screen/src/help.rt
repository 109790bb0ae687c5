// What F1 shows.
ghost use Rattle.std.specs.Prelude.{◌≡◌};

use crate::desk::Desk;
use crate::modes::Mode;
use std::alloc::Global;
use tx_base::Memory;

// The keys, each with what it does.
const HELP: &[u8] = b"Keys

  arrows                    move; up and down keep the column
  Home, End                 start and end of the row
  Page Up, Page Down        a page up, a page down
  Ctrl-Home, Ctrl-End       start and end of the document
  click                     the cursor goes to that cell
  Enter                     a new paragraph
  Backspace, Delete         take out what is before, or after, the cursor
  Ctrl-Z, Ctrl-Y            undo, redo
  Ctrl-S                    save
  Ctrl-F                    find a text
  Ctrl-E                    list the errors; Enter goes to one
  Ctrl-T                    say the cursor's path and the tags round it
  Ctrl-X                    give a command, as docs/COMMANDS.md lists them
  Ctrl-L                    draw the screen anew
  Ctrl-Q                    leave

Hold Shift to select text with the mouse. Ctrl-Z does not suspend.
";

impl Desk {
    // Shows the keys.
    pub(crate) fn show_help(&mut self, alloc: Global) -> Result<(), Memory>
        ensures painted { self.new.painted ≡ self.old.painted }
    {
        self.mode = Mode::Shown(Vec::from_slice(alloc, HELP)?);
        self.say("Any key goes back to the page")
    }
}
