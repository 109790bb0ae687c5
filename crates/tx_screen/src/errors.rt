// The list of errors.
ghost use Rattle.std.specs.Prelude.{◌≡◌};

use crate::desk::Desk;
use crate::lines::{Line, go_lines, no_lines};
use crate::modes::Mode;
use std::alloc::Global;
use tx_base::Memory;
use tx_keys::Key;
use tx_session::Session;
use tx_tree::Place;

impl Desk {
    // Shows the errors, unless there are none.
    pub(crate) fn show_errors(&mut self, session: &Session) -> Result<(), Memory>
        ensures painted { self.new.painted ≡ self.old.painted }
    {
        if session.view().errors() == 0 {
            return self.say("No errors");
        }
        self.mode = Mode::Errors(0);
        self.say("Up and Down choose, Enter goes there, Escape goes back")
    }

    // A key that chooses among the errors.
    pub(crate) fn error_key(
        &mut self,
        alloc: Global,
        session: &Session,
        chosen: u32,
        key: Key,
    ) -> Result<Vec<Line>, Memory>
        ensures painted { self.new.painted ≡ self.old.painted }
    {
        let last = session.view().errors().saturating_sub(1);
        let next = match key {
            Key::Up => chosen.saturating_sub(1),
            Key::Down => chosen.saturating_add(1).min(last),
            Key::PageUp => chosen.saturating_sub(20),
            Key::PageDown => chosen.saturating_add(20).min(last),
            Key::Enter => return self.go_to_error(alloc, session, chosen),
            _ => return no_lines(alloc),
        };
        self.mode = Mode::Errors(next);
        no_lines(alloc)
    }

    // Puts the cursor before the paragraph of an error.
    fn go_to_error(
        &mut self,
        alloc: Global,
        session: &Session,
        chosen: u32,
    ) -> Result<Vec<Line>, Memory>
        ensures painted { self.new.painted ≡ self.old.painted }
    {
        match session.view().error(chosen) {
            Some((Some(path), _)) => {
                let path = path.copy(alloc)?;
                go_lines(alloc, Some(Place { path, offset: 0 }))
            }
            _ => self.say_alone(alloc, "This error is in a style"),
        }
    }
}
