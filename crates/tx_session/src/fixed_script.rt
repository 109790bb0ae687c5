// A script that is part of the program.
ghost use Rattle.std.specs.Prelude.{Some};

use tx_outside::{Failed, Source};

/// The commands for the session of a generated document: pages before and after a change and its undoing.
pub(crate) const GENERATED_SCRIPT: &[u8] =
    b"page 0\nwhere 4294967295 0\nerrors\ninsert / 0 (tuple \"top\")\npage 0\nundo\npage 0\npage 1\ncursor\nquit\n";

/// The bytes that are left of a script in the program, as a source that never fails.
#[derive(Drop)]
pub(crate) struct FixedScript {
    pub(crate) rest: &'static [u8],
}

impl Source for FixedScript {
    ghost seen = { λ script. record { left = Some script.rest.now; faults = 0 } };

    fn read(&mut self, into: &mut [u8]) -> Result<usize, Failed> {
        let count = self.rest.len().min(into.len());
        into[..count].copy_from_slice(&self.rest[..count]);
        self.rest = &self.rest[count..];
        Ok(count)
    }
}
