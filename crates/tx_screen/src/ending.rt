// How a run of the screen ends.
ghost use Rattle.std.specs.Prelude.{◌≡◌};
ghost use Rattle.tx_screen.specs.Endings.{ending_number};

/// How a run of the screen ends.
#[derive(Clone, Copy, Debug, PartialEq, Eq)]
pub enum Ending {
    /// The user left.
    Left,
    /// The words of the command line aren't taken.
    Words,
    /// A file isn't there.
    Missing,
    /// A file is too long, or spells no tree within the limits.
    Refused,
    /// The store failed when a file was loaded.
    StoreFault,
    /// The input failed.
    InputFault,
    /// The output failed.
    OutputFault,
    /// Memory ran out before the first page was shown.
    NoMemory,
    /// There were 2^64 - 1 reads.
    InputLong,
    /// The input ended, and there were no changes that weren't saved.
    InputEnded,
    /// The input ended, and there were changes that weren't saved. They are lost.
    Unsaved,
}

impl Ending {
    /// The number with which the program ends: 0 for `Left`, 2 to 9 as a status of `tx_session` has it for the same
    /// cause, 10 for `InputEnded` and 11 for `Unsaved`.
    pub fn number(self) -> u8
        ensures { result ≡ ending_number self }
    {
        match self {
            Ending::Left => 0,
            Ending::Words => 2,
            Ending::Missing => 3,
            Ending::Refused => 4,
            Ending::StoreFault => 5,
            Ending::InputFault => 6,
            Ending::OutputFault => 7,
            Ending::NoMemory => 8,
            Ending::InputLong => 9,
            Ending::InputEnded => 10,
            Ending::Unsaved => 11,
        }
    }
}
