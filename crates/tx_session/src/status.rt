// How a run ends.
ghost use Rattle.std.specs.Prelude.{◌≡◌};
ghost use Rattle.tx_session.specs.Statuses.{status_number};

/// How a run of the program ends.
#[derive(Clone, Copy, Debug, PartialEq, Eq)]
pub enum Status {
    /// The script was read to its end or to `quit`.
    Ok,
    /// The words of the command line aren't taken.
    Words,
    /// A file isn't there.
    Missing,
    /// A file is too long, or spells no tree within the limits.
    Refused,
    /// The store failed when a file was loaded.
    StoreFault,
    /// The input failed.
    InputFault,
    /// The output failed.
    OutputFault,
    /// Memory ran out at opening, or a line of the script couldn't be stored.
    NoMemory,
    /// The script is too long.
    ScriptLong,
}

impl Status {
    /// The number with which the program ends: 0 for `Ok`, and from 2 to 9 for the others.
    pub fn number(self) -> u8
        ensures { result ≡ status_number self }
    {
        match self {
            Status::Ok => 0,
            Status::Words => 2,
            Status::Missing => 3,
            Status::Refused => 4,
            Status::StoreFault => 5,
            Status::InputFault => 6,
            Status::OutputFault => 7,
            Status::NoMemory => 8,
            Status::ScriptLong => 9,
        }
    }
}
