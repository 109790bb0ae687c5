// What a name has in a frame.
use tx_origin::Tagged;

/// What a name has in a frame.
#[derive(Drop)]
pub(crate) enum Argument {
    /// There is no such parameter.
    Unbound,
    /// There is no argument for it.
    Missing,
    /// The argument.
    Here(Tagged),
    /// The parameter of an `xmacro`: all children of this tag.
    All(Tagged),
}
