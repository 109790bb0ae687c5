// Which arguments a parameter has.

/// Which arguments a parameter has.
#[derive(Clone, Copy, Debug, PartialEq, Eq)]
pub(crate) enum Binding {
    /// Each parameter of a `macro` has one.
    Each,
    /// The parameter of an `xmacro` has all.
    All,
}
