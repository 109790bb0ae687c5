// The limits of lines as numbers.
ghost use Rattle.std.specs.Prelude.{◌≡◌};

use crate::{MOST_LINE, MOST_NAME};

/// A law: the limits of lines and of the names in them, by which contracts and definitions name them, are these
/// numbers.
pub fn line_limit_laws()
    ensures line { MOST_LINE ≡ 1048576 }
    ensures name { MOST_NAME ≡ 255 }
{}
