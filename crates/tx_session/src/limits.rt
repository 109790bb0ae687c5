// The limit of scripts as a number.
ghost use Rattle.std.specs.Prelude.{◌≡◌};

use crate::MOST_SCRIPT;

/// A law: the most bytes of a script, by which contracts and definitions name them, are 2^24.
pub fn script_limit_law()
    ensures { MOST_SCRIPT ≡ 16777216 }
{}
