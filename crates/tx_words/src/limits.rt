// The limit as a number.
ghost use Rattle.std.specs.Prelude.{◌≡◌};

use crate::MOST_FILES;

/// A law: the limit, by which contracts and definitions name it, is this number.
pub fn limit_law()
    ensures { MOST_FILES ≡ 64 }
{}
