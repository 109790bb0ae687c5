// The limit of files as a number.
ghost use Rattle.std.specs.Prelude.{◌≡◌};

use crate::MOST_FILE;

/// A law: the most bytes of a file, by which contracts and definitions name them, are 2^24.
pub fn file_limit_law()
    ensures { MOST_FILE ≡ 16777216 }
{}
