// Limits as numbers.
ghost use Rattle.std.specs.Prelude.{◌≡◌};

use crate::{MOST_BUFFERS, MOST_UNDO};

/// A law: the limits, by which contracts and definitions name them, are these numbers.
pub fn limit_law()
    ensures undo { MOST_UNDO ≡ 1000 }
    ensures buffers { MOST_BUFFERS ≡ 64 }
{}
