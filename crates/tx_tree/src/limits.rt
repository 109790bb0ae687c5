// The limits as numbers.
ghost use Rattle.std.specs.Prelude.{◌≡◌};

use crate::{
    MOST_ARITY, MOST_DEPTH, MOST_DIGITS, MOST_LABEL, MOST_NAME, MOST_NUMBER, MOST_SIZE, MOST_STEPS,
    MOST_TEXT,
};

/// A law: the limits of texts, labels, trees and paths, by which contracts and definitions name them, are these
/// numbers.
pub fn limit_laws()
    ensures text { MOST_TEXT ≡ 1048575 }
    ensures label { MOST_LABEL ≡ 64 }
    ensures name { MOST_NAME ≡ 255 }
    ensures arity { MOST_ARITY ≡ 65535 }
    ensures depth { MOST_DEPTH ≡ 400 }
    ensures size { MOST_SIZE ≡ 8000000 }
    ensures path { MOST_STEPS ≡ 400 }
    ensures digits { MOST_DIGITS ≡ 10 }
    ensures number { MOST_NUMBER ≡ 4294967295 }
{}
