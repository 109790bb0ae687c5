// The names of the primitives, and the words of their errors.
ghost use Rattle.std.specs.Prelude.{◌≡◌, find};
ghost use Rattle.std.specs.Str.{bytes_eq};
ghost use Rattle.tx_prim.specs.Names.{name_of, named, fault_text};

use crate::amounts::ValueFault;

/// The primitives, in the order of their table.
#[derive(Clone, Copy, Debug, PartialEq, Eq)]
pub enum Prim {
    /// `plus`: the sum.
    Plus,
    /// `minus`: the negation, or the first less the others.
    Minus,
    /// `times`: the product.
    Times,
    /// `div`: the quotient, cut toward zero.
    Div,
    /// `mod`: the remainder of that quotient.
    Mod,
    /// `equal`: whether two trees are the same.
    Equal,
    /// `unequal`: whether they aren't.
    Unequal,
    /// `less`: whether the first comes before the second.
    Less,
    /// `lesseq`: whether it doesn't come after it.
    LessEq,
    /// `greater`: whether it comes after it.
    Greater,
    /// `greatereq`: whether it doesn't come before it.
    GreaterEq,
    /// `and`: whether all are true.
    And,
    /// `or`: whether one is true.
    Or,
    /// `xor`: whether just one of two is true.
    Xor,
    /// `not`: whether it is false.
    Not,
    /// `merge`: texts or tuples joined.
    Merge,
    /// `length`: the number of items of a text, or of children.
    Length,
    /// `range`: some items of a text, or some children of a tuple.
    Range,
    /// `is-tuple`: whether a tree is a tuple.
    IsTuple,
    /// `look-up`: a child.
    LookUp,
    /// `get-label`: the label.
    GetLabel,
    /// `get-arity`: the number of children.
    GetArity,
}

const PRIMITIVES: [Prim; 22] = [
    Prim::Plus,
    Prim::Minus,
    Prim::Times,
    Prim::Div,
    Prim::Mod,
    Prim::Equal,
    Prim::Unequal,
    Prim::Less,
    Prim::LessEq,
    Prim::Greater,
    Prim::GreaterEq,
    Prim::And,
    Prim::Or,
    Prim::Xor,
    Prim::Not,
    Prim::Merge,
    Prim::Length,
    Prim::Range,
    Prim::IsTuple,
    Prim::LookUp,
    Prim::GetLabel,
    Prim::GetArity,
];

// The first of the primitives that has the name.
fn find_named(all: &[Prim], name: &[u8]) -> Option<Prim>
    ensures { result ≡ find (λ p. bytes_eq (name_of p) name.now) all.now }
{
    for which in all {
        if which.name() == name {
            return Some(*which);
        }
    }
    None
}

impl Prim {
    /// The name by which trees call it.
    pub fn name(self) -> &'static [u8]
        ensures { result.now ≡ name_of self }
    {
        match self {
            Prim::Plus => b"plus",
            Prim::Minus => b"minus",
            Prim::Times => b"times",
            Prim::Div => b"div",
            Prim::Mod => b"mod",
            Prim::Equal => b"equal",
            Prim::Unequal => b"unequal",
            Prim::Less => b"less",
            Prim::LessEq => b"lesseq",
            Prim::Greater => b"greater",
            Prim::GreaterEq => b"greatereq",
            Prim::And => b"and",
            Prim::Or => b"or",
            Prim::Xor => b"xor",
            Prim::Not => b"not",
            Prim::Merge => b"merge",
            Prim::Length => b"length",
            Prim::Range => b"range",
            Prim::IsTuple => b"is-tuple",
            Prim::LookUp => b"look-up",
            Prim::GetLabel => b"get-label",
            Prim::GetArity => b"get-arity",
        }
    }

    /// The primitive of this name, or None where it is the name of none.
    pub fn named(name: &[u8]) -> Option<Prim>
        ensures { result ≡ named name.now }
    {
        find_named(&PRIMITIVES, name)
    }
}

impl ValueFault {
    // The kind of the error.
    pub(crate) fn word(self) -> &'static [u8]
        ensures { result.now ≡ fault_text self }
    {
        match self {
            ValueFault::Bad => b"bad",
            ValueFault::Overflow => b"overflow",
            ValueFault::Zero => b"zero",
            ValueFault::NoPart => b"no-part",
            ValueFault::Limit => b"limit",
        }
    }
}
