// Numbers and lengths, and what a primitive returns without making a tree.
ghost use Rattle.std.specs.Prelude.{◌≡◌};
ghost use Rattle.tx_prim.specs.Arithmetic.{amount_size, is_length, are_alike, amount};

/// A number, or a length in thousandths of a cell.
#[derive(Clone, Copy, Debug, PartialEq, Eq)]
pub enum Amount {
    /// A number.
    Number(i64),
    /// A length in thousandths of a cell.
    Length(i64),
}

/// Why a primitive gives an error.
#[derive(Clone, Copy, Debug, PartialEq, Eq)]
pub enum ValueFault {
    /// The operands are none that the primitive takes.
    Bad,
    /// A result, or a step on the way to it, isn't within 64 bits.
    Overflow,
    /// The divisor is 0.
    Zero,
    /// No such part.
    NoPart,
    /// More children than a node may have.
    Limit,
}

/// What a primitive returns, where that is no part of its operands.
#[derive(Clone, Copy, Debug, PartialEq, Eq)]
pub enum Answer {
    /// A number or a length.
    Value(Amount),
    /// `true` or `false`.
    Truth(bool),
    /// An error.
    Failed(ValueFault),
}

/// What a fold does with each further operand.
#[derive(Clone, Copy, Debug, PartialEq, Eq)]
pub enum Operation {
    /// Adds it.
    Add,
    /// Takes it away.
    Subtract,
    /// Multiplies by it.
    Multiply,
}

impl Amount {
    // The number, or the thousandths of a cell.
    pub(crate) fn size(self) -> i64
        ensures { result ≡ amount_size self }
    {
        match self {
            Amount::Number(n) => n,
            Amount::Length(n) => n,
        }
    }

    pub(crate) fn is_length(self) -> bool
        ensures { result ≡ is_length self }
    {
        match self {
            Amount::Number(_) => false,
            Amount::Length(_) => true,
        }
    }

    // Whether both are numbers, or both are lengths.
    pub(crate) fn is_like(self, other: Amount) -> bool
        ensures { result ≡ are_alike self other }
    {
        match (self, other) {
            (Amount::Number(_), Amount::Number(_)) => true,
            (Amount::Length(_), Amount::Length(_)) => true,
            (Amount::Number(_), Amount::Length(_)) => false,
            (Amount::Length(_), Amount::Number(_)) => false,
        }
    }

    // A length, or a number.
    pub(crate) fn new(long: bool, size: i64) -> Amount
        ensures { result ≡ amount long size }
    {
        if long {
            Amount::Length(size)
        } else {
            Amount::Number(size)
        }
    }
}
