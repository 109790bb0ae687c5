// The rows on numbers and lengths.
ghost use Rattle.std.specs.Prelude.{◌≡◌, false, pos, count_by};
ghost use Rattle.std.specs.List.{list_all, list_any};
ghost use Rattle.std.specs.Ordering.{int_eq};
ghost use Rattle.tx_prim.specs.Numbers.{if_fits};
ghost use Rattle.tx_prim.specs.Arithmetic.{if_held, is_length, are_alike, rest_of, operation, folded, total};
ghost use Rattle.tx_prim.specs.Arithmetic.{minus, times, divided, quotient, left_over, remainder, of_two};

use crate::amounts::{Amount, Answer, Operation, ValueFault};

pub(crate) const BAD: Answer = Answer::Failed(ValueFault::Bad);

// The length or the number, where 64 bits hold it.
fn if_held(long: bool, size: Option<i64>) -> Answer
    ensures { result ≡ if_held long size }
{
    match size {
        Some(size) => Answer::Value(Amount::new(long, size)),
        None => Answer::Failed(ValueFault::Overflow),
    }
}

impl Operation {
    fn on(self, x: i64, y: i64) -> Option<i64>
        ensures { result ≡ if_fits (operation self x y) }
    {
        match self {
            Operation::Add => x.checked_add(y),
            Operation::Subtract => x.checked_sub(y),
            Operation::Multiply => x.checked_mul(y),
        }
    }
}

// The operation over all, from the left.
fn folded(operation: Operation, first: i64, others: &[Amount]) -> Option<i64>
    ensures { result ≡ folded operation first others.now }
{
    let mut so_far = first;
    for other in others {
        so_far = operation.on(so_far, other.size())?;
    }
    Some(so_far)
}

fn are_like(first: Amount, others: &[Amount]) -> bool
    ensures { result ≡ list_all (are_alike first) others.now }
{
    others.iter().all(|other| first.is_like(*other))
}

fn count_lengths(amounts: &[Amount]) -> usize
    ensures { result ≡ count_by is_length amounts.now }
{
    amounts.iter().filter(|amount| amount.is_length()).count()
}

fn has_length(amounts: &[Amount]) -> bool
    ensures { result ≡ list_any is_length amounts.now }
{
    amounts.iter().any(|amount| amount.is_length())
}

// The operation over one or more numbers, or one or more lengths.
pub(crate) fn total(operation: Operation, amounts: &[Amount]) -> Answer
    ensures { result ≡ total operation amounts.now }
{
    match amounts {
        [] => BAD,
        [first, others @ ..] => {
            if !are_like(*first, others) {
                return BAD;
            }
            if_held(first.is_length(), folded(operation, first.size(), others))
        }
    }
}

pub(crate) fn minus(amounts: &[Amount]) -> Answer
    ensures { result ≡ minus amounts.now }
{
    match amounts {
        [only] => if_held(only.is_length(), only.size().checked_neg()),
        _ => total(Operation::Subtract, amounts),
    }
}

pub(crate) fn times(amounts: &[Amount]) -> Answer
    ensures { result ≡ times amounts.now }
{
    match amounts {
        [] => BAD,
        [first, others @ ..] => {
            if count_lengths(amounts) > 1 {
                return BAD;
            }
            if_held(
                has_length(amounts),
                folded(Operation::Multiply, first.size(), others),
            )
        }
    }
}

// The quotient, cut toward zero.
fn divided(long: bool, x: i64, y: i64) -> Answer
    ensures { result ≡ divided long x y }
{
    if y == 0 {
        return Answer::Failed(ValueFault::Zero);
    }
    if_held(long, x.checked_div(y))
}

fn quotient(a: Amount, b: Amount) -> Answer
    ensures { result ≡ quotient a b }
{
    match (a, b) {
        (Amount::Number(x), Amount::Number(y)) => divided(false, x, y),
        (Amount::Length(x), Amount::Number(y)) => divided(true, x, y),
        (Amount::Length(x), Amount::Length(y)) => divided(false, x, y),
        (Amount::Number(_), Amount::Length(_)) => BAD,
    }
}

// The first less the second times their quotient.
fn rest_of(x: i64, y: i64) -> i64
    requires { int_eq y (pos 0) ≡ false }
    ensures { result ≡ rest_of x y }
{
    if y == -1 {
        return 0;
    }
    x % y
}

fn left_over(long: bool, x: i64, y: i64) -> Answer
    ensures { result ≡ left_over long x y }
{
    if y == 0 {
        return Answer::Failed(ValueFault::Zero);
    }
    Answer::Value(Amount::new(long, rest_of(x, y)))
}

fn remainder(a: Amount, b: Amount) -> Answer
    ensures { result ≡ remainder a b }
{
    match (a, b) {
        (Amount::Number(x), Amount::Number(y)) => left_over(false, x, y),
        (Amount::Length(x), Amount::Length(y)) => left_over(true, x, y),
        (Amount::Number(_), Amount::Length(_)) => BAD,
        (Amount::Length(_), Amount::Number(_)) => BAD,
    }
}

pub(crate) fn div(amounts: &[Amount]) -> Answer
    ensures { result ≡ of_two quotient amounts.now }
{
    match amounts {
        [a, b] => quotient(*a, *b),
        _ => BAD,
    }
}

pub(crate) fn modulo(amounts: &[Amount]) -> Answer
    ensures { result ≡ of_two remainder amounts.now }
{
    match amounts {
        [a, b] => remainder(*a, *b),
        _ => BAD,
    }
}
