// The table: a row for each name.
ghost use Rattle.std.specs.Prelude.{◌≡◌, ◌≤◌, ◌+◌, IfOk, OnOk};
ghost use Rattle.tx_tree.specs.WideTree.{forest, total_size};
ghost use Rattle.tx_prim.specs.Operands.{every, amount_in, truth_in};
ghost use Rattle.tx_prim.specs.Table.{primitive_value, told, on_all, calculated, connected};

use crate::MOST_OPERANDS;
use crate::amounts::{Amount, Answer, Operation};
use crate::arithmetic::{BAD, div, minus, modulo, times, total};
use crate::comparing::{Comparison, all_true, compared, none_true, one_true, sameness, some_true};
use crate::lists::{label_told, look_up, merge, range};
use crate::making::told;
use crate::names::Prim;
use crate::operands::{amounts, truths};
use crate::shapes::{arity, is_tuple, length};
use std::alloc::Global;
use std::sync::ledger::Ledger;
use tx_base::Steps;
use tx_tree::{Memory, Tree};

/// A row on numbers and lengths.
#[derive(Clone, Copy)]
pub enum Calculation {
    /// `plus`
    Sum,
    /// `minus`
    Difference,
    /// `times`
    Product,
    /// `div`
    Quotient,
    /// `mod`
    Remainder,
}

/// A row on true and false.
#[derive(Clone, Copy)]
pub enum Connective {
    /// `and`
    AllTrue,
    /// `or`
    SomeTrue,
    /// `xor`
    OneTrue,
    /// `not`
    NoneTrue,
}

fn calculated(row: Calculation, amounts: &[Amount]) -> Answer
    ensures { result ≡ calculated row amounts.now }
{
    match row {
        Calculation::Sum => total(Operation::Add, amounts),
        Calculation::Difference => minus(amounts),
        Calculation::Product => times(amounts),
        Calculation::Quotient => div(amounts),
        Calculation::Remainder => modulo(amounts),
    }
}

// The tree of a row on numbers and lengths.
fn calculate<L: Ledger>(
    alloc: Global,
    which: Prim,
    row: Calculation,
    operands: &[Tree],
    steps: &mut Steps<L>,
) -> Result<Tree, Memory>
    ensures made { IfOk result (λ t. t ≡ told which (on_all (calculated row) (every amount_in operands.now))) }
    ensures counted { OnOk result (steps.new ≡ steps.old + 1) }
{
    match amounts(alloc, operands)? {
        Some(all) => told(alloc, which, calculated(row, &all), steps),
        None => told(alloc, which, BAD, steps),
    }
}

fn connected(row: Connective, truths: &[bool]) -> Answer
    ensures { result ≡ connected row truths.now }
{
    match row {
        Connective::AllTrue => all_true(truths),
        Connective::SomeTrue => some_true(truths),
        Connective::OneTrue => one_true(truths),
        Connective::NoneTrue => none_true(truths),
    }
}

// The tree of a row on true and false.
fn connect<L: Ledger>(
    alloc: Global,
    which: Prim,
    row: Connective,
    operands: &[Tree],
    steps: &mut Steps<L>,
) -> Result<Tree, Memory>
    ensures made { IfOk result (λ t. t ≡ told which (on_all (connected row) (every truth_in operands.now))) }
    ensures counted { OnOk result (steps.new ≡ steps.old + 1) }
{
    match truths(alloc, operands)? {
        Some(all) => told(alloc, which, connected(row, &all), steps),
        None => told(alloc, which, BAD, steps),
    }
}

/// The value of a primitive: that of its row of the table, an error where the row says so. It is one step.
pub fn primitive<L: Ledger>(
    alloc: Global,
    which: Prim,
    operands: &[Tree],
    steps: &mut Steps<L>,
) -> Result<Tree, Memory>
    requires { total_size (forest operands.now) ≤ MOST_OPERANDS }
    ensures value { IfOk result (λ t. t ≡ primitive_value which operands.now) }
    ensures counted { OnOk result (steps.new ≡ steps.old + 1) }
{
    match which {
        Prim::Plus => calculate(alloc, which, Calculation::Sum, operands, steps),
        Prim::Minus => calculate(alloc, which, Calculation::Difference, operands, steps),
        Prim::Times => calculate(alloc, which, Calculation::Product, operands, steps),
        Prim::Div => calculate(alloc, which, Calculation::Quotient, operands, steps),
        Prim::Mod => calculate(alloc, which, Calculation::Remainder, operands, steps),
        Prim::Equal => told(alloc, which, sameness(true, operands), steps),
        Prim::Unequal => told(alloc, which, sameness(false, operands), steps),
        Prim::Less => told(alloc, which, compared(Comparison::Before, operands), steps),
        Prim::LessEq => told(
            alloc,
            which,
            compared(Comparison::NotBehind, operands),
            steps,
        ),
        Prim::Greater => told(alloc, which, compared(Comparison::Behind, operands), steps),
        Prim::GreaterEq => told(
            alloc,
            which,
            compared(Comparison::NotBefore, operands),
            steps,
        ),
        Prim::And => connect(alloc, which, Connective::AllTrue, operands, steps),
        Prim::Or => connect(alloc, which, Connective::SomeTrue, operands, steps),
        Prim::Xor => connect(alloc, which, Connective::OneTrue, operands, steps),
        Prim::Not => connect(alloc, which, Connective::NoneTrue, operands, steps),
        Prim::Merge => merge(alloc, operands, steps),
        Prim::Length => told(alloc, which, length(operands), steps),
        Prim::Range => range(alloc, operands, steps),
        Prim::IsTuple => told(alloc, which, is_tuple(operands), steps),
        Prim::LookUp => look_up(alloc, operands, steps),
        Prim::GetLabel => label_told(alloc, operands, steps),
        Prim::GetArity => told(alloc, which, arity(operands), steps),
    }
}
