// The base style.
ghost use Rattle.std.specs.Prelude.{◌≡◌, ◌+◌, ◌≤◌, List, map, IfOk, OnOk};
ghost use Rattle.tx_scm.specs.Spelling.{Spells};
ghost use Rattle.tx_tree.specs.WideTree.{WideTree, nodes_of};
ghost use Rattle.tx_units.specs.BaseTexts.{IsSpelled, AreSpelled, IsOfText, AreOfTexts};
ghost use Rattle.tx_units.specs.Units.{base_units, nodes_made};
ghost use Rattle.tx_units.specs.declared.kinds.Unit.{Unit as DocUnit};

use crate::kinds::{Unit, UnitKind};
use std::alloc::Global;
use std::sync::ledger::Ledger;
use tx_base::{Memory, Steps};
use tx_tree::{ReadFault, Tree};

/// How many units the base style has.
pub const BASE_UNITS: u32 = 26;

// The trees of the base style, in the Scheme syntax.
const BASE_STYLE: [&str; 26] = [
    r#"(assign "font-series" "medium")"#,
    r#"(assign "font-shape" "right")"#,
    r#"(assign "color" "black")"#,
    r#"(assign "par-mode" "left")"#,
    r#"(assign "par-left" "0mcell")"#,
    r#"(assign "par-right" "0mcell")"#,
    r#"(assign "par-first" "0mcell")"#,
    r#"(assign "em" (macro "x" (with "font-shape" "italic" (arg "x"))))"#,
    r#"(assign "strong" (macro "x" (with "font-series" "bold" (arg "x"))))"#,
    r#"(assign "section-nr" "0")"#,
    r#"(assign "subsection-nr" "0")"#,
    "(assign \"section\" (macro \"t\" (concat (assign \"section-nr\" (plus (value \"section-nr\") \
        \"1\")) (assign \"subsection-nr\" \"0\") (with \"font-series\" \"bold\" (concat (value \
        \"section-nr\") \" \" (arg \"t\"))))))",
    "(assign \"subsection\" (macro \"t\" (concat (assign \"subsection-nr\" (plus (value \
        \"subsection-nr\") \"1\")) (with \"font-series\" \"bold\" (concat (value \"section-nr\") \".\" \
        (value \"subsection-nr\") \" \" (arg \"t\"))))))",
    r#"(assign "item-kind" "bullet")"#,
    r#"(assign "item-nr" "0")"#,
    "(assign \"item\" (macro (concat (assign \"item-nr\" (plus (value \"item-nr\") \"1\")) (if (equal \
        (value \"item-kind\") \"number\") (merge (value \"item-nr\") \". \") \"- \"))))",
    "(assign \"itemize\" (macro \"b\" (with \"par-left\" (plus (value \"par-left\") \"2spc\") \
        \"item-kind\" \"bullet\" \"item-nr\" \"0\" (arg \"b\"))))",
    "(assign \"enumerate\" (macro \"b\" (with \"par-left\" (plus (value \"par-left\") \"2spc\") \
        \"item-kind\" \"number\" \"item-nr\" \"0\" (arg \"b\"))))",
    "(assign \"quotation\" (macro \"b\" (with \"par-left\" (plus (value \"par-left\") \"4spc\") \
        \"par-right\" (plus (value \"par-right\") \"4spc\") (arg \"b\"))))",
    r#"(assign "center" (macro "b" (with "par-mode" "center" (arg "b"))))"#,
    r#"(assign "verbatim" (macro "x" (with "font-family" "tt" (arg "x"))))"#,
    r#"(assign "math" (macro "x" (with "mode" "math" (arg "x"))))"#,
    r#"(assign "frac" (macro "a" "b" (concat "(" (arg "a") ")/(" (arg "b") ")")))"#,
    r#"(assign "sqrt" (macro "x" (concat "sqrt(" (arg "x") ")")))"#,
    r#"(assign "rsub" (macro "x" (concat "_" (arg "x"))))"#,
    r#"(assign "rsup" (macro "x" (concat "^" (arg "x"))))"#,
];

// The tree that the text spells.
fn spelled<L: Ledger>(alloc: Global, text: &str, steps: &mut Steps<L>) -> Result<Tree, Memory>
    requires { IsSpelled text.now }
    ensures found { IfOk result (λ t. Spells text.now t) }
    ensures made { (t : WideTree) → Spells text.now t → steps.new ≤ steps.old + nodes_of t }
{
    match tx_scm::read(alloc, text.as_bytes(), steps) {
        Ok(tree) => Ok(tree),
        Err(ReadFault::Memory) => Err(Memory),
        Err(ReadFault::Unclosed(_)) => unreachable!(),
        Err(ReadFault::Stray(_)) => unreachable!(),
        Err(ReadFault::BadEscape(_)) => unreachable!(),
        Err(ReadFault::BadLabel(_)) => unreachable!(),
        Err(ReadFault::BadText(_)) => unreachable!(),
        Err(ReadFault::Mismatch(..)) => unreachable!(),
        Err(ReadFault::After(_)) => unreachable!(),
        Err(ReadFault::Limit(..)) => unreachable!(),
    }
}

// The unit of the base style whose tree the text spells.
fn spelled_unit<L: Ledger>(alloc: Global, text: &str, steps: &mut Steps<L>) -> Result<Unit, Memory>
    requires { IsSpelled text.now }
    ensures ok { IfOk result (IsOfText text.now) }
    ensures made { (t : WideTree) → Spells text.now t → steps.new ≤ steps.old + nodes_of t }
{
    Ok(Unit::new(UnitKind::Base, spelled(alloc, text, steps)?))
}

// The units of the base style whose trees the texts spell.
fn spelled_units<L: Ledger>(
    alloc: Global,
    texts: &[&str],
    steps: &mut Steps<L>,
) -> Result<Vec<Unit>, Memory>
    requires { AreSpelled (map (λ text. text.now) texts.now) }
    ensures ok { IfOk result (λ us. AreOfTexts (map (λ text. text.now) texts.now) us.items) }
    ensures made { (us : List DocUnit) → AreOfTexts (map (λ text. text.now) texts.now) us
        → steps.new ≤ steps.old + nodes_made us }
{
    let mut units = Vec::with_capacity(alloc, texts.len())?;
    for text in texts {
        units.push(spelled_unit(alloc, text, steps)?)?;
    }
    Ok(units)
}

/// The units of the base style, each of which assigns a value to a name. Whatever it returns, the steps rise by at most
/// the nodes of their trees that aren't leaves.
pub fn base_units<L: Ledger>(alloc: Global, steps: &mut Steps<L>) -> Result<Vec<Unit>, Memory>
    ensures units { IfOk result (λ us. us.items ≡ base_units) }
    ensures counted { steps.new ≤ steps.old + nodes_made base_units }
{
    spelled_units(alloc, &BASE_STYLE, steps)
}
