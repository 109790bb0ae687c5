// The call that `map-args` makes.
ghost use Rattle.std.specs.Prelude.{◌≡◌, ◌+◌, ◌-◌, ◌*◌, ◌<◌, ◌≤◌, ℕ, List, [], ◌∷◌, length, Ok, Some, None, Option};
ghost use Rattle.std.specs.Prelude.{IfOk, OnOk, IfSome, drop, codes};
ghost use Rattle.std.specs.List.{range_with_len, list_all};
ghost use Rattle.std.specs.Fmt.{decimal};
ghost use Rattle.tx_tree.specs.Labels.{is_label_byte};
ghost use Rattle.tx_tree.specs.WideTree.{leaf, node, forest, size_of, text_of};
ghost use Rattle.tx_origin.specs.TaggedTrees.{TaggedTree, tagged_of, kids_of};
ghost use Rattle.tx_exec_form.specs.Runs.{Before};
ghost use Rattle.tx_exec_form.specs.Frames.{Frame};
ghost use Rattle.tx_exec_form.specs.Words.{is_label};
ghost use Rattle.tx_exec_form.specs.Numbers.{integers_of, from_number, to_number, numbers_between};
ghost use Rattle.tx_exec_form.specs.Rows.{Eval, map_args, map_named, map_numbered, evaluated_made};
ghost use Rattle.tx_exec_form.specs.Rows.{item_call, call_over};
ghost use Rattle.tx_exec.specs.CallRuns.{label_in, map_by, range_between, map_made};
ghost use Rattle.tx_exec.specs.Gives.{LeadsOn, Counts};
ghost use Rattle.tx_exec.specs.States.{state_of};

use crate::children::kid;
use crate::numbers::numbers_in;
use crate::progress::Progress;
use crate::stop::Stop;
use itoa::Buffer;
use std::alloc::Global;
use std::sync::ledger::Ledger;
use tx_base::{Memory, Steps};
use tx_origin::{Tagged, Value};
use tx_tree::{Label, MOST_LABEL, Text, Tree, is_label_byte, text_of};

/// The words of a `map-args`: the label of each item, that of the whole, and the name of a parameter.
#[derive(Drop)]
pub(crate) struct MapWords {
    pub foo: Label,
    pub root: Label,
    pub name: Text,
}

/// What the numbers of a `map-args` evaluate to.
#[derive(Drop)]
pub(crate) enum MapCall {
    /// One of them is no number.
    Bad,
    /// They are not in rising order, or pass the number of parts.
    NoPart,
    /// The call, which is paid.
    Call(Tagged),
}

fn all_label_bytes(bytes: &[u8]) -> bool
    ensures { result ≡ list_all is_label_byte bytes.now }
{
    bytes.iter().all(|byte| is_label_byte(*byte))
}

fn is_label(bytes: &[u8]) -> bool
    ensures { result ≡ is_label bytes.now }
{
    !bytes.is_empty() && bytes.len() <= MOST_LABEL && all_label_bytes(bytes)
}

/// The label of these bytes.
pub(crate) fn label_of(alloc: Global, bytes: &[u8]) -> Result<Label, Memory>
    ensures { IfOk result (λ l. l ≡ bytes.now) }
{
    match Label::new(alloc, bytes) {
        Ok(label) => Ok(label),
        Err(_) => Err(Memory),
    }
}

// The text of a leaf where it is a label.
fn label_in(alloc: Global, tree: &Tree) -> Result<Option<Label>, Memory>
    ensures { IfOk result (λ l. l ≡ label_in tree.now) }
{
    let Some(words) = tree.text() else {
        return Ok(None);
    };
    if !is_label(words.bytes()) {
        return Ok(None);
    }
    Ok(Some(label_of(alloc, words.bytes())?))
}

// The text of a leaf.
fn text_in(tree: &Tree) -> Result<Option<Text>, Memory>
    ensures { IfOk result (λ t. t ≡ text_of tree.now) }
{
    match tree.text() {
        None => Ok(None),
        Some(words) => Ok(Some(words.copy()?)),
    }
}

// The words where these are two labels and a name.
#[tactic(auto, using(crate::proofs::MapCalls::word_rules, std::proofs::lemmas::Grind::common_steps))]
fn three_words(
    alloc: Global,
    foo: &Tree,
    root: &Tree,
    name: &Tree,
) -> Result<Option<MapWords>, Memory>
    ensures { IfOk result (λ r. (k : ℕ) (below : Eval) (f : Frame) (label : List ℕ) (numbers : List TaggedTree) →
        map_named k below f label numbers foo.now root.now name.now ≡ map_by k below f label numbers r) }
{
    let Some(name) = text_in(name)? else {
        return Ok(None);
    };
    let Some(foo) = label_in(alloc, foo)? else {
        return Ok(None);
    };
    match label_in(alloc, root)? {
        None => Ok(None),
        Some(root) => Ok(Some(MapWords { foo, root, name })),
    }
}

/// The words of this `map-args`, where two labels and a name are its first children, and at most two are after them.
#[tactic(auto, using(crate::proofs::MapCalls::three_rules, std::proofs::lemmas::Grind::common_steps))]
pub(crate) fn map_words(alloc: Global, t: &Tagged) -> Result<Option<MapWords>, Memory>
    ensures by { IfOk result (λ r. (k : ℕ) (below : Eval) (f : Frame) (label : List ℕ) →
        map_args k below f label (kids_of (tagged_of t.now))
        ≡ map_by k below f label (drop 3 (kids_of (tagged_of t.now))) r) }
    ensures three { IfOk result (λ r. IfSome r (λ w. 3 ≤ length (kids_of (tagged_of t.now)))) }
{
    if t.arity() < 3 {
        return Ok(None);
    }
    if t.arity() > 5 {
        return Ok(None);
    }
    let foo = kid(alloc, t, 0)?;
    let root = kid(alloc, t, 1)?;
    let name = kid(alloc, t, 2)?;
    three_words(alloc, &foo.tree, &root.tree, &name.tree)
}

// The first of the numbers, or 0.
#[tactic(auto, using(crate::proofs::MapCalls::first_rules, std::proofs::lemmas::Grind::common_steps))]
fn from_number(numbers: &[i64]) -> i64
    ensures { result ≡ from_number numbers.now }
{
    if numbers.is_empty() { 0 } else { numbers[0] }
}

// The second of the numbers, or the number of parts.
#[tactic(auto, using(crate::proofs::MapCalls::second_rules, std::proofs::lemmas::Grind::common_steps))]
fn to_number(count: u32, numbers: &[i64]) -> i64
    ensures { result ≡ to_number count numbers.now }
{
    if numbers.len() < 2 {
        i64::from(count)
    } else {
        numbers[1]
    }
}

// Between which numbers of parts the calls go: from the first, to before the second.
#[tactic(auto, using(crate::proofs::MapCalls::between_rules, std::proofs::lemmas::Grind::common_steps))]
fn numbers_between(count: u32, numbers: &[i64]) -> Option<(u32, u32)>
    ensures between { range_between result
        ≡ numbers_between count (from_number numbers.now) (to_number count numbers.now) }
    ensures order { IfSome result (λ p. p.0 ≤ p.1) }
{
    let from = from_number(numbers);
    let to = to_number(count, numbers);
    if from < 0 {
        return None;
    }
    if to < from {
        return None;
    }
    if i64::from(count) < to {
        return None;
    }
    Some((from as u32, to as u32))
}

fn number_leaf(alloc: Global, number: u32) -> Result<Tree, Memory>
    ensures { IfOk result (λ t. t ≡ leaf (decimal number)) }
{
    let mut digits = Buffer::new();
    let text = text_of(alloc, digits.format(number).as_bytes())?;
    Tree::leaf(alloc, text)
}

// The node of these children.
fn node_of<L: Ledger>(
    alloc: Global,
    label: Label,
    children: Vec<Tree>,
    steps: &mut Steps<L>,
) -> Result<Tree, Memory>
    ensures made { IfOk result (λ t. t ≡ node label (forest children.items)) }
    ensures counted { OnOk result (steps.new ≡ steps.old + 1) }
{
    match Tree::node(alloc, label, children, steps) {
        Ok(tree) => Ok(tree),
        Err(_) => Err(Memory),
    }
}

// The tag that asks for the part of this number.
fn part_asked<L: Ledger>(
    alloc: Global,
    name: &Text,
    number: u32,
    steps: &mut Steps<L>,
) -> Result<Tree, Memory>
    ensures made { IfOk result (λ t. t
        ≡ node (codes "arg") (forest (leaf name.now ∷ leaf (decimal number) ∷ []))) }
    ensures counted { OnOk result (steps.new ≡ steps.old + 1) }
{
    let label = label_of(alloc, b"arg".as_slice())?;
    let mut operands = Vec::new(alloc);
    operands.push(Tree::leaf(alloc, name.copy()?)?)?;
    operands.push(number_leaf(alloc, number)?)?;
    node_of(alloc, label, operands, steps)
}

// The call on the part of this number.
fn item_call<L: Ledger>(
    alloc: Global,
    words: &MapWords,
    number: u32,
    steps: &mut Steps<L>,
) -> Result<Tree, Memory>
    ensures made { IfOk result (λ t. t ≡ item_call words.now.foo words.now.name number) }
    ensures counted { OnOk result (steps.new ≡ steps.old + 2) }
{
    let mut operands = Vec::new(alloc);
    operands.push(part_asked(alloc, &words.name, number, steps)?)?;
    operands.push(number_leaf(alloc, number)?)?;
    node_of(alloc, words.foo.copy()?, operands, steps)
}

// The calls on the parts of these numbers, in one node.
#[tactic(auto, using(crate::proofs::MapCalls::call_rules, std::proofs::lemmas::Grind::common_steps))]
fn call_over<L: Ledger>(
    alloc: Global,
    words: &MapWords,
    from: u32,
    to: u32,
    steps: &mut Steps<L>,
) -> Result<Tree, Memory>
    requires { from ≤ to }
    ensures made { IfOk result (λ t. t
        ≡ call_over words.now.foo words.now.root words.now.name (range_with_len from (to - from))) }
    ensures counted { OnOk result (steps.new ≡ steps.old + (1 + 2 * (to - from))) }
{
    let mut items = Vec::new(alloc);
    for number in from..to {
        items.push(item_call(alloc, words, number, steps)?)?;
    }
    node_of(alloc, words.root.copy()?, items, steps)
}

// The size of the call on the part of this number.
fn item_size(words: &MapWords, number: u32) -> u64
    ensures size { result ≡ size_of (item_call words.now.foo words.now.name number) }
    ensures small { result ≤ 1100000 }
    ensures some { 2 ≤ result }
{
    let mut digits = Buffer::new();
    let count = digits.format(number).as_bytes().len() as u64;
    5 + words.name.bytes().len() as u64 + 2 * count
}

// The size of the calls on the parts of these numbers, in one node.
#[tactic(auto, using(crate::proofs::MapCalls::size_rules, std::proofs::lemmas::Grind::common_steps))]
fn call_size(words: &MapWords, from: u32, to: u32) -> u64
    requires { from ≤ to }
    ensures size { result
        ≡ size_of (call_over words.now.foo words.now.root words.now.name (range_with_len from (to - from))) }
    ensures nodes { 1 + 2 * (to - from) ≤ result }
{
    let mut size = 1u64;
    for number in from..to {
        size += item_size(words, number);
    }
    size
}

impl Progress {
    // The calls on the parts of these numbers, paid before they are made.
    #[tactic(auto, unfolding(tx_exec_form::specs::Rows::evaluated_made))]
    fn paid_call<L: Ledger>(
        &mut self,
        alloc: Global,
        steps: &mut Steps<L>,
        words: &MapWords,
        from: u32,
        to: u32,
    ) -> Result<Tagged, Stop>
        requires { from ≤ to }
        ensures goes { (below : Eval) (f : Frame) (e : Before) → LeadsOn result
            (evaluated_made below f
            (call_over words.now.foo words.now.root words.now.name (range_with_len from (to - from)))
            e (state_of self.old))
            (λ t. below (tagged_of t) f e (state_of self.new)) }
        ensures paid { Counts result (steps.old + self.old.left) (steps.new + self.new.left) }
        ensures left { IfOk result (λ t. self.new.left ≤ self.old.left) }
    {
        let nodes = 1 + 2 * u64::from(to - from);
        self.charge(steps, call_size(words, from, to), nodes)?;
        let tree = call_over(alloc, words, from, to, steps)?;
        Ok(Tagged { tree, at: None })
    }

    /// The call over so many parts where these are the values of the numbers.
    #[tactic(auto, using(crate::proofs::MapCalls::made_rules, std::proofs::lemmas::Grind::common_steps))]
    pub(crate) fn map_call<L: Ledger>(
        &mut self,
        alloc: Global,
        steps: &mut Steps<L>,
        words: &MapWords,
        count: u32,
        values: &[Value],
    ) -> Result<MapCall, Stop>
        ensures goes { (k : ℕ) (below : Eval) (f : Frame) (label : List ℕ) (e : Before) → LeadsOn result
            (map_numbered k below f label words.now.foo words.now.root words.now.name count (integers_of values.now)
            e (state_of self.old))
            (λ m. map_made k below f label words.now.name m e (state_of self.new)) }
        ensures paid { Counts result (steps.old + self.old.left) (steps.new + self.new.left) }
        ensures left { IfOk result (λ m. self.new.left ≤ self.old.left) }
    {
        let Some(numbers) = numbers_in(alloc, values)? else {
            return Ok(MapCall::Bad);
        };
        let Some((from, to)) = numbers_between(count, &numbers) else {
            return Ok(MapCall::NoPart);
        };
        let call = self.paid_call(alloc, steps, words, from, to)?;
        Ok(MapCall::Call(call))
    }
}
