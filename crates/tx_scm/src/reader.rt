// The tree that bytes spell.
ghost use Rattle.std.specs.Prelude.{◌≡◌, ◌≢◌, ℕ, ◌+◌, ◌<◌, ◌≤◌, [], true, length, get_or, if◌then◌else◌};
ghost use Rattle.std.specs.Prelude.{Some, None, IfOk, IfErr, IfSome};
ghost use Rattle.tx_tree.specs.WideTree.{WideTree, nodes_of};
ghost use Rattle.tx_tree.specs.Limits.{IsWithinLimits};
ghost use Rattle.tx_tree.specs.declared.TheConstants.{MOST_SIZE};
ghost use Rattle.tx_tree.specs.declared.faults.ReadFault.TheVariants.{Memory as NoMemory};
ghost use Rattle.tx_scm.specs.declared.kinds.Kind.TheVariants.{Closes};
ghost use Rattle.tx_scm.specs.Spelling.{Spells};
ghost use Rattle.tx_scm.specs.Faults.{IsSchemeFault};
ghost use Rattle.tx_scm.specs.Kinds.{kind_of};
ghost use Rattle.tx_scm.specs.Machine.{within, the_limits, has_tree_room, may_keep, put_tree, between, step_between};
ghost use Rattle.tx_scm.specs.Machine.{only_if};
ghost use Rattle.tx_scm.specs.Machine.{reads, node_of, with_bracket};
ghost use Rattle.tx_scm.specs.Sizes.{IsSized};
ghost use Rattle.tx_scm.specs.States.{open_of, opens_of, state_of, made_in, CountsOn, Goes};

use crate::kinds::{Kind, kind_of};
use crate::measures::limit;
use crate::names::letters_len;
use crate::recogniser::behind_white;
use crate::spots::misspelled;
use crate::states::{Bracket, Reader};
use crate::strings::string_text;
use std::alloc::Global;
use std::sync::ledger::Ledger;
use tx_base::{Memory, Steps};
use tx_tree::{
    Label, LabelCache, LabelFault, MOST_ARITY, MOST_DEPTH, MOST_LABEL, MOST_SIZE, ReadFault, Tree,
    TreeFault,
};

// Whether there is room for one tree more in the innermost bracket.
fn has_tree_room(brackets: &Vec<Bracket>) -> bool
    ensures { result ≡ has_tree_room the_limits (opens_of brackets.now.items) }
{
    brackets.len() < MOST_DEPTH as usize
        && match brackets.last() {
            None => true,
            Some(bracket) => bracket.children.len() < MOST_ARITY,
        }
}

// Makes room for a tree more, and for no other one where they are few: most nodes have one child or two.
fn make_room(trees: &mut Vec<Tree>) -> Result<(), Memory>
    ensures { trees.new.items ≡ trees.old.items }
{
    if trees.len() < 2 {
        trees.reserve_exact(1)?;
    }
    Ok(())
}

// The node of a bracket, or None where it passes a limit.
#[tactic(auto, using(crate::proofs::Keeping::node_rules))]
fn node_of<L: Ledger>(
    alloc: Global,
    bracket: Bracket,
    steps: &mut Steps<L>,
) -> Result<Option<Tree>, Memory>
    ensures found { IfOk result (λ found.
        found ≡ (if may_keep the_limits (node_of (open_of bracket)) then Some (node_of (open_of bracket)) else None)) }
    ensures counted { steps.new ≡ steps.old + 1 }
{
    let Bracket {
        label,
        mut children,
    } = bracket;
    children.shrink_to_fit();
    match Tree::node(alloc, label, children, steps) {
        Ok(tree) => Ok(Some(tree)),
        Err(TreeFault::TooWide(_)) => Ok(None),
        Err(TreeFault::TooDeep(_)) => Ok(None),
        Err(TreeFault::TooBig(_)) => Ok(None),
        Err(TreeFault::Memory) => Err(Memory),
    }
}

impl Reader {
    // At the beginning.
    fn new(alloc: Global) -> Result<Reader, Memory>
        ensures beginning { IfOk result (λ reader. state_of reader ≡ between []) }
        ensures size { IfOk result (λ reader. reader.size ≡ 0) }
    {
        Ok(Reader {
            alloc,
            labels: LabelCache::new(alloc)?,
            brackets: Vec::new(alloc),
            whole: None,
            size: 0,
        })
    }

    // Adds a tree to the innermost bracket.
    fn put_tree(&mut self, tree: Tree) -> Result<(), Memory>
        requires { self.now.whole ≡ None }
        ensures next { IfOk result (λ _. state_of self.new ≡ put_tree tree (opens_of self.old.brackets.items)) }
        ensures size { self.new.size ≡ self.old.size }
    {
        match self.brackets.pop() {
            None => self.whole = Some(tree),
            Some(mut bracket) => {
                make_room(&mut bracket.children)?;
                bracket.children.push(tree)?;
                self.brackets.push(bracket)?;
            }
        }
        Ok(())
    }

    // Opens a bracket with this label.
    fn begin(&mut self, label: Label) -> Result<(), Memory>
        requires { self.now.whole ≡ None }
        ensures next { IfOk result (λ _.
            state_of self.new ≡ between (with_bracket label (opens_of self.old.brackets.items))) }
        ensures size { self.new.size ≡ self.old.size }
    {
        self.brackets.push(Bracket {
            label,
            children: Vec::new(self.alloc),
        })?;
        Ok(())
    }

    // Takes an opening bracket, with its label.
    fn open(&mut self, bytes: &[u8], at: usize) -> Result<Option<usize>, Memory>
        requires at { at < length bytes.now }
        requires byte { get_or bytes.now at 0 ≡ 40 }
        requires whole { self.now.whole ≡ None }
        requires small { self.now.size ≤ MOST_SIZE }
        ensures next { IfOk result (λ found. Goes bytes.now (state_of self.old) at found (state_of self.new)) }
        ensures counted { (steps : ℕ) → IfOk result (λ found. IfSome found (λ _.
            CountsOn (state_of self.old) steps (state_of self.new) steps)) }
        ensures sized { IfOk result (λ found. IfSome found (λ _.
            IsSized self.old.size (state_of self.old) → IsSized self.new.size (state_of self.new))) }
    {
        if !has_tree_room(&self.brackets) {
            return Ok(None);
        }
        let from = behind_white(bytes, at + 1);
        let count = letters_len(&bytes[from..]);
        let end = from + count;
        if count == 0 {
            return Ok(None);
        }
        if count > MOST_LABEL {
            return Ok(None);
        }
        if end == bytes.len() {
            return Ok(None);
        }
        match self.labels.label(&bytes[from..end]) {
            Err(LabelFault::Memory) => Err(Memory),
            Err(LabelFault::BadLabel(_)) => unreachable!(),
            Ok(label) => {
                self.begin(label)?;
                self.size += 1;
                Ok(Some(end))
            }
        }
    }

    // Takes a string.
    fn string(&mut self, bytes: &[u8], at: usize) -> Result<Option<usize>, Memory>
        requires at { at < length bytes.now }
        requires byte { get_or bytes.now at 0 ≡ 34 }
        requires whole { self.now.whole ≡ None }
        requires small { self.now.size ≤ MOST_SIZE }
        ensures next { IfOk result (λ found. Goes bytes.now (state_of self.old) at found (state_of self.new)) }
        ensures counted { (steps : ℕ) → IfOk result (λ found. IfSome found (λ _.
            CountsOn (state_of self.old) steps (state_of self.new) steps)) }
        ensures sized { IfOk result (λ found. IfSome found (λ _.
            IsSized self.old.size (state_of self.old) → IsSized self.new.size (state_of self.new))) }
    {
        if !has_tree_room(&self.brackets) {
            return Ok(None);
        }
        match string_text(self.alloc, bytes, at + 1)? {
            None => Ok(None),
            Some((text, end)) => {
                self.size += 1 + text.bytes().len();
                self.put_tree(Tree::leaf(self.alloc, text)?)?;
                Ok(Some(end))
            }
        }
    }

    // Takes a closing bracket, and returns whether a tree goes on with it.
    #[tactic(auto, unfolding(crate::specs::Machine::step_between))]
    fn close<L: Ledger>(&mut self, steps: &mut Steps<L>) -> Result<bool, Memory>
        requires whole { self.now.whole ≡ None }
        ensures next { IfOk result (λ taken.
            only_if taken (state_of self.new)
            ≡ step_between (within the_limits) (opens_of self.old.brackets.items) Closes) }
        ensures counted { IfOk result (λ taken. taken ≡ true → steps.new ≡ steps.old + 1) }
        ensures made { steps.new ≤ steps.old + 1 }
        ensures rises { steps.old ≤ steps.new }
        ensures size { self.new.size ≡ self.old.size }
    {
        let Some(bracket) = self.brackets.pop() else {
            return Ok(false);
        };
        match node_of(self.alloc, bracket, steps)? {
            None => Ok(false),
            Some(tree) => {
                self.put_tree(tree)?;
                Ok(true)
            }
        }
    }

    // Takes the token whose first byte is at `at`, and returns the place after it, or None where no tree goes on with
    // it.
    fn take<L: Ledger>(
        &mut self,
        bytes: &[u8],
        at: usize,
        steps: &mut Steps<L>,
    ) -> Result<Option<usize>, Memory>
        requires at { at < length bytes.now }
        requires small { self.now.size ≤ MOST_SIZE }
        ensures next { IfOk result (λ found. Goes bytes.now (state_of self.old) at found (state_of self.new)) }
        ensures counted { IfOk result (λ found. IfSome found (λ _.
            CountsOn (state_of self.old) steps.old (state_of self.new) steps.new)) }
        ensures sized { IfOk result (λ found. IfSome found (λ _.
            IsSized self.old.size (state_of self.old) → IsSized self.new.size (state_of self.new))) }
        ensures made { steps.new ≤ steps.old + made_in (state_of self.old) (kind_of (get_or bytes.now at 0)) }
        ensures rises { steps.old ≤ steps.new }
    {
        let kind = kind_of(bytes[at]);
        if self.whole.is_some() {
            return match kind {
                Kind::White => Ok(Some(at + 1)),
                _ => Ok(None),
            };
        }
        match kind {
            Kind::White => Ok(Some(at + 1)),
            Kind::Opens => self.open(bytes, at),
            Kind::Quote => self.string(bytes, at),
            Kind::Closes => {
                if self.close(steps)? {
                    Ok(Some(at + 1))
                } else {
                    Ok(None)
                }
            }
            _ => Ok(None),
        }
    }
}

// The tree that the bytes spell, or None where they spell none within the limits. What was begun passes the greatest
// size by no more than one text.
fn read_all<L: Ledger>(
    alloc: Global,
    bytes: &[u8],
    steps: &mut Steps<L>,
) -> Result<Option<Tree>, Memory>
    ensures found { IfOk result (λ found. found ≡ reads (between []) bytes.now) }
    ensures counted { IfOk result (λ found. IfSome found (λ t. steps.new ≤ steps.old + nodes_of t)) }
    ensures made { (t : WideTree) → Spells bytes.now t → steps.new ≤ steps.old + nodes_of t }
    ensures bounded { steps.new ≤ steps.old + length bytes.now }
    ensures rises { steps.old ≤ steps.new }
{
    let most = MOST_SIZE as usize;
    let mut at = 0;
    let mut reader = Reader::new(alloc)?;
    while at < bytes.len() {
        match reader.take(bytes, at, steps)? {
            None => return Ok(None),
            Some(end) => at = end,
        }
        if reader.size > most {
            return Ok(None);
        }
    }
    Ok(reader.whole)
}

// Why the bytes spell no tree within the limits.
fn fault(alloc: Global, bytes: &[u8]) -> Result<ReadFault, Memory>
    requires { (t : WideTree) → IsWithinLimits t → Spells bytes.now t → ⊥ }
    ensures { IfOk result (IsSchemeFault bytes.now) }
{
    match misspelled(bytes) {
        Some(fault) => Ok(fault),
        None => {
            let (which, number) = limit(alloc, bytes)?;
            Ok(ReadFault::Limit(which, number))
        }
    }
}

/// The tree that the bytes spell.
///
/// Whatever it returns, the steps rise by at most the bytes, and where the bytes spell a tree by at most the nodes of
/// the tree that aren't leaves, also where the tree is past the limits. A fault, but for `Memory`, is the one that the
/// bytes have, by the table of `specs/Faults.antt`; it comes exactly where they spell no tree within the limits.
pub fn read<L: Ledger>(alloc: Global, bytes: &[u8], steps: &mut Steps<L>) -> Result<Tree, ReadFault>
    ensures found { IfOk result (λ t. Spells bytes.now t) }
    ensures within { IfOk result (λ t. IsWithinLimits t) }
    ensures refused { IfErr result (λ fault. fault ≢ NoMemory → IsSchemeFault bytes.now fault) }
    ensures counted { IfOk result (λ t. steps.new ≤ steps.old + nodes_of t) }
    ensures made { (t : WideTree) → Spells bytes.now t → steps.new ≤ steps.old + nodes_of t }
    ensures bounded { steps.new ≤ steps.old + length bytes.now }
    ensures rises { steps.old ≤ steps.new }
{
    match read_all(alloc, bytes, steps)? {
        Some(tree) => Ok(tree),
        None => Err(fault(alloc, bytes)?),
    }
}
