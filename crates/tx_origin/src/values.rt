// Values: trees whose nodes have origins, shared by Rc.
ghost use Rattle.std.specs.Prelude.{◌≡◌, ◌+◌, ◌<◌, ◌≤◌, length, IfOk, OnOk, IfSome, MatchOption, None, Some, slice_get};
ghost use Rattle.tx_tree.specs.WideTree.{leaf, node, forest, size_of, depth_of, nodes_of, deepest, total_size};
ghost use Rattle.tx_tree.specs.declared.TheConstants.{MOST_ARITY, MOST_DEPTH, MOST_SIZE};
ghost use Rattle.tx_tree.specs.Limits.{IsWellFormed, IsWithinLimits};
ghost use Rattle.tx_origin.specs.Values.{text, made, vals, value_parts, value_text, value_label};
ghost use Rattle.tx_origin.specs.Values.{value_origin, plain, plains, whole, IsFrom};
ghost use Rattle.tx_origin.specs.Values.{WideValue};
ghost use Rattle.tx_origin.specs.Under.{value_under};
ghost use Rattle.std.specs.Prelude.{ℕ, List, [], ◌++◌};

use crate::paths::Ip;
use crate::tagged::{child_at, origin_under, share_origin};
use std::alloc::Global;
use std::marker::Model;
use std::rc::Rc;
use std::sync::ledger::Ledger;
use tx_base::{Memory, Steps};
use tx_tree::{Label, Text, Tree, TreeFault, share_tree};

/// A tree each of whose nodes has an origin or none. It is within the limits of trees, and returns its size, its depth
/// and the number of its nodes without a walk. Values share their parts.
///
/// Contracts see a value as a wide value (`specs/Values.antt`), which is a value without limits.
#[cycle(value)]
#[derive(Drop)]
pub struct Value {
    size: u64,
    depth: u32,
    nodes: u64,
    content: Rc<Content>,
}

#[cycle(value)]
#[derive(Drop)]
enum Content {
    Text(Text, Option<Ip>),
    // the tree that the node was taken from, if it was
    Node(Label, Vec<Value>, Option<Ip>, Option<Tree>),
}

impl Model for Value {
    ghost use Rattle.std.specs.Prelude.{◌≡◌};
    ghost use Rattle.tx_tree.specs.WideTree.{depth_of};
    ghost use Rattle.tx_origin.specs.Values.{WideValue, coded_WideValue, plain};

    ghost Value = { WideValue };

    ghost coded = { coded_WideValue };

    ghost use Rattle.tx_origin.specs.ValueView.{wide_value_of, IsKept};

    ghost view = { λ v. wide_value_of v.content.value };

    ghost invariant = { IsKept };

    ghost size = { λ v. depth_of (plain v) };

    ghost use Rattle.tx_origin.specs.ValueFalls.{depth_falls};

    ghost size_decreases = { λ v h. depth_falls v.content.value };
}

impl Value {
    /// The text with this origin.
    pub fn leaf(alloc: Global, words: Text, at: Option<Ip>) -> Result<Value, Memory>
        ensures { IfOk result (λ v. v ≡ text words at) }
    {
        let size = 1 + words.bytes().len() as u64;
        Ok(Value {
            size,
            depth: 1,
            nodes: 0,
            content: Rc::new(alloc, Content::Text(words, at))?,
        })
    }

    /// The node with this label, these parts and this origin, made anew.
    pub fn node(
        alloc: Global,
        label: Label,
        parts: Vec<Value>,
        at: Option<Ip>,
    ) -> Result<Value, Memory>
        requires arity { length parts.items ≤ MOST_ARITY }
        requires depth { deepest (plains (vals parts.items)) < MOST_DEPTH }
        requires size { total_size (plains (vals parts.items)) < MOST_SIZE }
        ensures { IfOk result (λ v. v ≡ made label (vals parts.items) at) }
    {
        Value::node_from(alloc, label, parts, at, None)
    }

    // The node with this label, these parts and this origin, which was taken from this tree or from none.
    fn node_from(
        alloc: Global,
        label: Label,
        parts: Vec<Value>,
        at: Option<Ip>,
        from: Option<Tree>,
    ) -> Result<Value, Memory>
        requires arity { length parts.items ≤ MOST_ARITY }
        requires depth { deepest (plains (vals parts.items)) < MOST_DEPTH }
        requires size { total_size (plains (vals parts.items)) < MOST_SIZE }
        requires from { IsFrom label parts.items from }
        ensures { IfOk result (λ v. v ≡ made label (vals parts.items) at) }
    {
        let _bytes = label.bytes();
        let mut size = 1u64;
        let mut deepest = 0u32;
        let mut nodes = 1u64;
        for part in &parts {
            size += part.size();
            deepest = deepest.max(part.depth());
            nodes += part.nodes();
        }
        Ok(Value {
            size,
            depth: deepest + 1,
            nodes,
            content: Rc::new(alloc, Content::Node(label, parts, at, from))?,
        })
    }

    /// A share of the value, which shares all its parts: no node is copied.
    pub fn share(&self) -> Result<Value, Memory>
        ensures { IfOk result (λ v. v ≡ self.now) }
    {
        Ok(Value {
            size: self.size,
            depth: self.depth,
            nodes: self.nodes,
            content: self.content.clone()?,
        })
    }

    /// The label of a node, or None for a text.
    pub fn label(&self) -> Option<&Label>
        ensures { MatchOption result (value_label self.now ≡ None) (λ l. value_label self.now ≡ Some l.now) }
    {
        match &*self.content {
            Content::Text(..) => None,
            Content::Node(label, ..) => Some(label),
        }
    }

    /// The text, or None for a node.
    pub fn text(&self) -> Option<&Text>
        ensures { MatchOption result (value_text self.now ≡ None) (λ t. value_text self.now ≡ Some t.now) }
    {
        match &*self.content {
            Content::Text(words, _) => Some(words),
            Content::Node(..) => None,
        }
    }

    /// The parts of a node, or none for a text.
    #[tactic(auto, using(crate::proofs::Parts::lookups, std::proofs::lemmas::Grind::common_steps))]
    pub fn parts(&self) -> &[Value]
        ensures { result.now ≡ value_parts self.now }
    {
        match &*self.content {
            Content::Text(..) => &[],
            Content::Node(_, parts, ..) => parts,
        }
    }

    /// How many parts the value has, 0 for a text.
    #[tactic(auto, using(crate::proofs::Parts::lookups, std::proofs::lemmas::Grind::common_steps))]
    pub fn arity(&self) -> u32
        ensures { result ≡ length (value_parts self.now) }
    {
        match &*self.content {
            Content::Text(..) => 0,
            Content::Node(_, parts, ..) => parts.len() as u32,
        }
    }

    /// The part of this number, from 0, or None where there is none.
    #[tactic(auto, using(crate::proofs::Parts::lookups, std::proofs::lemmas::Grind::common_steps))]
    pub fn child(&self, i: u32) -> Option<&Value>
        ensures { let part = slice_get (value_parts self.now) i in
            MatchOption result (part ≡ None) (λ v. part ≡ Some v.now) }
    {
        match &*self.content {
            Content::Text(..) => None,
            Content::Node(_, parts, ..) => {
                if (i as usize) < parts.len() {
                    Some(&parts[i as usize])
                } else {
                    None
                }
            }
        }
    }

    /// The origin, or None where there is none.
    pub fn origin(&self) -> Option<&Ip>
        ensures { MatchOption result (value_origin self.now ≡ None) (λ p. value_origin self.now ≡ Some p.now) }
    {
        match &*self.content {
            Content::Text(_, at) => at.as_ref(),
            Content::Node(_, _, at, _) => at.as_ref(),
        }
    }

    /// The size of the tree.
    pub fn size(&self) -> u64
        ensures value { result ≡ size_of (plain self.now) }
        ensures well_formed { IsWellFormed (plain self.now) }
        ensures within { IsWithinLimits (plain self.now) }
    {
        self.size
    }

    /// The depth of the tree.
    pub fn depth(&self) -> u32
        ensures value { result ≡ depth_of (plain self.now) }
        ensures within { IsWithinLimits (plain self.now) }
    {
        self.depth
    }

    /// How many nodes of the tree aren't leaves.
    pub fn nodes(&self) -> u64
        ensures value { result ≡ nodes_of (plain self.now) }
    {
        self.nodes
    }

    /// The tree at this origin, with the origins of its parts. It shares the tree's texts, and keeps the tree, so that
    /// `plain` of it or of one of its nodes copies nothing.
    #[tactic(auto, using(crate::proofs::Wholes::whole_rules, std::proofs::lemmas::Grind::common_steps))]
    pub fn whole(alloc: Global, tree: &Tree, at: &Option<Ip>) -> Result<Value, Memory>
        ensures value { IfOk result (λ v. v ≡ whole at.now tree.now) }
        ensures plain { IfOk result (λ v. plain v ≡ tree.now) }
    {
        if let Some(words) = tree.text() {
            return whole_leaf(alloc, words, at);
        }
        let Some(label) = tree.label() else {
            unreachable!()
        };
        let mut parts = Vec::new(alloc);
        for i in 0..tree.arity() {
            let Some(kid) = tree.child(i) else {
                unreachable!()
            };
            let origin = child_at(alloc, at, i)?;
            parts.push(Value::whole(alloc, kid, &origin)?)?;
        }
        whole_node(alloc, tree, label, parts, at)
    }

    /// This value, each of whose origins has this path before it: a part that is evaluated alone, as it is in the
    /// whole.
    pub fn under(&self, alloc: Global, base: &Ip) -> Result<Value, Memory>
        ensures { IfOk result (λ v. v ≡ value_under base.now self.now) }
    {
        match &*self.content {
            Content::Text(words, at) => Value::leaf(
                alloc,
                words.copy()?,
                origin_under(alloc, base, at)?,
            ),
            Content::Node(label, parts, at, from) => {
                let mut moved = Vec::with_capacity(alloc, parts.len())?;
                for part in parts {
                    moved.push(part.under(alloc, base)?)?;
                }
                let at = origin_under(alloc, base, at)?;
                self.with_parts(alloc, label, moved, at, from)
            }
        }
    }

    // A node with this label, these parts and this origin, which is the same tree as this value.
    fn with_parts(
        &self,
        alloc: Global,
        label: &Label,
        parts: Vec<Value>,
        at: Option<Ip>,
        from: &Option<Tree>,
    ) -> Result<Value, Memory>
        requires same { plain (made label.now (vals parts.items) at) ≡ plain self.now }
        requires from { IsFrom label.now parts.items from.now }
        ensures { IfOk result (λ v. v ≡ made label.now (vals parts.items) at) }
    {
        let content = Content::Node(label.copy()?, parts, at, share_tree(from)?);
        Ok(Value {
            size: self.size,
            depth: self.depth,
            nodes: self.nodes,
            content: Rc::new(alloc, content)?,
        })
    }

    /// The tree without origins. At `Ok` it has taken a step for each node that isn't a leaf. A node that was taken
    /// from a tree gives that tree, shared; only nodes that were made anew are made again.
    pub fn plain<L: Ledger>(&self, alloc: Global, steps: &mut Steps<L>) -> Result<Tree, Memory>
        ensures ok { IfOk result (λ t. t ≡ plain self.now) }
        ensures counted { OnOk result (steps.new ≡ steps.old + nodes_of (plain self.now)) }
    {
        match &*self.content {
            Content::Text(words, _) => plain_leaf(alloc, words),
            Content::Node(label, parts, _, from) => {
                if let Some(tree) = from {
                    return taken(tree, self.nodes, steps);
                }
                let mut children = Vec::new(alloc);
                for part in parts {
                    children.push(part.plain(alloc, steps)?)?;
                }
                plain_node(alloc, label, children, steps)
            }
        }
    }
}

// The value of a text at this origin.
fn whole_leaf(alloc: Global, words: &Text, at: &Option<Ip>) -> Result<Value, Memory>
    ensures { IfOk result (λ v. v ≡ text words.now at.now) }
{
    Value::leaf(alloc, words.copy()?, share_origin(at)?)
}

// The value of this tree at this origin, whose label and parts these are.
fn whole_node(
    alloc: Global,
    tree: &Tree,
    label: &Label,
    parts: Vec<Value>,
    at: &Option<Ip>,
) -> Result<Value, Memory>
    requires { made label.now (vals parts.items) at.now ≡ whole at.now tree.now }
    ensures { IfOk result (λ v. v ≡ whole at.now tree.now) }
{
    let _size = tree.size();
    let label = label.copy()?;
    let from = tree.share()?;
    let origin = share_origin(at)?;
    Value::node_from(alloc, label, parts, origin, Some(from))
}

// A leaf with the same text.
fn plain_leaf(alloc: Global, words: &Text) -> Result<Tree, Memory>
    ensures { IfOk result (λ t. t ≡ leaf words.now) }
{
    Tree::leaf(alloc, words.copy()?)
}

// A share of the tree, with as many steps.
fn taken<L: Ledger>(tree: &Tree, nodes: u64, steps: &mut Steps<L>) -> Result<Tree, Memory>
    ensures ok { IfOk result (λ t. t ≡ tree.now) }
    ensures counted { OnOk result (steps.new ≡ steps.old + nodes) }
{
    let same = tree.share()?;
    steps.add(nodes);
    Ok(same)
}

// The node with this label and these children, which is within the limits.
#[tactic(auto, using(crate::proofs::Parts::fault_rules, std::proofs::lemmas::Grind::common_steps))]
fn plain_node<L: Ledger>(
    alloc: Global,
    label: &Label,
    children: Vec<Tree>,
    steps: &mut Steps<L>,
) -> Result<Tree, Memory>
    requires { IsWithinLimits (node label.now (forest children.items)) }
    ensures ok { IfOk result (λ t. t ≡ node label.now (forest children.items)) }
    ensures counted { OnOk result (steps.new ≡ steps.old + 1) }
{
    match Tree::node(alloc, label.copy()?, children, steps) {
        Ok(tree) => Ok(tree),
        Err(TreeFault::Memory) => Err(Memory),
        Err(TreeFault::TooWide(_)) => unreachable!(),
        Err(TreeFault::TooDeep(_)) => unreachable!(),
        Err(TreeFault::TooBig(_)) => unreachable!(),
    }
}

/// A law: values under paths. Their trees are the same.
pub fn under_law()
    ensures nested { (a b : List ℕ) (v : WideValue) → value_under (a ++ b) v ≡ value_under a (value_under b v) }
    ensures none { (v : WideValue) → value_under [] v ≡ v }
    ensures plain { (path : List ℕ) (v : WideValue) → plain (value_under path v) ≡ plain v }
{}
