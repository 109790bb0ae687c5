// Nodes and leaves, which are shared.
ghost use Rattle.std.specs.Prelude.{◌≡◌, ◌≢◌, ◌+◌, length, if◌then◌else◌, IfOk, IfErr, OnOk, MatchOption, IfSome};
ghost use Rattle.std.specs.Prelude.{IfNone, IsNone, None, Some, slice_get, IsTrue, ◌↔◌};
ghost use Rattle.tx_tree.specs.WideTree.{leaf, node, forest, children_of, is_leaf, text_of, label_of, size_of};
ghost use Rattle.tx_tree.specs.WideTree.{depth_of};
ghost use Rattle.tx_tree.specs.Limits.{IsWellFormed, IsWithinLimits, IsTreeFault};
ghost use Rattle.tx_tree.specs.Paths.{subtree};
ghost use Rattle.tx_tree.specs.Places.{IsOffset, IsOffsetFault};

use crate::faults::{PlaceFault, TreeFault};
use crate::labels::Label;
use crate::paths::Path;
use crate::texts::Text;
use crate::{MOST_ARITY, MOST_DEPTH, MOST_SIZE};
use std::alloc::Global;
use std::marker::Model;
use std::rc::Rc;
use std::sync::ledger::Ledger;
use tx_base::{Memory, Steps};

/// Whether a tree is a text or a label with children.
#[derive(Clone, Copy, Debug, PartialEq, Eq)]
pub enum Kind {
    /// A text.
    Leaf,
    /// A label with children.
    Node,
}

/// A tree: a text, or a label with a list of trees. It is within the limits of the crate's constants.
///
/// Trees share their parts. Contracts see a tree as a wide tree.
#[cycle(tree)]
#[derive(Drop)]
pub struct Tree {
    size: u32,
    depth: u32,
    content: Content,
}

// A text shares its bytes by itself.
#[cycle(tree)]
#[derive(Drop)]
enum Content {
    Leaf(Text),
    Node(Rc<Branch>),
}

#[cycle(tree)]
#[derive(Drop)]
struct Branch {
    label: Label,
    children: Vec<Tree>,
}

impl Model for Tree {
    ghost use Rattle.std.specs.Prelude.{◌≡◌};
    ghost use Rattle.tx_tree.specs.WideTree.{WideTree, coded_WideTree, size_of, depth_of};

    ghost Value = { WideTree };

    ghost coded = { coded_WideTree };

    ghost use Rattle.tx_tree.specs.Trees.{wide_of, IsKept};

    ghost view = { λ t. wide_of t.content };

    ghost invariant = { IsKept };

    ghost size = { depth_of };

    ghost use Rattle.tx_tree.specs.Falls.{depth_falls};

    ghost size_decreases = { λ t h. depth_falls t.content };
}

impl Tree {
    /// The leaf with this text.
    pub fn leaf(_alloc: Global, text: Text) -> Result<Tree, Memory>
        ensures { IfOk result (λ t. t ≡ leaf text) }
    {
        let bytes = text.bytes();
        let size = 1 + bytes.len() as u32;
        Ok(Tree {
            size,
            depth: 1,
            content: Content::Leaf(text),
        })
    }

    /// The node with this label and these children, unless it passes a limit: the fault is the first one that it
    /// passes, of children, depth and size. It is one step, whatever it returns.
    pub fn node<L: Ledger>(
        alloc: Global,
        label: Label,
        children: Vec<Tree>,
        steps: &mut Steps<L>,
    ) -> Result<Tree, TreeFault>
        ensures ok { IfOk result (λ t. t ≡ node label (forest children.items)) }
        ensures within { OnOk result (IsWithinLimits (node label (forest children.items))) }
        ensures refused { IfErr result (λ fault. fault ≢ TreeFault.Memory → IsTreeFault label children.items fault) }
        ensures counted { steps.new ≡ steps.old + 1 }
    {
        steps.tick();
        if children.len() > MOST_ARITY {
            return Err(TreeFault::TooWide(children.len() as u64));
        }
        let _bytes = label.bytes();
        let mut size = 1u64;
        let mut deepest = 0u32;
        for child in &children {
            size += child.size();
            deepest = deepest.max(child.depth());
        }
        let depth = deepest + 1;
        if depth > MOST_DEPTH {
            return Err(TreeFault::TooDeep(u64::from(depth)));
        }
        if size > MOST_SIZE {
            return Err(TreeFault::TooBig(size));
        }
        Ok(Tree {
            size: size as u32,
            depth,
            content: Content::Node(Rc::new(alloc, Branch { label, children })?),
        })
    }

    /// A share of the tree, which shares all its parts.
    pub fn share(&self) -> Result<Tree, Memory>
        ensures { IfOk result (λ t. t ≡ self.now) }
    {
        let content = match &self.content {
            Content::Leaf(text) => Content::Leaf(text.copy()?),
            Content::Node(branch) => Content::Node(branch.clone()?),
        };
        Ok(Tree {
            size: self.size,
            depth: self.depth,
            content,
        })
    }

    /// Whether the tree is a leaf or a node.
    pub fn kind(&self) -> Kind
        ensures { result ≡ (if is_leaf self.now then Kind.Leaf else Kind.Node) }
    {
        match &self.content {
            Content::Leaf(_) => Kind::Leaf,
            Content::Node(_) => Kind::Node,
        }
    }

    /// The label of a node, or None for a leaf.
    pub fn label(&self) -> Option<&Label>
        ensures { MatchOption result (label_of self.now ≡ None) (λ l. label_of self.now ≡ Some l.now) }
    {
        match &self.content {
            Content::Leaf(_) => None,
            Content::Node(branch) => Some(&branch.label),
        }
    }

    /// The text of a leaf, or None for a node.
    pub fn text(&self) -> Option<&Text>
        ensures { MatchOption result (text_of self.now ≡ None) (λ t. text_of self.now ≡ Some t.now) }
    {
        match &self.content {
            Content::Leaf(text) => Some(text),
            Content::Node(_) => None,
        }
    }

    /// The children of a node, in order, or none for a leaf.
    #[tactic(auto, using(crate::proofs::Children::lookups, std::proofs::lemmas::Grind::common_steps))]
    pub fn children(&self) -> &[Tree]
        ensures { result.now ≡ children_of self.now }
    {
        match &self.content {
            Content::Leaf(_) => &[],
            Content::Node(branch) => &branch.children,
        }
    }

    /// How many children the tree has, 0 for a leaf.
    #[tactic(auto, using(crate::proofs::Children::lookups, std::proofs::lemmas::Grind::common_steps))]
    pub fn arity(&self) -> u32
        ensures { result ≡ length (children_of self.now) }
    {
        match &self.content {
            Content::Leaf(_) => 0,
            Content::Node(branch) => branch.children.len() as u32,
        }
    }

    /// The child of this number, from 0, or None where there is none.
    #[tactic(auto, using(crate::proofs::Children::lookups, std::proofs::lemmas::Grind::common_steps))]
    pub fn child(&self, i: u32) -> Option<&Tree>
        ensures { MatchOption result (slice_get (children_of self.now) i ≡ None)
            (λ t. slice_get (children_of self.now) i ≡ Some t.now) }
    {
        match &self.content {
            Content::Leaf(_) => None,
            Content::Node(branch) => {
                let children = &branch.children;
                if (i as usize) < children.len() {
                    Some(&children[i as usize])
                } else {
                    None
                }
            }
        }
    }

    /// 1 and the bytes for a leaf; 1 and the sizes of the children for a node.
    pub fn size(&self) -> u64
        ensures value { result ≡ size_of self.now }
        ensures well_formed { IsWellFormed self.now }
        ensures within { IsWithinLimits self.now }
    {
        u64::from(self.size)
    }

    /// 1 for a leaf; 1 more than the deepest child for a node.
    pub fn depth(&self) -> u32
        ensures value { result ≡ depth_of self.now }
        ensures well_formed { IsWellFormed self.now }
        ensures within { IsWithinLimits self.now }
    {
        self.depth
    }

    /// The subtree that the path leads to, or None where it doesn't lead.
    pub fn at(&self, path: &Path) -> Option<&Tree>
        ensures { MatchOption result (subtree self.now path.now ≡ None) (λ t. subtree self.now path.now ≡ Some t.now) }
    {
        let mut tree = self;
        for step in path.steps() {
            match tree.child(*step) {
                Some(child) => tree = child,
                None => return None,
            }
        }
        Some(tree)
    }

    #[tactic(auto, using(crate::proofs::Children::same_children, std::proofs::lemmas::Grind::common_steps))]
    /// Whether the trees are equal. Their sizes and depths are compared before any child is looked at.
    pub fn same(&self, other: &Tree) -> bool
        ensures { IsTrue result ↔ (self.now ≡ other.now) }
    {
        if self.size != other.size || self.depth != other.depth {
            return false;
        }
        match (&self.content, &other.content) {
            (Content::Leaf(text), Content::Leaf(those)) => text.bytes() == those.bytes(),
            (Content::Node(branch), Content::Node(twig)) => {
                let one = &**branch;
                let two = &**twig;
                if one.label.bytes() != two.label.bytes() {
                    return false;
                }
                if one.children.len() != two.children.len() {
                    return false;
                }
                for i in 0..one.children.len() {
                    if !one.children[i].same(&two.children[i]) {
                        return false;
                    }
                }
                true
            }
            _ => false,
        }
    }

    // Whether the offset is one of this tree.
    pub(crate) fn check_offset(&self, offset: u32) -> Result<(), PlaceFault>
        ensures offset { OnOk result (IsOffset self.now offset) }
        ensures refused { IfErr result (IsOffsetFault self.now offset) }
    {
        match &self.content {
            Content::Leaf(text) => {
                let len = text.bytes().len();
                if offset as usize > len {
                    return Err(PlaceFault::BadPlace(len as u64));
                }
                if text.cuts(offset as usize) {
                    return Err(PlaceFault::CutsSymbol(u64::from(offset)));
                }
                Ok(())
            }
            Content::Node(_) => {
                if offset > 1 {
                    return Err(PlaceFault::BadPlace(1));
                }
                Ok(())
            }
        }
    }
}
