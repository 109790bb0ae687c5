// From word to word.
ghost use Rattle.std.specs.Prelude.{◌≡◌, ◌≤◌, ◌+◌, ◌∷◌, [], true, false, if◌then◌else◌, map, IfOk, IfSome, Some, None};
ghost use Rattle.tx_tree.specs.Texts.{IsText};
ghost use Rattle.tx_tree.specs.WideTree.{node, forest, nodes_of};
ghost use Rattle.tx_tm_form.specs.Bytes.{escape_of};
ghost use Rattle.tx_tm_form.specs.Parts.{gap, text, tag, same_bytes, collection_label};
ghost use Rattle.tx_tm_form.specs.Growing.{inline, grown, put_part, place_of, block_behind, tree_of_block};
ghost use Rattle.tx_tm_form.specs.Growing.{tree_of_entry};
ghost use Rattle.tx_tm_form.specs.Machine.{reading, naming, counting, in_tag, with_node, closed, next_argument};
ghost use Rattle.tx_tm_form.specs.Machine.{last_argument, next_block, last_block, open_with_child};
ghost use Rattle.tx_tm_form.specs.Machine.{begun, by_escape, feed_reading, feed_naming, feed_counting, feed};
ghost use Rattle.tx_tm_words.specs.Words.{token_of};
ghost use Rattle.tx_tm_content.specs.Blocks.{block_of, content_of, tags_of};
ghost use Rattle.tx_tm_content.specs.ContentNodes.{nodes_in, line_nodes, block_nodes, tags_nodes};
ghost use Rattle.tx_tm_content.specs.ContentNodes.{content_nodes};
ghost use Rattle.tx_tm_read.specs.Nodes.{opens_nodes, open_nodes, state_nodes};
ghost use Rattle.tx_tm_read.specs.Spots.{open_of, opens_of, behind_argument};
ghost use Rattle.tx_tm_read.specs.Spots.{state_of, IsState, IsOpen, StepsRose};
ghost use Rattle.tx_tm_content.specs.ContentCredits.{line_credit, content_credit, left};
ghost use Rattle.tx_tm_read.specs.Credits.{opens_credit, state_credit, spot_credit};

use crate::tags::{Digits, NameFront, OpenTag, Spot};
use std::alloc::Global;
use std::sync::ledger::Ledger;
use tx_base::{Memory, Steps};
use tx_tm_content::{Body, Labels, OpenLine, Paragraphs, Siblings, TagList, make_node};
use tx_tm_form::{Escaped, TagForm, TagPlace, White, escape_of, white_of};
use tx_tm_words::{TmWord, is_collection, same_bytes};
use tx_tree::{Label, MOST_DEPTH, Tree};

// In an argument of the tag, or None where the tags are too deep.
#[tactic(auto, using(crate::proofs::Stuck::too_deep))]
fn in_argument(
    alloc: Global,
    place: TagPlace,
    tag: OpenTag,
    mut opens: Vec<OpenTag>,
) -> Result<Option<Spot>, Memory>
    ensures { IfOk result (λ next. IsState next (in_tag (Some place) (open_of tag) (opens_of opens.items))) }
{
    if opens.len() >= MOST_DEPTH as usize {
        return Ok(None);
    }
    opens.push(tag)?;
    Ok(Some(Spot::Reading(Body::Argument(place, OpenLine::new(alloc)), opens)))
}

// The content of a block after these children of a tag.
#[tactic(auto, using(crate::proofs::Stuck::start_rules))]
fn start_block(alloc: Global, label: &Label, children: &Siblings) -> Body
    ensures { content_of result ≡ block_behind label.now children.now }
{
    if !children.is_empty() {
        return Body::Block(Paragraphs::new(alloc));
    }
    if is_collection(label) {
        return Body::Tags(TagList::new(alloc));
    }
    Body::Block(Paragraphs::new(alloc))
}

// In a block of the tag, or None where the tags are too deep.
#[tactic(auto, using(crate::proofs::Stuck::too_deep))]
fn in_block(alloc: Global, tag: OpenTag, mut opens: Vec<OpenTag>) -> Result<Option<Spot>, Memory>
    ensures { IfOk result (λ next. IsState next (in_tag None (open_of tag) (opens_of opens.items))) }
{
    if opens.len() >= MOST_DEPTH as usize {
        return Ok(None);
    }
    let here = start_block(alloc, &tag.label, &tag.children);
    opens.push(tag)?;
    Ok(Some(Spot::Reading(here, opens)))
}

// In an argument or a block.
pub(crate) fn in_place(
    alloc: Global,
    place: Option<TagPlace>,
    tag: OpenTag,
    opens: Vec<OpenTag>,
) -> Result<Option<Spot>, Memory>
    ensures { IfOk result (λ next. IsState next (in_tag place (open_of tag) (opens_of opens.items))) }
{
    match place {
        Some(place) => in_argument(alloc, place, tag, opens),
        None => in_block(alloc, tag, opens),
    }
}

// The state after a tag.
fn put_tag<L: Ledger>(
    labels: &Labels,
    collects: bool,
    tree: Tree,
    before: Body,
    opens: Vec<OpenTag>,
    steps: &mut Steps<L>,
) -> Result<Option<Spot>, Memory>
    ensures next { IfOk result (λ next.
        IsState next (reading (put_part (content_of before) (tag collects tree)) (opens_of opens.items))) }
    ensures counted { IfOk result (StepsRose steps.old steps.new
        (content_nodes (content_of before) + nodes_of tree + opens_nodes (content_of before) (opens_of opens.items))) }
    ensures bounded { steps.new + left spot_credit result
        ≤ steps.old + content_credit (content_of before) + opens_credit (opens_of opens.items) + 1 }
    ensures rises { steps.old ≤ steps.new }
{
    match before.with_tag(labels, collects, tree, steps)? {
        None => Ok(None),
        Some(here) => Ok(Some(Spot::Reading(here, opens))),
    }
}

// The state after white.
#[inline(always)]
pub(crate) fn put_white(
    white: White,
    here: Body,
    opens: Vec<OpenTag>,
) -> Result<Option<Spot>, Memory>
    ensures next { IfOk result (λ next.
        IsState next (reading (put_part (content_of here) (gap white)) (opens_of opens.items))) }
    ensures counted { IfOk result (StepsRose 0 0 (state_nodes (reading (content_of here) (opens_of opens.items)))) }
    ensures bounded { left spot_credit result ≤ state_credit (reading (content_of here) (opens_of opens.items)) }
{
    match here.with_white(white)? {
        None => Ok(None),
        Some(here) => Ok(Some(Spot::Reading(here, opens))),
    }
}

// The state after items of a text.
#[inline(always)]
pub(crate) fn put_text<L: Ledger>(
    labels: &Labels,
    items: &[u8],
    here: Body,
    opens: Vec<OpenTag>,
    steps: &mut Steps<L>,
) -> Result<Option<Spot>, Memory>
    requires { IsText items.now }
    ensures next { IfOk result (λ next.
        IsState next (reading (put_part (content_of here) (text items.now)) (opens_of opens.items))) }
    ensures counted { IfOk result
        (StepsRose steps.old steps.new (state_nodes (reading (content_of here) (opens_of opens.items)))) }
    ensures bounded { steps.new + left spot_credit result
        ≤ steps.old + state_credit (reading (content_of here) (opens_of opens.items)) }
    ensures rises { steps.old ≤ steps.new }
{
    match here.with_text(labels, items, steps)? {
        None => Ok(None),
        Some(here) => Ok(Some(Spot::Reading(here, opens))),
    }
}

// The state after a node.
pub(crate) fn put_node<L: Ledger>(
    labels: &Labels,
    label: Label,
    children: Vec<Tree>,
    before: Body,
    opens: Vec<OpenTag>,
    steps: &mut Steps<L>,
) -> Result<Option<Spot>, Memory>
    ensures next { IfOk result (λ next.
        IsState next (with_node label children.items (content_of before) (opens_of opens.items))) }
    ensures counted { IfOk result (StepsRose steps.old steps.new
        (nodes_in children.items + content_nodes (content_of before)
        + opens_nodes (content_of before) (opens_of opens.items))) }
    ensures bounded { steps.new + left spot_credit result
        ≤ steps.old + content_credit (content_of before) + opens_credit (opens_of opens.items) + 2 }
    ensures rises { steps.old ≤ steps.new }
{
    match make_node(labels.alloc, label, children, steps)? {
        None => Ok(None),
        Some(tree) => put_tag(labels, false, tree, before, opens, steps),
    }
}

impl OpenTag {
    // Drops the tag and those round it. A function that drops them at an exit of its own takes the prover long.
    fn let_go(self, _opens: Vec<OpenTag>) {}

    // With a child more, or None where no node within the limits has them all.
    fn with_child(self, child: Tree) -> Result<Option<OpenTag>, Memory>
        ensures { IfOk result (λ next. IsOpen next (open_with_child (open_of self) child)) }
    {
        let OpenTag {
            before,
            label,
            children,
        } = self;
        match children.with(child)? {
            None => Ok(None),
            Some(children) => Ok(Some(OpenTag {
                before,
                label,
                children,
            })),
        }
    }

    // The state after the tag, of which this is the last child.
    fn close<L: Ledger>(
        self,
        labels: &Labels,
        child: Tree,
        opens: Vec<OpenTag>,
        steps: &mut Steps<L>,
    ) -> Result<Option<Spot>, Memory>
        ensures next { IfOk result (λ next.
            IsState next (closed (open_with_child (open_of self) child) (opens_of opens.items))) }
        ensures counted { IfOk result
            (StepsRose steps.old steps.new (open_nodes (open_with_child (open_of self) child) (opens_of opens.items))) }
        ensures bounded { steps.new + left spot_credit result
            ≤ steps.old + opens_credit (open_of self ∷ opens_of opens.items) + 1 }
        ensures rises { steps.old ≤ steps.new }
    {
        match self.with_child(child)? {
            None => Ok(None),
            Some(tag) => {
                let children = tag.children.into_trees();
                put_node(labels, tag.label, children, tag.before, opens, steps)
            }
        }
    }

    // The state in an argument or a block of the tag, after this child.
    fn go_on(
        self,
        alloc: Global,
        place: Option<TagPlace>,
        child: Tree,
        opens: Vec<OpenTag>,
    ) -> Result<Option<Spot>, Memory>
        ensures { IfOk result (λ next.
            IsState next (in_tag place (open_with_child (open_of self) child) (opens_of opens.items))) }
    {
        match self.with_child(child)? {
            None => Ok(None),
            Some(tag) => in_place(alloc, place, tag, opens),
        }
    }
}

// The state after `|` in an argument.
pub(crate) fn bar_in<L: Ledger>(
    labels: &Labels,
    place: TagPlace,
    line: OpenLine,
    tag: OpenTag,
    opens: Vec<OpenTag>,
    steps: &mut Steps<L>,
) -> Result<Option<Spot>, Memory>
    ensures next { IfOk result (λ next.
        IsState next (in_tag (Some place) (open_with_child (open_of tag) (grown line)) (opens_of opens.items))) }
    ensures counted { IfOk result
        (StepsRose steps.old steps.new (line_nodes line + open_nodes (open_of tag) (opens_of opens.items))) }
    ensures bounded { steps.new + left spot_credit result
        ≤ steps.old + line_credit line + opens_credit (open_of tag ∷ opens_of opens.items) }
    ensures rises { steps.old ≤ steps.new }
{
    match line.finish(labels, steps)? {
        None => {
            tag.let_go(opens);
            Ok(None)
        }
        Some(child) => tag.go_on(labels.alloc, Some(place), child, opens),
    }
}

// The state after `>` in an argument of the tag, of which this is the tree.
fn argument_in<L: Ledger>(
    labels: &Labels,
    place: TagPlace,
    child: Tree,
    tag: OpenTag,
    opens: Vec<OpenTag>,
    steps: &mut Steps<L>,
) -> Result<Option<Spot>, Memory>
    ensures next { IfOk result (λ next.
        IsState next (behind_argument place (open_with_child (open_of tag) child) (opens_of opens.items))) }
    ensures counted { IfOk result
        (StepsRose steps.old steps.new (open_nodes (open_with_child (open_of tag) child) (opens_of opens.items))) }
    ensures bounded { steps.new + left spot_credit result
        ≤ steps.old + opens_credit (open_of tag ∷ opens_of opens.items) + 1 }
    ensures rises { steps.old ≤ steps.new }
{
    match place {
        TagPlace::InHeader => tag.go_on(labels.alloc, None, child, opens),
        TagPlace::InShort => tag.close(labels, child, opens, steps),
        TagPlace::InClosing => tag.close(labels, child, opens, steps),
    }
}

// The state after `>` in an argument.
pub(crate) fn close_in<L: Ledger>(
    labels: &Labels,
    place: TagPlace,
    line: OpenLine,
    tag: OpenTag,
    opens: Vec<OpenTag>,
    steps: &mut Steps<L>,
) -> Result<Option<Spot>, Memory>
    ensures next { IfOk result (λ next.
        IsState next (last_argument (Some place) (inline place line) (open_of tag ∷ opens_of opens.items))) }
    ensures counted { IfOk result
        (StepsRose steps.old steps.new (line_nodes line + open_nodes (open_of tag) (opens_of opens.items))) }
    ensures bounded { steps.new + left spot_credit result
        ≤ steps.old + line_credit line + opens_credit (open_of tag ∷ opens_of opens.items) + 1 }
    ensures rises { steps.old ≤ steps.new }
{
    match line.finish(labels, steps)? {
        None => {
            tag.let_go(opens);
            Ok(None)
        }
        Some(child) => argument_in(labels, place, child, tag, opens, steps),
    }
}

// The state after a block of the tag, where a middle or closing tag of this label goes on at the place.
pub(crate) fn next_in<L: Ledger>(
    labels: &Labels,
    label: &Label,
    place: Option<TagPlace>,
    here: Body,
    tag: OpenTag,
    opens: Vec<OpenTag>,
    steps: &mut Steps<L>,
) -> Result<Option<Spot>, Memory>
    ensures next { IfOk result (λ next. IsState next (next_block (place_of (content_of here)) label.now place
        (content_of here) (open_of tag ∷ opens_of opens.items))) }
    ensures counted { IfOk result
        (StepsRose steps.old steps.new
        (content_nodes (content_of here) + open_nodes (open_of tag) (opens_of opens.items))) }
    ensures bounded { steps.new + left spot_credit result
        ≤ steps.old + state_credit (reading (content_of here) (open_of tag ∷ opens_of opens.items)) + 1 }
    ensures rises { steps.old ≤ steps.new }
{
    if !same_bytes(label.bytes(), tag.label.bytes()) {
        return Ok(None);
    }
    behind_block(labels, label, place, here, tag, opens, steps)
}

// The state that `next_in` returns, where the tag has this label.
fn behind_block<L: Ledger>(
    labels: &Labels,
    label: &Label,
    place: Option<TagPlace>,
    here: Body,
    tag: OpenTag,
    opens: Vec<OpenTag>,
    steps: &mut Steps<L>,
) -> Result<Option<Spot>, Memory>
    requires { same_bytes label.now tag.label ≡ true }
    ensures next { IfOk result (λ next. IsState next (next_block (place_of (content_of here)) label.now place
        (content_of here) (open_of tag ∷ opens_of opens.items))) }
    ensures counted { IfOk result
        (StepsRose steps.old steps.new
        (content_nodes (content_of here) + open_nodes (open_of tag) (opens_of opens.items))) }
    ensures bounded { steps.new + left spot_credit result
        ≤ steps.old + state_credit (reading (content_of here) (open_of tag ∷ opens_of opens.items)) + 1 }
    ensures rises { steps.old ≤ steps.new }
{
    match here.finish_block(labels, steps)? {
        None => {
            tag.let_go(opens);
            Ok(None)
        }
        Some(child) => tag.go_on(labels.alloc, place, child, opens),
    }
}

// The collection of these tags.
fn collection_in<L: Ledger>(
    labels: &Labels,
    tags: TagList,
    before: Body,
    opens: Vec<OpenTag>,
    steps: &mut Steps<L>,
) -> Result<Option<Spot>, Memory>
    ensures next { IfOk result (λ next. IsState next (reading
        (put_part (content_of before)
        (tag true (node collection_label (forest (map tree_of_entry (tags_of tags).entries)))))
        (opens_of opens.items))) }
    ensures counted { IfOk result (StepsRose steps.old steps.new (tags_nodes (tags_of tags)
        + content_nodes (content_of before) + opens_nodes (content_of before) (opens_of opens.items))) }
    ensures bounded { steps.new + left spot_credit result
        ≤ steps.old + content_credit (content_of before) + opens_credit (opens_of opens.items) + 2 }
    ensures rises { steps.old ≤ steps.new }
{
    match tags.collection(labels.alloc, steps)? {
        None => Ok(None),
        Some(tree) => put_tag(labels, true, tree, before, opens, steps),
    }
}

// The state after a block of the tag, where there is a closing tag of this label without arguments.
pub(crate) fn last_in<L: Ledger>(
    labels: &Labels,
    label: &Label,
    here: Body,
    tag: OpenTag,
    opens: Vec<OpenTag>,
    steps: &mut Steps<L>,
) -> Result<Option<Spot>, Memory>
    ensures next { IfOk result (λ next. IsState next
        (last_block (place_of (content_of here)) label.now (content_of here) (open_of tag ∷ opens_of opens.items))) }
    ensures counted { IfOk result
        (StepsRose steps.old steps.new (state_nodes (reading (content_of here) (open_of tag ∷ opens_of opens.items)))) }
    ensures bounded { steps.new + left spot_credit result
        ≤ steps.old + state_credit (reading (content_of here) (open_of tag ∷ opens_of opens.items)) + 2 }
    ensures rises { steps.old ≤ steps.new }
{
    if !same_bytes(label.bytes(), tag.label.bytes()) {
        return Ok(None);
    }
    behind_last(labels, label, here, tag, opens, steps)
}

// The state that `last_in` returns, where the tag has this label.
fn behind_last<L: Ledger>(
    labels: &Labels,
    label: &Label,
    here: Body,
    tag: OpenTag,
    opens: Vec<OpenTag>,
    steps: &mut Steps<L>,
) -> Result<Option<Spot>, Memory>
    requires { same_bytes label.now tag.label ≡ true }
    ensures next { IfOk result (λ next. IsState next
        (last_block (place_of (content_of here)) label.now (content_of here) (open_of tag ∷ opens_of opens.items))) }
    ensures counted { IfOk result
        (StepsRose steps.old steps.new (state_nodes (reading (content_of here) (open_of tag ∷ opens_of opens.items)))) }
    ensures bounded { steps.new + left spot_credit result
        ≤ steps.old + state_credit (reading (content_of here) (open_of tag ∷ opens_of opens.items)) + 2 }
    ensures rises { steps.old ≤ steps.new }
{
    match here {
        Body::Argument(_, _) => Ok(None),
        Body::Tags(tags) => collection_in(labels, tags, tag.before, opens, steps),
        Body::Block(block) => block_in(labels, block, tag, opens, steps),
    }
}

// The state after a tag, of which this block is the last child.
fn block_in<L: Ledger>(
    labels: &Labels,
    block: Paragraphs,
    tag: OpenTag,
    opens: Vec<OpenTag>,
    steps: &mut Steps<L>,
) -> Result<Option<Spot>, Memory>
    ensures next { IfOk result (λ next.
        IsState next (closed (open_with_child (open_of tag) (tree_of_block (block_of block))) (opens_of opens.items))) }
    ensures counted { IfOk result
        (StepsRose steps.old steps.new
        (block_nodes (block_of block) + open_nodes (open_of tag) (opens_of opens.items))) }
    ensures bounded { steps.new + left spot_credit result
        ≤ steps.old + line_credit (block_of block).now + opens_credit (open_of tag ∷ opens_of opens.items) + 2 }
    ensures rises { steps.old ≤ steps.new }
{
    match block.finish(labels, steps)? {
        None => {
            tag.let_go(opens);
            Ok(None)
        }
        Some(child) => tag.close(labels, child, opens, steps),
    }
}
