// Blocks, and content of either kind.
ghost use Rattle.std.specs.Prelude.{◌≡◌, ◌≤◌, ◌+◌, ◌++◌, ◌∷◌, [], false, map, length, Option, IfOk, IfSome, Some, None};
ghost use Rattle.tx_tree.specs.Texts.{IsText};
ghost use Rattle.tx_tree.specs.WideTree.{leaf, node, forest, nodes_of};
ghost use Rattle.tx_tm_form.specs.declared.bytes.White.TheVariants.{Spaces};
ghost use Rattle.tx_tm_form.specs.declared.places.Stage.TheVariants.{Ordinary};
ghost use Rattle.tx_tm_form.specs.Parts.{gap, text, tag, document_label, collection_label};
ghost use Rattle.tx_tm_form.specs.Growing.{no_paragraphs, no_tags, grown, ended, resumed, widen, tree_of_block};
ghost use Rattle.tx_tm_form.specs.Growing.{behind_run, as_block, tree_of_entry, collecting, put_part, place_of, grow};
ghost use Rattle.tx_tm_content.specs.Lines.{IsMade};
ghost use Rattle.tx_tm_content.specs.Blocks.{block_of, tags_of, content_of, tag_stage, block_at};
ghost use Rattle.tx_tm_content.specs.Blocks.{IsGoing, IsResumed, IsBlock, IsTagged, IsTagList, IsContent, IsBlockTree};
ghost use Rattle.tx_tm_content.specs.TagRows.{entry_of};
ghost use Rattle.tx_tm_content.specs.ContentNodes.{nodes_in, line_nodes, block_nodes, tags_nodes, content_nodes};
ghost use Rattle.tx_tm_content.specs.ContentCredits.{line_credit, content_credit, left, body_credit};

use crate::lines::OpenLine;
use crate::making::{make_collection, make_document, make_leaf};
use crate::rows::Siblings;
use crate::shared_labels::Labels;
use crate::tag_rows::{TagEntry, TagRow};
use std::alloc::Global;
use std::sync::ledger::Ledger;
use tx_base::{Memory, Steps};
use tx_tm_form::{Stage, TagPlace, White};
use tx_tm_words::longer;
use tx_tree::Tree;

/// A block as far as it has been read: the paragraphs that have ended, the one that is open, and the white after it.
#[derive(Drop)]
pub struct Paragraphs {
    /// The paragraphs that have ended.
    pub full: Siblings,
    /// The one that is open.
    pub now: OpenLine,
    /// The white after it.
    pub run: Option<White>,
    /// What the block holds so far.
    pub stage: Stage,
}

/// The paragraphs that have ended, and the one that goes on.
#[derive(Drop)]
pub(crate) struct Resumed {
    full: Siblings,
    now: OpenLine,
}

impl Paragraphs {
    /// Of no part yet.
    pub fn new(alloc: Global) -> Paragraphs
        ensures { block_of result ≡ no_paragraphs }
    {
        Paragraphs {
            full: Siblings::new(alloc),
            now: OpenLine::new(alloc),
            run: None,
            stage: Stage::Empty,
        }
    }

    // With white.
    #[inline(always)]
    fn with_white(mut self, white: White) -> Paragraphs
        ensures { block_of result ≡ widen (block_of self) (gap white) }
    {
        match self.stage {
            Stage::Empty => self,
            Stage::Alone | Stage::Ordinary => {
                self.run = Some(longer(self.run, white));
                self
            }
        }
    }

    // With a run, or none.
    fn behind(self, run: Option<White>) -> Paragraphs
        ensures { block_of result ≡ behind_run (block_of self) run }
    {
        match run {
            None => self,
            Some(white) => self.with_white(white),
        }
    }

    // Where a part that is no white goes on, or None where a limit is passed.
    #[tactic(auto, using(crate::proofs::Counts::nodes_both))]
    #[inline(always)]
    fn resume<L: Ledger>(
        self,
        labels: &Labels,
        steps: &mut Steps<L>,
    ) -> Result<Option<Resumed>, Memory>
        ensures next { IfOk result (λ next. IsResumed next (block_of self)) }
        ensures counted { IfOk result (λ next. IfSome next (λ r.
            steps.new + block_nodes (block_of self) ≤ steps.old + (nodes_in r.full + line_nodes r.now))) }
        ensures bounded { steps.new + left (λ r. line_credit r.now) result ≤ steps.old + line_credit self.now }
        ensures rises { steps.old ≤ steps.new }
    {
        let Paragraphs {
            full,
            now,
            run,
            stage,
        } = self;
        match stage {
            Stage::Empty => Ok(Some(Resumed {
                full: Siblings::new(labels.alloc),
                now: OpenLine::new(labels.alloc),
            })),
            Stage::Alone | Stage::Ordinary => behind_run(labels, full, now, run, steps),
        }
    }

    // With items of a text, or None where a limit is passed.
    #[inline(always)]
    fn with_text<L: Ledger>(
        self,
        labels: &Labels,
        items: &[u8],
        steps: &mut Steps<L>,
    ) -> Result<Option<Paragraphs>, Memory>
        requires { IsText items.now }
        ensures next { IfOk result (λ next. IsBlock next (widen (block_of self) (text items.now))) }
        ensures counted { IfOk result (λ next.
            IfSome next (λ b. steps.new + block_nodes (block_of self) ≤ steps.old + block_nodes (block_of b))) }
        ensures bounded { steps.new + left (λ b. line_credit b.now) result ≤ steps.old + line_credit self.now }
        ensures rises { steps.old ≤ steps.new }
    {
        match self.resume(labels, steps)? {
            None => Ok(None),
            Some(resumed) => resumed.with_text(items),
        }
    }

    // With a tag, or None where a limit is passed.
    fn with_tag<L: Ledger>(
        self,
        labels: &Labels,
        collects: bool,
        tree: Tree,
        steps: &mut Steps<L>,
    ) -> Result<Option<Paragraphs>, Memory>
        ensures next { IfOk result (λ next. IsBlock next (widen (block_of self) (tag collects tree))) }
        ensures counted { IfOk result (λ next. IfSome next (λ b.
            steps.new + (block_nodes (block_of self) + nodes_of tree) ≤ steps.old + block_nodes (block_of b))) }
        ensures bounded { steps.new + left (λ b. line_credit b.now) result ≤ steps.old + line_credit self.now + 1 }
        ensures rises { steps.old ≤ steps.new }
    {
        let stage = tag_stage(self.stage, collects);
        match self.resume(labels, steps)? {
            None => Ok(None),
            Some(resumed) => resumed.with_tag(labels.alloc, stage, tree),
        }
    }

    /// The tree, or None where it passes a limit.
    pub fn finish<L: Ledger>(
        self,
        labels: &Labels,
        steps: &mut Steps<L>,
    ) -> Result<Option<Tree>, Memory>
        ensures made { IfOk result (λ made. IsMade made (tree_of_block (block_of self))) }
        ensures counted { IfOk result (λ made.
            IfSome made (λ t. steps.new + block_nodes (block_of self) ≤ steps.old + nodes_of t)) }
        ensures bounded { steps.new ≤ steps.old + line_credit self.now + 1 }
        ensures rises { steps.old ≤ steps.new }
    {
        let Paragraphs {
            full,
            now,
            run: _,
            stage,
        } = self;
        match stage {
            Stage::Empty => empty_document(labels, steps),
            Stage::Alone => now.finish(labels, steps),
            Stage::Ordinary => document_of(labels, full, now, steps),
        }
    }
}

impl Resumed {
    // The block with items of a text more, or None where the text passes its limit.
    #[inline(always)]
    fn with_text(self, items: &[u8]) -> Result<Option<Paragraphs>, Memory>
        requires { IsText items.now }
        ensures { IfOk result (λ next. IsBlock next (block_at Ordinary self.full (grow self.now (text items.now)))) }
    {
        let Resumed { full, now } = self;
        match now.with_text(items)? {
            None => Ok(None),
            Some(now) => Ok(Some(Paragraphs {
                full,
                now,
                run: None,
                stage: Stage::Ordinary,
            })),
        }
    }

    // The block with a tag more, or None where the paragraph passes a limit.
    fn with_tag(self, alloc: Global, stage: Stage, tree: Tree) -> Result<Option<Paragraphs>, Memory>
        ensures { IfOk result (λ next. IsTagged next stage self.full (grow self.now (tag false tree))) }
    {
        let Resumed { full, now } = self;
        match now.with_tag(alloc, tree)? {
            None => Ok(None),
            Some(now) => Ok(Some(Paragraphs {
                full,
                now,
                run: None,
                stage,
            })),
        }
    }
}

// The document of one empty paragraph.
fn empty_document<L: Ledger>(labels: &Labels, steps: &mut Steps<L>) -> Result<Option<Tree>, Memory>
    ensures made { IfOk result (λ made. IsMade made (node document_label (forest (leaf [] ∷ [])))) }
    ensures counted { IfOk result (λ made. IfSome made (λ t. steps.new ≤ steps.old + nodes_of t)) }
    ensures bounded { steps.new ≤ steps.old + 1 }
    ensures rises { steps.old ≤ steps.new }
{
    let empty = vec![in labels.alloc; make_leaf(labels.alloc, b"")?]?;
    make_document(labels, empty, steps)
}

// The document of the paragraphs that have ended and the one that is open, or None where it passes a limit.
#[tactic(auto, using(crate::proofs::Counts::nodes_both, crate::proofs::Fitting::last_within))]
fn document_of<L: Ledger>(
    labels: &Labels,
    full: Siblings,
    now: OpenLine,
    steps: &mut Steps<L>,
) -> Result<Option<Tree>, Memory>
    ensures made { IfOk result (λ made. IsMade made (node document_label (forest (full ++ grown now ∷ [])))) }
    ensures counted { IfOk result (λ made.
        IfSome made (λ t. steps.new + (nodes_in full + line_nodes now) ≤ steps.old + nodes_of t)) }
    ensures bounded { steps.new ≤ steps.old + line_credit now + 1 }
    ensures rises { steps.old ≤ steps.new }
{
    match now.finish(labels, steps)? {
        None => Ok(None),
        Some(tree) => match full.with(tree)? {
            None => Ok(None),
            Some(all) => make_document(labels, all.into_trees(), steps),
        },
    }
}

fn tag_stage(stage: Stage, collects: bool) -> Stage
    ensures { result ≡ tag_stage stage collects }
{
    match stage {
        Stage::Empty => {
            if collects {
                Stage::Alone
            } else {
                Stage::Ordinary
            }
        }
        Stage::Alone | Stage::Ordinary => Stage::Ordinary,
    }
}

// Where a part goes on after the paragraph and the run.
#[tactic(auto, using(crate::proofs::Counts::nodes_both, crate::proofs::Fitting::last_small))]
#[inline(always)]
fn behind_run<L: Ledger>(
    labels: &Labels,
    full: Siblings,
    now: OpenLine,
    run: Option<White>,
    steps: &mut Steps<L>,
) -> Result<Option<Resumed>, Memory>
    ensures next { IfOk result (λ next. IsGoing next (ended run full now) (resumed run now)) }
    ensures counted { IfOk result (λ next. IfSome next (λ r.
        steps.new + (nodes_in full + line_nodes now) ≤ steps.old + (nodes_in r.full + line_nodes r.now))) }
    ensures bounded { steps.new + left (λ r. line_credit r.now) result ≤ steps.old + line_credit now }
    ensures rises { steps.old ≤ steps.new }
{
    match run {
        None => Ok(Some(Resumed { full, now })),
        Some(White::Break) => match now.finish(labels, steps)? {
            None => Ok(None),
            Some(tree) => match full.with(tree)? {
                None => Ok(None),
                Some(full) => Ok(Some(Resumed {
                    full,
                    now: OpenLine::new(labels.alloc),
                })),
            },
        },
        Some(White::Spaces) => spaced(full, now),
        Some(White::Line) => spaced(full, now),
    }
}

// Where a part goes on after white that separates no paragraphs.
#[inline(always)]
fn spaced(full: Siblings, now: OpenLine) -> Result<Option<Resumed>, Memory>
    ensures { IfOk result (λ next. IsGoing next full (grow now (gap Spaces))) }
{
    match now.with_white()? {
        None => Ok(None),
        Some(now) => Ok(Some(Resumed { full, now })),
    }
}

/// The block of what may be a collection tag: tags and white, and nothing else so far.
#[derive(Drop)]
pub struct TagList {
    /// The tags.
    pub entries: TagRow,
    /// The white after them.
    pub run: Option<White>,
}

impl TagList {
    /// Of no tag yet.
    pub fn new(alloc: Global) -> TagList
        ensures { tags_of result ≡ no_tags }
    {
        TagList {
            entries: TagRow::new(alloc),
            run: None,
        }
    }

    // With a tag, or None where a limit is passed.
    fn with(self, collects: bool, tree: Tree) -> Result<Option<TagList>, Memory>
        ensures { IfOk result (λ next. IsTagList next (put_part (collecting (tags_of self)) (tag collects tree))) }
    {
        let TagList { entries, run } = self;
        let entry = TagEntry {
            before: run,
            collects,
            tree,
        };
        match entries.with(entry)? {
            None => Ok(None),
            Some(entries) => Ok(Some(TagList { entries, run: None })),
        }
    }

    // The tags as an ordinary block, or None where a limit is passed.
    fn into_paragraphs<L: Ledger>(
        self,
        labels: &Labels,
        steps: &mut Steps<L>,
    ) -> Result<Option<Paragraphs>, Memory>
        ensures next { IfOk result (λ next. IsBlock next (as_block (tags_of self))) }
        ensures counted { IfOk result (λ next.
            IfSome next (λ b. steps.new + tags_nodes (tags_of self) ≤ steps.old + block_nodes (block_of b))) }
        ensures bounded { steps.new + left (λ b. line_credit b.now) result ≤ steps.old + length self.entries }
        ensures rises { steps.old ≤ steps.new }
    {
        let TagList { entries, run } = self;
        let mut block = Paragraphs::new(labels.alloc);
        for entry in entries.into_entries() {
            let behind = block.behind(entry.before);
            match behind.with_tag(labels, entry.collects, entry.tree, steps)? {
                None => return Ok(None),
                Some(next) => block = next,
            }
        }
        Ok(Some(block.behind(run)))
    }

    // The ordinary block with items of a text more, or None where a limit is passed.
    fn with_text<L: Ledger>(
        self,
        labels: &Labels,
        items: &[u8],
        steps: &mut Steps<L>,
    ) -> Result<Option<Paragraphs>, Memory>
        requires { IsText items.now }
        ensures next { IfOk result (λ next. IsBlock next (widen (as_block (tags_of self)) (text items.now))) }
        ensures counted { IfOk result (λ next.
            IfSome next (λ b. steps.new + tags_nodes (tags_of self) ≤ steps.old + block_nodes (block_of b))) }
        ensures bounded { steps.new + left (λ b. line_credit b.now) result ≤ steps.old + length self.entries }
        ensures rises { steps.old ≤ steps.new }
    {
        match self.into_paragraphs(labels, steps)? {
            None => Ok(None),
            Some(block) => block.with_text(labels, items, steps),
        }
    }

    /// The tree of the ordinary block, or None where a limit is passed.
    pub fn finish<L: Ledger>(
        self,
        labels: &Labels,
        steps: &mut Steps<L>,
    ) -> Result<Option<Tree>, Memory>
        ensures made { IfOk result (λ made. IsMade made (tree_of_block (as_block (tags_of self)))) }
        ensures counted { IfOk result (λ made.
            IfSome made (λ t. steps.new + tags_nodes (tags_of self) ≤ steps.old + nodes_of t)) }
        ensures bounded { steps.new ≤ steps.old + length self.entries + 1 }
        ensures rises { steps.old ≤ steps.new }
    {
        match self.into_paragraphs(labels, steps)? {
            None => Ok(None),
            Some(block) => block.finish(labels, steps),
        }
    }

    // The tags alone.
    fn into_trees(self, alloc: Global) -> Result<Vec<Tree>, Memory>
        ensures { IfOk result (λ ts. ts.items ≡ map tree_of_entry (map entry_of self.entries)) }
    {
        let mut trees = Vec::new(alloc);
        for entry in self.entries.into_entries() {
            trees.push(entry.tree)?;
        }
        Ok(trees)
    }

    /// The collection, or None where it passes a limit.
    pub fn collection<L: Ledger>(
        self,
        alloc: Global,
        steps: &mut Steps<L>,
    ) -> Result<Option<Tree>, Memory>
        ensures made { IfOk result (λ made.
            IsMade made (node collection_label (forest (map tree_of_entry (tags_of self).entries)))) }
        ensures counted { IfOk result (λ made.
            IfSome made (λ t. steps.new + tags_nodes (tags_of self) ≤ steps.old + nodes_of t)) }
        ensures bounded { steps.new ≤ steps.old + 1 }
        ensures rises { steps.old ≤ steps.new }
    {
        make_collection(alloc, self.into_trees(alloc)?, steps)
    }
}

/// Content as far as it has been read.
#[derive(Drop)]
pub enum Body {
    /// An argument of a tag.
    Argument(TagPlace, OpenLine),
    /// A block.
    Block(Paragraphs),
    /// The block of what may be a collection tag.
    Tags(TagList),
}

impl Body {
    /// Of what the content is an argument, or None for a block.
    pub fn place(&self) -> Option<TagPlace>
        ensures { result ≡ place_of (content_of self.now) }
    {
        match self {
            Body::Argument(place, _) => Some(*place),
            Body::Block(_) | Body::Tags(_) => None,
        }
    }

    /// With white, or None where a limit is passed.
    #[inline(always)]
    pub fn with_white(self, white: White) -> Result<Option<Body>, Memory>
        ensures next { IfOk result (λ next. IsContent next (put_part (content_of self) (gap white))) }
        ensures counted { IfOk result (λ next.
            IfSome next (λ b. content_nodes (content_of b) ≡ content_nodes (content_of self))) }
    {
        match self {
            Body::Argument(place, line) => match line.with_white()? {
                None => Ok(None),
                Some(line) => Ok(Some(Body::Argument(place, line))),
            },
            Body::Block(block) => Ok(Some(Body::Block(block.with_white(white)))),
            Body::Tags(mut tags) => {
                tags.run = Some(longer(tags.run, white));
                Ok(Some(Body::Tags(tags)))
            }
        }
    }

    /// With items of a text, or None where a limit is passed.
    #[inline(always)]
    pub fn with_text<L: Ledger>(
        self,
        labels: &Labels,
        items: &[u8],
        steps: &mut Steps<L>,
    ) -> Result<Option<Body>, Memory>
        requires { IsText items.now }
        ensures next { IfOk result (λ next. IsContent next (put_part (content_of self) (text items.now))) }
        ensures counted { IfOk result (λ next.
            IfSome next (λ b. steps.new + content_nodes (content_of self) ≤ steps.old + content_nodes (content_of b))) }
        ensures bounded { steps.new + left body_credit result ≤ steps.old + content_credit (content_of self) }
        ensures rises { steps.old ≤ steps.new }
    {
        match self {
            Body::Argument(place, line) => match line.with_text(items)? {
                None => Ok(None),
                Some(line) => Ok(Some(Body::Argument(place, line))),
            },
            Body::Block(block) => match block.with_text(labels, items, steps)? {
                None => Ok(None),
                Some(block) => Ok(Some(Body::Block(block))),
            },
            Body::Tags(tags) => match tags.with_text(labels, items, steps)? {
                None => Ok(None),
                Some(block) => Ok(Some(Body::Block(block))),
            },
        }
    }

    /// With a tag, or None where a limit is passed.
    pub fn with_tag<L: Ledger>(
        self,
        labels: &Labels,
        collects: bool,
        tree: Tree,
        steps: &mut Steps<L>,
    ) -> Result<Option<Body>, Memory>
        ensures next { IfOk result (λ next. IsContent next (put_part (content_of self) (tag collects tree))) }
        ensures counted { IfOk result (λ next. IfSome next (λ b.
            steps.new + (content_nodes (content_of self) + nodes_of tree) ≤ steps.old + content_nodes (content_of b))) }
        ensures bounded { steps.new + left body_credit result ≤ steps.old + content_credit (content_of self) + 1 }
        ensures rises { steps.old ≤ steps.new }
    {
        match self {
            Body::Argument(place, line) => match line.with_tag(labels.alloc, tree)? {
                None => Ok(None),
                Some(line) => Ok(Some(Body::Argument(place, line))),
            },
            Body::Block(block) => match block.with_tag(labels, collects, tree, steps)? {
                None => Ok(None),
                Some(block) => Ok(Some(Body::Block(block))),
            },
            Body::Tags(tags) => match tags.with(collects, tree)? {
                None => Ok(None),
                Some(tags) => Ok(Some(Body::Tags(tags))),
            },
        }
    }

    /// The tree of a block, or None for an argument or where it passes a limit.
    pub fn finish_block<L: Ledger>(
        self,
        labels: &Labels,
        steps: &mut Steps<L>,
    ) -> Result<Option<Tree>, Memory>
        ensures made { IfOk result (λ made. IsBlockTree made (content_of self)) }
        ensures counted { IfOk result (λ made.
            IfSome made (λ t. steps.new + content_nodes (content_of self) ≤ steps.old + nodes_of t)) }
        ensures bounded { steps.new ≤ steps.old + content_credit (content_of self) + 1 }
        ensures rises { steps.old ≤ steps.new }
    {
        match self {
            Body::Argument(_, _) => Ok(None),
            Body::Block(block) => block.finish(labels, steps),
            Body::Tags(tags) => tags.finish(labels, steps),
        }
    }
}
