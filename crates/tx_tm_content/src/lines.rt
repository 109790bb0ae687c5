// Arguments and paragraphs that grow.
ghost use Rattle.std.specs.Prelude.{◌≡◌, ◌≤◌, ◌+◌, ◌++◌, [], false, length, IfOk, IfSome};
ghost use Rattle.tx_tree.specs.Texts.{IsText};
ghost use Rattle.tx_tree.specs.WideTree.{nodes_of};
ghost use Rattle.tx_tm_form.specs.declared.bytes.White.TheVariants.{Spaces};
ghost use Rattle.tx_tm_form.specs.Parts.{gap, text, tag, leaf_before};
ghost use Rattle.tx_tm_form.specs.Growing.{no_parts, grow, grown};
ghost use Rattle.tx_tm_content.specs.Lines.{IsMade, IsLine};
ghost use Rattle.tx_tm_content.specs.ContentNodes.{line_nodes};
ghost use Rattle.tx_tm_content.specs.Rows.{IsRowed};
ghost use Rattle.tx_tm_content.specs.ContentCredits.{line_credit};

use crate::making::{make_concat, make_leaf};
use crate::rows::Siblings;
use crate::shared_labels::Labels;
use std::alloc::Global;
use std::marker::Model;
use std::sync::ledger::Ledger;
use tx_base::{Memory, Steps};
use tx_tree::{MOST_TEXT, Tree};

/// An argument or a paragraph as far as it has been read: its trees, the text after them, and whether a run of white
/// ends that.
#[derive(Drop)]
pub struct OpenLine {
    done: Siblings,
    bytes: Vec<u8>,
    in_run: bool,
}

impl Model for OpenLine {
    ghost use Rattle.tx_tm_form.specs.Growing.{Inline};
    ghost use Rattle.tx_tm_content.specs.Lines.{inline_code, IsLineText};

    ghost Value = { Inline };

    ghost coded = { inline_code };

    ghost view = { λ l. record { done = l.done; bytes = l.bytes.items; in_run = l.in_run } };

    ghost invariant = { λ l. IsLineText l.bytes.items };
}

impl OpenLine {
    /// Of no part yet.
    pub fn new(alloc: Global) -> OpenLine
        ensures { result ≡ no_parts }
    {
        OpenLine {
            done: Siblings::new(alloc),
            bytes: Vec::new(alloc),
            in_run: false,
        }
    }

    // With items of a text, or None where the text passes its limit.
    #[tactic(auto, using(crate::proofs::Texts::both))]
    #[inline(always)]
    pub(crate) fn with_text(self, items: &[u8]) -> Result<Option<OpenLine>, Memory>
        requires { IsText items.now }
        ensures { IfOk result (λ next. IsLine next (grow self (text items.now))) }
    {
        let OpenLine {
            done,
            mut bytes,
            in_run: _,
        } = self;
        if items.len() > MOST_TEXT - bytes.len() {
            return Ok(None);
        }
        bytes.extend_from_slice(items)?;
        Ok(Some(OpenLine {
            done,
            bytes,
            in_run: false,
        }))
    }

    // With white.
    #[tactic(auto, using(crate::proofs::Texts::with_space))]
    #[inline(always)]
    pub(crate) fn with_white(self) -> Result<Option<OpenLine>, Memory>
        ensures { IfOk result (λ next. IsLine next (grow self (gap Spaces))) }
    {
        let OpenLine {
            done,
            mut bytes,
            in_run,
        } = self;
        if !in_run {
            if bytes.len() >= MOST_TEXT {
                return Ok(None);
            }
            bytes.push(b' ')?;
        }
        Ok(Some(OpenLine {
            done,
            bytes,
            in_run: true,
        }))
    }

    // The trees so far, of which the text is the last, if it has bytes, or None where no node within the limits
    // has them.
    #[inline(always)]
    fn into_row(self, alloc: Global) -> Result<Option<Siblings>, Memory>
        ensures { IfOk result (λ row. IsRowed row (self.done ++ leaf_before self.bytes [])) }
    {
        let OpenLine {
            done,
            bytes,
            in_run: _,
        } = self;
        if bytes.is_empty() {
            return Ok(Some(done));
        }
        done.with(make_leaf(alloc, &bytes)?)
    }

    // With a tag, or None where a limit is passed.
    pub(crate) fn with_tag(self, alloc: Global, tree: Tree) -> Result<Option<OpenLine>, Memory>
        ensures { IfOk result (λ next. IsLine next (grow self (tag false tree))) }
    {
        match self.into_row(alloc)? {
            None => Ok(None),
            Some(row) => match row.with(tree)? {
                None => Ok(None),
                Some(done) => Ok(Some(OpenLine {
                    done,
                    bytes: Vec::new(alloc),
                    in_run: false,
                })),
            },
        }
    }

    /// The tree, or None where it passes a limit.
    #[tactic(auto, using(crate::proofs::Counts::line_trees, crate::proofs::Paying::line_paid))]
    #[inline(always)]
    pub fn finish<L: Ledger>(
        self,
        labels: &Labels,
        steps: &mut Steps<L>,
    ) -> Result<Option<Tree>, Memory>
        ensures made { IfOk result (λ made. IsMade made (grown self)) }
        ensures counted { IfOk result (λ made.
            IfSome made (λ t. steps.new + line_nodes self ≤ steps.old + nodes_of t)) }
        ensures bounded { steps.new ≤ steps.old + line_credit self }
        ensures rises { steps.old ≤ steps.new }
    {
        match self.into_row(labels.alloc)? {
            None => Ok(None),
            Some(row) => make_concat(labels, row.into_trees(), steps),
        }
    }
}
