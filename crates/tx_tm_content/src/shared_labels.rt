// The labels of concats, documents and tags, which nodes share.
ghost use Rattle.std.specs.Prelude.{◌≡◌, IfOk, IfSome};
ghost use Rattle.std.specs.Option.{IfNone};
ghost use Rattle.tx_tree.specs.Labels.{IsLabel};
ghost use Rattle.tx_tm_form.specs.Parts.{concat_label, document_label};

use crate::making::make_label;
use std::alloc::Global;
use tx_base::Memory;
use tx_tree::{Label, LabelCache, LabelFault};

/// The labels of concats and documents, and of the tags that have been read of late. A node's label is taken from
/// them, so that most nodes share it.
#[derive(Drop)]
pub struct Labels {
    /// Where labels and trees are made.
    pub alloc: Global,
    concat: Label,
    document: Label,
    tags: LabelCache,
}

// The known label, where it has these bytes, or else a new one.
fn known_or_new(alloc: Global, known: &Label, bytes: &[u8]) -> Result<Label, Memory>
    requires { IsLabel bytes.now }
    ensures { IfOk result (λ l. l ≡ bytes.now) }
{
    if known.bytes() == bytes {
        return known.copy();
    }
    make_label(alloc, bytes)
}

impl Labels {
    /// No label of a tag yet.
    #[tactic(auto, using(crate::proofs::Made::concat_there, crate::proofs::Made::document_there))]
    pub fn new(alloc: Global) -> Result<Labels, Memory> {
        let concat = make_label(alloc, b"concat")?;
        let document = make_label(alloc, b"document")?;
        Ok(Labels {
            alloc,
            concat,
            document,
            tags: LabelCache::new(alloc)?,
        })
    }

    #[tactic(auto, using(crate::proofs::Made::concat_there))]
    pub(crate) fn concat(&self) -> Result<Label, Memory>
        ensures { IfOk result (λ l. l ≡ concat_label) }
    {
        known_or_new(self.alloc, &self.concat, b"concat")
    }

    #[tactic(auto, using(crate::proofs::Made::document_there))]
    pub(crate) fn document(&self) -> Result<Label, Memory>
        ensures { IfOk result (λ l. l ≡ document_label) }
    {
        known_or_new(self.alloc, &self.document, b"document")
    }

    /// The label of a tag that begins with these bytes, or None where they are no label.
    pub fn tag(&mut self, bytes: &[u8]) -> Result<Option<Label>, Memory>
        ensures bytes { IfOk result (λ found. IfSome found (λ l. l ≡ bytes.now)) }
        ensures label { IfOk result (λ found. IfSome found IsLabel) }
        ensures none { IfOk result (λ found. IfNone found (IsLabel bytes.now → ⊥)) }
    {
        match self.tags.label(bytes) {
            Ok(label) => Ok(Some(label)),
            Err(LabelFault::Memory) => Err(Memory),
            Err(LabelFault::BadLabel(_)) => Ok(None),
        }
    }
}
