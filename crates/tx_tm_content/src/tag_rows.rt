// Tags that may become the children of a collection, or be in paragraphs.
ghost use Rattle.std.specs.Prelude.{◌≡◌, ◌↔◌, ◌++◌, ◌∷◌, [], IfOk, IsTrue};
ghost use Rattle.tx_tm_content.specs.Tallies.{begins_paragraph, tally_more, no_tally, IsTallyWithinLimits};
ghost use Rattle.tx_tm_content.specs.TagRows.{entry_of, IsTagRowed};

use std::alloc::Global;
use std::marker::Model;
use tx_base::Memory;
use tx_tm_form::White;
use tx_tree::{MOST_ARITY, MOST_SIZE, Tree};

/// A tag, and the white before it.
#[derive(Drop)]
pub struct TagEntry {
    /// The white.
    pub before: Option<White>,
    /// Whether the tag is a collection.
    pub collects: bool,
    /// Its tree.
    pub tree: Tree,
}

/// How many paragraphs of tags have ended, how many tags the open one has, and the size of all tags.
#[derive(Clone, Copy)]
pub(crate) struct Tally {
    ended: usize,
    tags: usize,
    size: u64,
}

// Whether a tag after the run is the first of a paragraph, after so many tags of another.
fn begins_paragraph(run: Option<White>, tags: usize) -> bool
    ensures { result ≡ begins_paragraph run tags }
{
    matches!(run, Some(White::Break)) && tags > 0
}

impl Tally {
    fn new() -> Tally
        ensures { result ≡ no_tally }
    {
        Tally {
            ended: 0,
            tags: 0,
            size: 0,
        }
    }

    // With a tag more.
    fn with(self, entry: &TagEntry) -> Tally
        requires { IsTallyWithinLimits self }
        ensures { result ≡ tally_more self (entry_of entry.now) }
    {
        let size = self.size + entry.tree.size();
        if begins_paragraph(entry.before, self.tags) {
            Tally {
                ended: self.ended + 1,
                tags: 1,
                size,
            }
        } else {
            Tally {
                ended: self.ended,
                tags: self.tags + 1,
                size,
            }
        }
    }

    // Whether so many may be in a collection or in a document within the limits.
    fn is_few(self) -> bool
        ensures { IsTrue result ↔ IsTallyWithinLimits self }
    {
        self.ended <= MOST_ARITY && self.tags <= MOST_ARITY && self.size <= MOST_SIZE
    }
}

/// Tags, and the white before each: no more of them, and no bigger, than a collection or a document within the
/// limits has. Contracts see the list.
#[derive(Drop)]
pub struct TagRow {
    entries: Vec<TagEntry>,
    tally: Tally,
}

impl Model for TagRow {
    ghost use Rattle.std.specs.Prelude.{List};
    ghost use Rattle.std.specs.Coded.{coded_list};
    ghost use Rattle.tx_tm_content.specs.declared.tag_rows.TagEntry.{TagEntry as Tagged};
    ghost use Rattle.tx_tm_content.specs.contracts.tag_rows.TagEntry as one_entry;
    ghost use Rattle.tx_tm_content.specs.TagRows.{IsTagRow};

    ghost Value = { List Tagged };

    ghost coded = { coded_list one_entry.the_row.coded };

    ghost view = { λ r. r.entries.items };

    ghost invariant = { λ r. IsTagRow r.entries.items r.tally };
}

impl TagRow {
    #[tactic(auto, using(crate::proofs::Tallying::no_tag_row))]
    pub(crate) fn new(alloc: Global) -> TagRow
        ensures { result ≡ [] }
    {
        TagRow {
            entries: Vec::new(alloc),
            tally: Tally::new(),
        }
    }

    // With a tag more, or None where neither a collection nor a document within the limits has them all.
    #[tactic(auto, using(crate::proofs::Tallying::counted_more, crate::proofs::Tallying::too_many_tags))]
    pub(crate) fn with(self, entry: TagEntry) -> Result<Option<TagRow>, Memory>
        ensures { IfOk result (λ next. IsTagRowed next (self ++ entry ∷ [])) }
    {
        let TagRow { mut entries, tally } = self;
        let tally = tally.with(&entry);
        if !tally.is_few() {
            return Ok(None);
        }
        entries.push(entry)?;
        Ok(Some(TagRow { entries, tally }))
    }

    pub(crate) fn into_entries(self) -> Vec<TagEntry>
        ensures { result.items ≡ self }
    {
        self.entries
    }
}
