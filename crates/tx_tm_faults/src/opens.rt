// Open tags that are measured.
ghost use Rattle.std.specs.Prelude.{◌≡◌, ◌+◌, IfOk};
ghost use Rattle.tx_tm_form.specs.Measures.{with_child_sums};
ghost use Rattle.tx_tm_faults.specs.Bounds.{IsSmallCount, most_of};
ghost use Rattle.tx_tm_faults.specs.Gauges.{sums_before, open_of};

use crate::sums::both;
use std::alloc::Global;
use tx_base::Memory;
use tx_tm_form::{BlockSums, ContentSums, LineSums, Sums, TagPlace};

/// The measures of the content before an open tag. Those of a block are in boxes, so that millions of tags in arguments
/// of one another take little memory.
#[derive(Drop)]
pub(crate) enum Before {
    /// Of an argument.
    Argument(TagPlace, LineSums),
    /// Of a block.
    Block(Box<BlockSums>),
    /// Of what may be the block of a collection tag.
    Tags(Box<Sums>, Box<BlockSums>),
}

/// An open tag: the measures of the content before it, whether its label is that of collections, and the measures of
/// its children so far.
#[derive(Drop)]
pub(crate) struct OpenGauge {
    pub(crate) before: Before,
    pub(crate) collects: bool,
    pub(crate) children: Sums,
}

/// The measures as they are stored.
pub(crate) fn kept(alloc: Global, here: ContentSums) -> Result<Before, Memory>
    ensures { IfOk result (λ before. sums_before before ≡ here) }
{
    match here {
        ContentSums::Argument(place, line) => Ok(Before::Argument(place, line)),
        ContentSums::Block(block) => Ok(Before::Block(Box::new(alloc, block)?)),
        ContentSums::Tags(tags, block) => {
            let tags = Box::new(alloc, tags)?;
            Ok(Before::Tags(tags, Box::new(alloc, block)?))
        }
    }
}

impl Before {
    /// The measures.
    pub(crate) fn sums(self) -> ContentSums
        ensures { result ≡ sums_before self }
    {
        match self {
            Before::Argument(place, line) => ContentSums::Argument(place, line),
            Before::Block(block) => ContentSums::Block(Box::into_inner(block)),
            Before::Tags(tags, block) => {
                ContentSums::Tags(Box::into_inner(tags), Box::into_inner(block))
            }
        }
    }
}

impl OpenGauge {
    /// With a child more.
    pub(crate) fn with_child(self, child: Sums) -> OpenGauge
        requires { IsSmallCount (most_of self.children + most_of child) }
        ensures { open_of result ≡ with_child_sums (open_of self) child }
    {
        OpenGauge {
            before: self.before,
            collects: self.collects,
            children: both(self.children, child),
        }
    }
}
