// Cached parts, and where they are found.
ghost use Rattle.std.specs.Prelude.{◌≡◌, ◌++◌, IfOk};

use crate::part_trace::PartTrace;
use std::alloc::Global;
use tx_base::Memory;
use tx_kept::PathMap;
use tx_origin::Base;
use tx_tree::Path;

/// A part with its trace, as it is cached at its path in the document.
#[derive(Drop)]
pub struct CachedPart {
    /// Its trace alone, with origins that begin at the part.
    pub trace: PartTrace,
    /// Whether no cached trace of it fits, so that it was evaluated, or is the spare's.
    pub renewed: bool,
}

/// What is cached of a unit at this path of the document, and a spare, which is looked up where the cached trace of a
/// part doesn't fit. Both have parts at paths of the document.
#[derive(Drop)]
pub struct Caches<'a> {
    pub base: &'a Path,
    pub own: &'a PathMap<CachedPart>,
    pub spare: &'a PathMap<CachedPart>,
}

/// What a walk goes by.
#[derive(Drop)]
pub(crate) struct Source<'a> {
    pub alloc: Global,
    pub caches: &'a Caches<'a>,
}

impl<'a> Source<'a> {
    /// The path in the document of a tree of the unit.
    pub(crate) fn place(&self, path: &Path) -> Result<Path, Memory>
        ensures { IfOk result (λ p. p ≡ self.now.caches.now.base.now ++ path.now) }
    {
        let caches = self.caches;
        Base::joined(caches.base, path).path(self.alloc)
    }
}
