// What is cached of the parts of a unit.
ghost use Rattle.std.specs.Prelude.{◌≡◌, ◌++◌, List, [], ◌∷◌, OnOk};
ghost use Rattle.tx_walk.specs.declared.part.Part.{Part as DonePart};
ghost use Rattle.tx_bridge.specs.PartsKept.{has_parts};
ghost use Rattle.tx_bridge.specs.HeldParts.{unmarked};
ghost use Rattle.tx_bridge.specs.Others.{put_from};

use crate::replacing::put_all;
use std::alloc::Global;
use std::marker::Model;
use tx_base::Memory;
use tx_units::Unit;
use tx_walk::Part;

/// The cached parts of a unit, and whether some may be marked as renewed. Contracts see their list.
#[derive(Drop)]
pub(crate) struct UnitParts {
    all: Vec<Part>,
    marked: bool,
}

impl Model for UnitParts {
    ghost use Rattle.std.specs.Prelude.{◌≡◌, false, List};
    ghost use Rattle.tx_walk.specs.declared.part.Part.{Part};
    ghost use Rattle.tx_walk.specs.Codes.{coded_Parts};
    ghost use Rattle.tx_bridge.specs.HeldParts.{unmarked};

    ghost Value = { List Part };

    ghost coded = { coded_Parts };

    ghost view = { λ p. p.all.items };

    ghost invariant = { λ p. p.marked ≡ false → unmarked p.all.items ≡ p.all.items };
}

// Marks none of the parts as renewed.
fn unmark_all(parts: &mut [Part])
    ensures { parts.new ≡ unmarked parts.old }
{
    for i in 0..parts.len() {
        parts[i].renewed = false;
    }
}

impl UnitParts {
    /// None of them.
    pub(crate) fn none(alloc: Global) -> UnitParts
        ensures { result ≡ [] }
    {
        UnitParts {
            all: Vec::new(alloc),
            marked: false,
        }
    }

    /// These parts.
    pub(crate) fn new(parts: Vec<Part>) -> UnitParts
        ensures { result ≡ parts.items }
    {
        UnitParts {
            all: parts,
            marked: true,
        }
    }

    /// All of them.
    pub(crate) fn all(&self) -> &[Part]
        ensures { result.now ≡ self.now }
    {
        &self.all
    }

    /// Adds the part after the others.
    pub(crate) fn add(&mut self, part: Part) -> Result<(), Memory>
        ensures { OnOk result (self.new ≡ self.old ++ part ∷ []) }
    {
        self.marked = true;
        self.all.push(part)?;
        Ok(())
    }

    /// Puts others in the places of the parts of these numbers, which are in order. Where an other is None, the part is
    /// dropped.
    pub(crate) fn put(&mut self, others: Vec<(usize, Option<Part>)>)
        ensures { self.new ≡ put_from 0 others.items self.old }
    {
        if others.is_empty() {
            return;
        }
        put_all(&mut self.all, others);
        self.marked = true;
    }

    /// Marks none of them as renewed. Where none may be, memory is only read.
    pub(crate) fn unmark(&mut self)
        ensures { self.new ≡ unmarked self.old }
    {
        if self.marked {
            unmark_all(&mut self.all);
            self.marked = false;
        }
    }
}

/// Whether the unit is evaluated by its parts, as each paragraph of the body is. One whose tree is neither a `document`
/// with a child nor a `with` of names, texts and a last child is its one part.
pub fn has_parts(unit: &Unit) -> bool
    ensures { result ≡ has_parts unit.now }
{
    unit.path.is_some()
}
