// Modifications with their inverses.
ghost use Rattle.std.specs.Prelude.{◌≡◌, ◌≤◌, ◌+◌, ℕ, length, IfOk, IsOk, Ok};
ghost use Rattle.tx_mod.specs.Changes.{changed};
ghost use Rattle.tx_mod.specs.Inverses.{inverse_of};
ghost use Rattle.tx_mod.specs.Mods.{path_of};
ghost use Rattle.tx_mod.specs.Sound.{IsSoundMod};
ghost use Rattle.tx_commute.specs.Pasts.{at_path};
ghost use Rattle.tx_commute.specs.Knowing.{at_place, cut_of, known_put};

use std::alloc::Global;
use std::sync::ledger::Ledger;
use tx_base::{Memory, Steps};
use tx_mod::{ApplyFault, Mod, apply_and_inverse, sound};
use tx_tree::{Path, Tree};

// A modification, and what undoes it.
#[derive(Drop)]
pub(crate) struct Known {
    pub does: Mod,
    pub undoes: Mod,
}

// The modification at another path.
pub(crate) fn at_path(m: Mod, path: Path) -> Mod
    ensures { result ≡ at_path m path }
{
    match m {
        Mod::Assign(_, x) => Mod::Assign(path, x),
        Mod::Insert(_, i, x) => Mod::Insert(path, i, x),
        Mod::Remove(_, i, n) => Mod::Remove(path, i, n),
        Mod::Split(_, i, j) => Mod::Split(path, i, j),
        Mod::Join(_, i) => Mod::Join(path, i),
        Mod::AssignNode(_, l) => Mod::AssignNode(path, l),
        Mod::InsertNode(_, i, x) => Mod::InsertNode(path, i, x),
        Mod::RemoveNode(_, i) => Mod::RemoveNode(path, i),
    }
}

// An insertion or a removal at another place.
fn at_place(m: Mod, k: u32) -> Mod
    ensures { result ≡ at_place m k }
{
    match m {
        Mod::Insert(path, _, x) => Mod::Insert(path, k, x),
        Mod::Remove(path, _, n) => Mod::Remove(path, k, n),
        other => other,
    }
}

// The place at which a split cuts its child.
pub(crate) fn cut_of(m: &Mod) -> u32
    ensures { result ≡ cut_of m.now }
{
    match m {
        Mod::Split(_, _, j) => *j,
        _ => 0,
    }
}

// Both at another place.
pub(crate) fn known_put(k: Known, i: u32) -> Known
    ensures { result ≡ known_put k i }
{
    Known {
        does: at_place(k.does, i),
        undoes: at_place(k.undoes, i),
    }
}

// The changed tree, and the modification with what undoes it.
pub(crate) fn known_of<L: Ledger>(
    alloc: Global,
    t: &Tree,
    m: &Mod,
    steps: &mut Steps<L>,
) -> Result<(Tree, Known), Memory>
    requires { IsOk (changed m.now t.now) }
    ensures made { IfOk result (λ r. changed m.now t.now ≡ Ok r.0) }
    ensures does { IfOk result (λ r. r.1.does ≡ m.now) }
    ensures undoes { IfOk result (λ r. r.1.undoes ≡ inverse_of m.now t.now) }
    ensures sound { IsSoundMod m.now }
    ensures short { length (path_of m.now) ≤ 399 }
    ensures counted { steps.new ≤ steps.old + (length (path_of m.now) + 4) }
{
    let _size = t.size();
    sound(m);
    let does = m.copy(alloc)?;
    match apply_and_inverse(alloc, t, m, steps) {
        Ok((tree, undoes)) => Ok((tree, Known { does, undoes })),
        Err(ApplyFault::Memory) => Err(Memory),
        Err(ApplyFault::Refused(_)) => unreachable!(),
    }
}
