// A tree changed by modifications in turn, with what changes it back and where a place moves.
ghost use Rattle.std.specs.Prelude.{◌≡◌, ◌≤◌, ◌+◌, ◌++◌, ◌∷◌, [], length, IsOk, IfOk, IfErr, OnOk, Ok, option_map};
ghost use Rattle.tx_tree.specs.WideTree.{WideTree};
ghost use Rattle.tx_mod.specs.Changes.{changed, IsRefusal};
ghost use Rattle.tx_mod.specs.InTurn.{changed_in_turn, inverses_of, moved_in_turn, AreUndone};
ghost use Rattle.tx_mod.specs.Inverses.{inverse_of};
ghost use Rattle.tx_mod.specs.Mods.{path_of};
ghost use Rattle.tx_mod.specs.Moves.{moved_place};
ghost use Rattle.tx_mod.specs.Sound.{IsSoundMod};
ghost use Rattle.tx_state.specs.Changing.{IsPlaceIn};
ghost use Rattle.tx_state.specs.Ready.{cost_both_ways};

use std::alloc::Global;
use std::sync::ledger::Ledger;
use tx_base::{Memory, Steps};
use tx_mod::{ApplyFault, Mod, apply_and_inverse, list_inverse_law, moved, sound};
use tx_tree::{Place, Tree};

// A tree on its way, the inverses of what changed it so far, the first one first, and a place of it.
#[derive(Drop)]
pub(crate) struct Changing {
    pub tree: Tree,
    pub back: Vec<Mod>,
    pub place: Option<Place>,
}

// Where the place is afterwards, if there is one.
fn moved_if(
    alloc: Global,
    t: &Tree,
    m: &Mod,
    place: &Option<Place>,
) -> Result<Option<Place>, Memory>
    requires applicable { IsOk (changed m.now t.now) }
    requires valid { IsPlaceIn t.now place.now }
    ensures place { IfOk result (λ at. at ≡ option_map (moved_place m.now t.now) place.now) }
    ensures valid { (u : WideTree) → changed m.now t.now ≡ Ok u → IfOk result (λ at. IsPlaceIn u at) }
{
    match place {
        Some(at) => Ok(Some(moved(alloc, t, m, at)?)),
        None => Ok(None),
    }
}

// One modification more.
fn change_once<L: Ledger>(
    alloc: Global,
    now: &mut Changing,
    m: &Mod,
    steps: &mut Steps<L>,
) -> Result<(), ApplyFault>
    requires { IsPlaceIn now.old.tree now.old.place }
    ensures tree { OnOk result (changed m.now now.old.tree ≡ Ok now.new.tree) }
    ensures back { OnOk result (now.new.back.items ≡ now.old.back.items ++ inverse_of m.now now.old.tree ∷ []) }
    ensures place { OnOk result (now.new.place ≡ option_map (moved_place m.now now.old.tree) now.old.place) }
    ensures valid { OnOk result (IsPlaceIn now.new.tree now.new.place) }
    ensures refused { IfErr result (IsRefusal (changed m.now now.old.tree)) }
    ensures sound { IsSoundMod m.now }
    ensures counted { steps.new ≤ steps.old + (length (path_of m.now) + 4) }
{
    sound(m);
    let (tree, inverse) = apply_and_inverse(alloc, &now.tree, m, steps)?;
    now.place = moved_if(alloc, &now.tree, m, &now.place)?;
    now.back.push(inverse)?;
    now.tree = tree;
    Ok(())
}

// The tree changed by all modifications, their inverses from the last to the first, and where the place is.
pub(crate) fn change_in_turn<L: Ledger>(
    alloc: Global,
    t: &Tree,
    mods: &[Mod],
    place: Option<Place>,
    steps: &mut Steps<L>,
) -> Result<Changing, ApplyFault>
    requires { IsPlaceIn t.now place }
    ensures tree { IfOk result (λ r. changed_in_turn mods.now t.now ≡ Ok r.tree) }
    ensures back { IfOk result (λ r. r.back.items ≡ inverses_of mods.now t.now) }
    ensures undone { IfOk result (λ r. AreUndone mods.now t.now r.tree) }
    ensures place { IfOk result (λ r. r.place ≡ option_map (moved_in_turn mods.now t.now) place) }
    ensures valid { IfOk result (λ r. IsPlaceIn r.tree r.place) }
    ensures refused { IfErr result (IsRefusal (changed_in_turn mods.now t.now)) }
    ensures counted { steps.new ≤ steps.old + cost_both_ways mods.now }
{
    let _size = t.size();
    list_inverse_law();
    let mut now = Changing {
        tree: t.share()?,
        back: Vec::new(alloc),
        place,
    };
    for m in mods {
        change_once(alloc, &mut now, m, steps)?;
    }
    now.back.reverse();
    Ok(now)
}
