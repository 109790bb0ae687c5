// Laws of modifications.
ghost use Rattle.std.specs.Prelude.{◌≡◌, List, ℕ, [], ◌∷◌, Ok, Some};
ghost use Rattle.tx_tree.specs.Paths.{subtree};
ghost use Rattle.tx_tree.specs.WideTree.{WideTree};
ghost use Rattle.tx_tree.specs.declared.places.Place.{Place as Position};
ghost use Rattle.tx_mod.specs.declared.mods.Mod.{Mod as Change};
ghost use Rattle.tx_mod.specs.Changes.{changed};
ghost use Rattle.tx_mod.specs.Followed.{StaysPlace, CarriesSubtree, CarriesThroughAll, Composes};
ghost use Rattle.tx_mod.specs.Followed.{PathStopsAt, carried_by_all, changed_by_all, outcome_tree};
ghost use Rattle.tx_mod.specs.Moves.{carried_path, moved_place, place};
ghost use Rattle.tx_mod.specs.Orders.{KeepsOrder};
ghost use Rattle.tx_mod.specs.InTurn.{CanBeUndone, changed_in_turn};
ghost use Rattle.tx_mod.specs.Sound.{IsSoundMod, StaysWellFormed, GivesBack, IsMadeAgain};

use crate::mods::Mod;

/// The parts of a modification in hand are well formed: trees that are put in, and the label that is given.
pub fn sound(m: &Mod)
    ensures { IsSoundMod m.now }
{
    match m {
        Mod::Assign(_, x) | Mod::Insert(_, _, x) | Mod::InsertNode(_, _, x) => {
            let _size = x.size();
        }
        Mod::AssignNode(_, label) => {
            let _bytes = label.bytes();
        }
        _ => {}
    }
}

/// What a modification makes of a well formed tree is well formed, and within the limits.
pub fn well_formed_law()
    ensures { (m : Change) (t : WideTree) → StaysWellFormed m t }
{}

/// What undoes a modification, applied to the changed tree, gives the tree back, and what undoes that is the
/// modification itself.
pub fn inverse_law()
    ensures back { (m : Change) (t : WideTree) → GivesBack m t }
    ensures again { (m : Change) (t : WideTree) → IsMadeAgain m t }
{}

/// What undoes a list of modifications, the inverses from the last to the first, gives the tree back, and what undoes
/// that is the list itself. The tree in between is well formed and within the limits. A list makes a tree where no
/// modification of it is refused.
pub fn list_inverse_law()
    ensures undone { (ms : List Change) (t : WideTree) → CanBeUndone ms t }
    ensures tree { (ms : List Change) (t : WideTree) → outcome_tree (changed_in_turn ms t) ≡ changed_by_all ms t }
{}

/// A moved place is a place of the changed tree.
pub fn moved_law()
    ensures { (m : Change) (t : WideTree) (at : Position) → StaysPlace m t at }
{}

/// Where a path that leads is carried, the same subtree is in the changed tree.
pub fn carried_law()
    ensures { (m : Change) (t : WideTree) (q : List ℕ) → CarriesSubtree m t q }
{}

/// Where a path that leads is carried, a place at its end is moved with it: to the end of the carried path, with the
/// same offset.
pub fn carried_place_law()
    ensures { (m : Change) (t s : WideTree) (q r : List ℕ) (o : ℕ) → subtree t q ≡ Some s
        → carried_path m t q ≡ Some r → moved_place m t (place q o) ≡ place r o }
{}

/// A path carried through a list of modifications is carried by one after the other, nowhere where one of them
/// carries it nowhere, and leads to the same subtree afterwards.
pub fn carried_list_law()
    ensures one { (m : Change) (t u : WideTree) (q : List ℕ) → changed m t ≡ Ok u
        → carried_by_all (m ∷ []) t q ≡ carried_path m t q }
    ensures composed { (ms ns : List Change) (t : WideTree) (q : List ℕ) → Composes ms ns t q }
    ensures stops { (ms : List Change) (m : Change) (ns : List Change) (t : WideTree) (q : List ℕ)
        → PathStopsAt ms m ns t q }
    ensures same { (ms : List Change) (t : WideTree) (q : List ℕ) → CarriesThroughAll ms t q }
{}

/// Paths that lead keep the order of the document where a modification carries them, so no two of them are carried to
/// one path.
pub fn order_law()
    ensures { (m : Change) (t : WideTree) (q r : List ℕ) → KeepsOrder m t q r }
{}
