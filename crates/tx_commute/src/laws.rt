// Laws of modifications that are taken past each other.
ghost use Rattle.tx_commute.specs.Pasts.{CarriedFrom, CarriedBack, BothOrdersAgree};
ghost use Rattle.tx_commute.specs.Leaving.{LeaveLaw};

/// Where a modification is taken past another, both orders make the same tree, limits aside.
pub fn past_law()
    ensures { BothOrdersAgree }
{}

/// The one path of a tree that is carried to a path of the changed tree is where that is carried through the inverse,
/// limits aside.
pub fn carried_back_law()
    ensures back { CarriedBack }
    ensures from { CarriedFrom }
{}

/// Where an edit is left out, the modifications that come of it, applied to the present tree, make the tree that the
/// later edits, without it, make of the tree before it.
pub fn leave_law()
    ensures { LeaveLaw }
{}
