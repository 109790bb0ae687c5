// All units brought to what evaluating them from nothing gives.
ghost use Rattle.std.specs.Prelude.{◌≡◌, ℕ, ◌+◌, ◌≤◌, ◌++◌, take, drop, IfOk, OnOk, OnErr, Some, None};
ghost use Rattle.std.specs.Prelude.{[], false, true, MatchOption, slice_get, IfSome, option_copied};
ghost use Rattle.std.specs.List.{All};
ghost use Rattle.tx_view_form.specs.declared.TheConstants.{MOST_VIEW_STEPS};
ghost use Rattle.tx_view_form.specs.Outcomes.{beginning};
ghost use Rattle.tx_bridge.specs.Moments.{beginning_with};
ghost use Rattle.tx_bridge.specs.Entries.{units_of, fresh_from, behind_all};
ghost use Rattle.tx_parts.specs.Opening.{opens_nothing, shells_by};
ghost use Rattle.tx_bridge.specs.Reached.{reached_from, reached_by_from};
ghost use Rattle.tx_bridge.specs.PartsKept.{PartsStay, fresh_parts_by_from, part_flags_by_from};
ghost use Rattle.tx_bridge.specs.Spares.{spares_of};
ghost use Rattle.tx_bridge.specs.Charges.{charges_by, AllLayersKnown};
ghost use Rattle.tx_bridge.specs.Lent.{spares_in, HaveUnitsOf};
ghost use Rattle.tx_bridge.specs.Settled.{AreSettled};
ghost use Rattle.tx_bridge.specs.Sound.{IsSoundBridge, entries_of, stored_parts_in, part_flags_in};
ghost use Rattle.tx_bridge.specs.Sound.{flags_of, layers_in, sources_in};
ghost use Rattle.tx_bridge.specs.Names.{FreshTraces, FreshParts, PartFlags, Charge, End, EndFrom};
ghost use Rattle.tx_bridge.specs.Names.{FreshTracesFrom, FreshPartsFrom, PartFlagsFrom, ChargeFrom};
ghost use Rattle.tx_bridge.specs.Names.{FreshPartsBy, PartFlagsBy, ChargeBy, BoundBy, KnowsLayers};
ghost use Rattle.tx_bridge.specs.UnitLists.{AreUnits};

use crate::bridge::Bridge;
use crate::bridges::Bridges;
use crate::laws::bound_law;
use crate::moments::Moment;
use std::alloc::Global;
use std::mem;
use std::sync::ledger::Ledger;
use tx_base::{Memory, Steps};
use tx_env::Writes;
use tx_exec_form::trace_laws;
use tx_parts::{opened_cost_law, opened_fitting_law, opened_standing_law, opener_law};
use tx_walk::{Closed, Opener};

// What the spare has cached of the units, and nothing where there is no spare.
fn lent_bridges<'a>(spare: Option<&'a Bridges>) -> &'a [Bridge]
    ensures spares { spares_in result.now ≡ spares_of (option_copied spare.entry) }
    ensures kept { MatchOption (option_copied spare.entry) (result.now ≡ [])
        (λ others. entries_of result.now ≡ others.kept) }
    ensures sound { All IsSoundBridge result.now }
{
    match spare {
        None => &[],
        Some(others) => &others.bridges,
    }
}

// What the spare has cached of the unit of this number.
fn lent_at(lent: &[Bridge], i: usize) -> Option<&Bridge>
    ensures { option_copied result ≡ slice_get lent.now i }
{
    lent.get(i)
}

// Brings each unit to what evaluating from this moment on gives, and returns the charges. The moment is then the one
// after them all. When memory runs out it stops: the units before are up to date, and the others are as they were.
//
// Where all looks are known to agree with what the cached traces before them set, none are compared, up to a unit that
// is evaluated anew and sets names, or whose cached trace did.
//
// Where it isn't `shelled`, the opener opens nothing.
fn refresh_all<O: Opener, L: Ledger>(
    alloc: Global,
    bridges: &mut [Bridge],
    moment: &mut Moment,
    settled: bool,
    opener: &O,
    shelled: bool,
    spare: &[Bridge],
    steps: &mut Steps<L>,
) -> Result<u64, Memory>
    requires sound { All IsSoundBridge bridges.old }
    requires left { moment.old.left ≤ MOST_VIEW_STEPS }
    requires settled { settled ≡ true → AreSettled moment.old.env (entries_of bridges.old) }
    requires spare { All IsSoundBridge spare.now }
    requires same { HaveUnitsOf spare.now bridges.old }
    requires shut { shelled ≡ false → O.opens opener.now ≡ opens_nothing }
    ensures fresh { OnOk result (entries_of bridges.new ≡ fresh_from moment.old (units_of (entries_of bridges.old))) }
    ensures parts { OnOk result (stored_parts_in bridges.new
        ≡ fresh_parts_by_from (shells_by (O.opens opener.now)) moment.old (units_of (entries_of bridges.old))) }
    ensures parts_renewed { OnOk result (part_flags_in bridges.new
        ≡ part_flags_by_from (shells_by (O.opens opener.now)) moment.old (entries_of bridges.old) (stored_parts_in
        bridges.old)) }
    ensures reached { OnOk result (flags_of bridges.new
        ≡ reached_by_from (shells_by (O.opens opener.now)) moment.old (entries_of bridges.old) (stored_parts_in
        bridges.old)) }
    ensures charge { IfOk result (λ n. n ≡ charges_by (shells_by (O.opens opener.now)) moment.old (entries_of
        bridges.old)
        (stored_parts_in bridges.old) (layers_in bridges.old) (spares_in spare.now)) }
    ensures layers { OnOk result (AllLayersKnown (shells_by (O.opens opener.now)) moment.old
        (units_of (entries_of bridges.old)) (layers_in bridges.new)) }
    ensures behind { OnOk result (moment.new ≡ behind_all moment.old (units_of (entries_of bridges.old))) }
    ensures counted { IfOk result (λ n. steps.new ≡ steps.old + n) }
    ensures most { IfOk result (λ n. n ≤ MOST_VIEW_STEPS) }
    ensures sound { All IsSoundBridge bridges.new }
    ensures units { units_of (entries_of bridges.new) ≡ units_of (entries_of bridges.old) }
    ensures sources { sources_in bridges.new ≡ sources_in bridges.old }
    ensures stays { (i : ℕ) → slice_get (flags_of bridges.new) i ≡ Some false
        → slice_get (entries_of bridges.new) i ≡ slice_get (entries_of bridges.old) i }
    ensures parts_same { OnOk result ((i : ℕ) → slice_get (flags_of bridges.new) i ≡ Some false
        → slice_get (stored_parts_in bridges.new) i ≡ slice_get (stored_parts_in bridges.old) i) }
    ensures refused { OnErr result ((n : ℕ) × (entries_of bridges.new
        ≡ take n (fresh_from moment.old (units_of (entries_of bridges.old))) ++ drop n (entries_of bridges.old))
        × (stored_parts_in bridges.new ≡ take n (fresh_parts_by_from (shells_by (O.opens opener.now)) moment.old
        (units_of (entries_of bridges.old))) ++ drop n (stored_parts_in bridges.old))
        × (drop n (layers_in bridges.new) ≡ drop n (layers_in bridges.old))
        × AllLayersKnown (shells_by (O.opens opener.now)) moment.old
        (units_of (take n (entries_of bridges.old))) (take n (layers_in bridges.new))) }
{
    let mut still = settled;
    let mut charges = 0;
    for i in 0..bridges.len() {
        let other = lent_at(spare, i);
        let (charge, goes_on) = bridges[i].refresh(
            alloc, moment, still, opener, shelled, other, steps,
        )?;
        still = goes_on;
        charges += charge;
    }
    Ok(charges)
}

impl Bridges {
    /// Brings each unit to what evaluating all from nothing gives. What is cached of a unit is used again where its
    /// looks agree with what names have before it, and its cost is allowed. It returns the charges, and the steps rise
    /// by them. A paragraph of the body is charged its parts of which nothing that fits is cached. Another unit is
    /// charged its cost, where nothing that fits is cached of it. A paragraph is reached also where its parts aren't
    /// those that were cached, as after a refresh with an opener.
    ///
    /// What is cached of a part whose flag is down afterwards is what was cached at the part's path. The cached parts
    /// of a unit that wasn't reached are unchanged. Strays are dropped.
    ///
    /// When memory runs out, the units before some number are up to date, and the others are as they were, as strays
    /// are.
    pub fn refresh<L: Ledger>(&mut self, alloc: Global, steps: &mut Steps<L>) -> Result<u64, Memory>
        ensures fresh { OnOk result (self.new.kept ≡ FreshTraces self.old.kept) }
        ensures parts { OnOk result (self.new.parts ≡ FreshParts self.old.kept) }
        ensures parts_renewed { OnOk result (self.new.part_flags ≡ PartFlags self.old.kept self.old.parts) }
        ensures parts_stay { OnOk result (PartsStay self.old.parts self.new.parts self.new.part_flags) }
        ensures parts_same { OnOk result ((i : ℕ) → slice_get self.new.reached i ≡ Some false
            → slice_get self.new.parts i ≡ slice_get self.old.parts i) }
        ensures reached { OnOk result (self.new.reached ≡ reached_from beginning self.old.kept self.old.parts) }
        ensures charge { IfOk result (λ n. n ≡ Charge self.old.kept self.old.parts) }
        ensures counted { IfOk result (λ n. steps.new ≡ steps.old + n) }
        ensures most { IfOk result (λ n. n ≤ MOST_VIEW_STEPS) }
        ensures units { units_of self.new.kept ≡ units_of self.old.kept }
        ensures sources { self.new.sources ≡ self.old.sources }
        ensures stays { (i : ℕ) → slice_get self.new.reached i ≡ Some false
            → slice_get self.new.kept i ≡ slice_get self.old.kept i }
        ensures refused { OnErr result ((n : ℕ) × (self.new.kept
            ≡ take n (FreshTraces self.old.kept) ++ drop n self.old.kept)
            × (self.new.parts ≡ take n (FreshParts self.old.kept) ++ drop n self.old.parts)) }
        ensures strays { OnOk result (self.new.strays ≡ []) }
        ensures strays_stay { OnErr result (self.new.strays ≡ self.old.strays) }
        ensures end { OnOk result (self.new.end ≡ End self.old.kept) }
        ensures end_stays { OnErr result (self.new.end ≡ self.old.end) }
    {
        opened_cost_law();
        let none = Writes::new(Vec::new(alloc));
        self.refresh_from(alloc, &none, None, steps)
    }

    /// Brings each unit to what evaluating all of them gives where these names are set before the first one, in order.
    /// `refresh` is this with no names and no spare.
    ///
    /// The spare is a cache of the same units, of which nothing more is known. It is used where what is cached here
    /// doesn't fit, and costs nothing: of a paragraph of the body part by part, and of another unit the whole. Flags
    /// don't count it: they say whether what was cached here fits. The spare is unchanged.
    #[tactic(auto, unfolding(crate::specs::Names::EndFrom))]
    pub fn refresh_from<L: Ledger>(
        &mut self,
        alloc: Global,
        start: &Writes,
        spare: Option<&Bridges>,
        steps: &mut Steps<L>,
    ) -> Result<u64, Memory>
        requires same { IfSome (option_copied spare) (λ others. units_of others.kept ≡ units_of self.old.kept) }
        ensures fresh { OnOk result (self.new.kept ≡ FreshTracesFrom start.now self.old.kept) }
        ensures parts { OnOk result (self.new.parts ≡ FreshPartsFrom start.now self.old.kept) }
        ensures parts_renewed { OnOk result
            (self.new.part_flags ≡ PartFlagsFrom start.now self.old.kept self.old.parts) }
        ensures parts_stay { OnOk result (PartsStay self.old.parts self.new.parts self.new.part_flags) }
        ensures parts_same { OnOk result ((i : ℕ) → slice_get self.new.reached i ≡ Some false
            → slice_get self.new.parts i ≡ slice_get self.old.parts i) }
        ensures reached { OnOk result
            (self.new.reached ≡ reached_from (beginning_with start.now) self.old.kept self.old.parts) }
        ensures charge { IfOk result (λ n. n
            ≡ ChargeFrom start.now self.old.kept self.old.parts (spares_of (option_copied spare.entry))) }
        ensures counted { IfOk result (λ n. steps.new ≡ steps.old + n) }
        ensures most { IfOk result (λ n. n ≤ MOST_VIEW_STEPS) }
        ensures units { units_of self.new.kept ≡ units_of self.old.kept }
        ensures sources { self.new.sources ≡ self.old.sources }
        ensures stays { (i : ℕ) → slice_get self.new.reached i ≡ Some false
            → slice_get self.new.kept i ≡ slice_get self.old.kept i }
        ensures refused { OnErr result ((n : ℕ) × (self.new.kept
            ≡ take n (FreshTracesFrom start.now self.old.kept) ++ drop n self.old.kept)
            × (self.new.parts ≡ take n (FreshPartsFrom start.now self.old.kept) ++ drop n self.old.parts)) }
        ensures strays { OnOk result (self.new.strays ≡ []) }
        ensures strays_stay { OnErr result (self.new.strays ≡ self.old.strays) }
        ensures end { OnOk result (self.new.end ≡ EndFrom start.now self.old.kept) }
        ensures end_stays { OnErr result (self.new.end ≡ self.old.end) }
    {
        opener_law();
        opened_cost_law();
        self.refresh_by(alloc, start, spare, &Closed, false, steps)
    }

    /// Does what `refresh_from` does, where tags have the shells that the opener gives them. These tags are opened: the
    /// trees inside them are parts. The traces of the trees of their layers are cached as well.
    ///
    /// A paragraph of the body is charged its parts and the trees of its layers that neither the cache nor the spare
    /// holds. It is also charged one for each node of what the layers' names are set to by these trees, whatever is
    /// cached of the whole. So another refresh with this opener, at which names have the same values, is charged
    /// nothing for layers. A paragraph is reached also where its parts aren't those that were cached, as after a
    /// refresh with another opener.
    ///
    /// Where memory runs out, nothing is left to evaluate of the layers of the units that were refreshed.
    pub fn refresh_with<O: Opener, L: Ledger>(
        &mut self,
        alloc: Global,
        start: &Writes,
        spare: Option<&Bridges>,
        opener: &O,
        steps: &mut Steps<L>,
    ) -> Result<u64, Memory>
        requires same { IfSome (option_copied spare) (λ others. units_of others.kept ≡ units_of self.old.kept) }
        ensures fresh { OnOk result (self.new.kept ≡ FreshTracesFrom start.now self.old.kept) }
        ensures parts { OnOk result
            (self.new.parts ≡ FreshPartsBy start.now (shells_by (O.opens opener.now)) self.old.kept) }
        ensures parts_renewed { OnOk result (self.new.part_flags
            ≡ PartFlagsBy start.now (shells_by (O.opens opener.now)) self.old.kept self.old.parts) }
        ensures parts_stay { OnOk result (PartsStay self.old.parts self.new.parts self.new.part_flags) }
        ensures parts_same { OnOk result ((i : ℕ) → slice_get self.new.reached i ≡ Some false
            → slice_get self.new.parts i ≡ slice_get self.old.parts i) }
        ensures reached { OnOk result (self.new.reached ≡ reached_by_from (shells_by (O.opens opener.now))
            (beginning_with start.now) self.old.kept self.old.parts) }
        ensures charge { IfOk result (λ n. n ≡ ChargeBy start.now (shells_by (O.opens opener.now)) self.old.kept
            self.old.parts self.old.layers (spares_of (option_copied spare.entry))) }
        ensures bounded { IfOk result (λ n. n ≤ BoundBy start.now (shells_by (O.opens opener.now)) self.old.kept
            self.old.parts self.old.layers (spares_of (option_copied spare.entry))) }
        ensures layers { OnOk result
            (KnowsLayers start.now (shells_by (O.opens opener.now)) self.old.kept self.new.layers) }
        ensures counted { IfOk result (λ n. steps.new ≡ steps.old + n) }
        ensures most { IfOk result (λ n. n ≤ MOST_VIEW_STEPS) }
        ensures units { units_of self.new.kept ≡ units_of self.old.kept }
        ensures sources { self.new.sources ≡ self.old.sources }
        ensures stays { (i : ℕ) → slice_get self.new.reached i ≡ Some false
            → slice_get self.new.kept i ≡ slice_get self.old.kept i }
        ensures refused { OnErr result ((n : ℕ) × (self.new.kept
            ≡ take n (FreshTracesFrom start.now self.old.kept) ++ drop n self.old.kept)
            × (self.new.parts ≡ take n (FreshPartsBy start.now (shells_by (O.opens opener.now)) self.old.kept)
            ++ drop n self.old.parts)
            × (drop n self.new.layers ≡ drop n self.old.layers)
            × KnowsLayers start.now (shells_by (O.opens opener.now)) (take n self.old.kept)
            (take n self.new.layers)) }
        ensures strays { OnOk result (self.new.strays ≡ []) }
        ensures strays_stay { OnErr result (self.new.strays ≡ self.old.strays) }
        ensures end { OnOk result (self.new.end ≡ EndFrom start.now self.old.kept) }
        ensures end_stays { OnErr result (self.new.end ≡ self.old.end) }
    {
        opener_law();
        bound_law();
        self.refresh_by(alloc, start, spare, opener, true, steps)
    }

    // Does what `refresh_with` does. Where it isn't `shelled`, the opener opens nothing.
    #[tactic(auto, unfolding(crate::specs::Names::FreshTracesFrom, crate::specs::Names::FreshPartsBy))]
    fn refresh_by<O: Opener, L: Ledger>(
        &mut self,
        alloc: Global,
        start: &Writes,
        spare: Option<&Bridges>,
        opener: &O,
        shelled: bool,
        steps: &mut Steps<L>,
    ) -> Result<u64, Memory>
        requires same { IfSome (option_copied spare) (λ others. units_of others.kept ≡ units_of self.old.kept) }
        requires shut { shelled ≡ false → O.opens opener.now ≡ opens_nothing }
        ensures fresh { OnOk result (self.new.kept ≡ FreshTracesFrom start.now self.old.kept) }
        ensures parts { OnOk result
            (self.new.parts ≡ FreshPartsBy start.now (shells_by (O.opens opener.now)) self.old.kept) }
        ensures parts_renewed { OnOk result (self.new.part_flags
            ≡ PartFlagsBy start.now (shells_by (O.opens opener.now)) self.old.kept self.old.parts) }
        ensures parts_stay { OnOk result (PartsStay self.old.parts self.new.parts self.new.part_flags) }
        ensures parts_same { OnOk result ((i : ℕ) → slice_get self.new.reached i ≡ Some false
            → slice_get self.new.parts i ≡ slice_get self.old.parts i) }
        ensures reached { OnOk result (self.new.reached ≡ reached_by_from (shells_by (O.opens opener.now))
            (beginning_with start.now) self.old.kept self.old.parts) }
        ensures charge { IfOk result (λ n. n ≡ ChargeBy start.now (shells_by (O.opens opener.now)) self.old.kept
            self.old.parts self.old.layers (spares_of (option_copied spare.entry))) }
        ensures layers { OnOk result
            (KnowsLayers start.now (shells_by (O.opens opener.now)) self.old.kept self.new.layers) }
        ensures counted { IfOk result (λ n. steps.new ≡ steps.old + n) }
        ensures most { IfOk result (λ n. n ≤ MOST_VIEW_STEPS) }
        ensures are_units { OnOk result (AreUnits (units_of self.old.kept)) }
        ensures units { units_of self.new.kept ≡ units_of self.old.kept }
        ensures sources { self.new.sources ≡ self.old.sources }
        ensures stays { (i : ℕ) → slice_get self.new.reached i ≡ Some false
            → slice_get self.new.kept i ≡ slice_get self.old.kept i }
        ensures refused { OnErr result ((n : ℕ) × (self.new.kept
            ≡ take n (FreshTracesFrom start.now self.old.kept) ++ drop n self.old.kept)
            × (self.new.parts ≡ take n (FreshPartsBy start.now (shells_by (O.opens opener.now)) self.old.kept)
            ++ drop n self.old.parts)
            × (drop n self.new.layers ≡ drop n self.old.layers)
            × KnowsLayers start.now (shells_by (O.opens opener.now)) (take n self.old.kept)
            (take n self.new.layers)) }
        ensures strays { OnOk result (self.new.strays ≡ []) }
        ensures strays_stay { OnErr result (self.new.strays ≡ self.old.strays) }
        ensures end { OnOk result
            (self.new.end ≡ (behind_all (beginning_with start.now) (units_of self.old.kept)).env) }
        ensures end_stays { OnErr result (self.new.end ≡ self.old.end) }
    {
        trace_laws();
        opener_law();
        opened_standing_law();
        opened_fitting_law();
        let lent = lent_bridges(spare);
        let bare = start.pairs().is_empty();
        let mut moment = Moment::beginning_with(alloc, start)?;
        let settled = mem::replace(&mut self.settled, false) && bare;
        let charges = refresh_all(
            alloc,
            &mut self.bridges,
            &mut moment,
            settled,
            opener,
            shelled,
            lent,
            steps,
        )?;
        self.settled = bare;
        self.strays.clear();
        self.end = moment.into_env();
        Ok(charges)
    }
}
