// The view.
ghost use Rattle.std.specs.Prelude.{◌≡◌, ℕ, ◌+◌, ◌≤◌, ◌<◌, ◌^◌, List, [], ◌∷◌, length, true, false, All, MatchOption};
ghost use Rattle.std.specs.Prelude.{IsTrue, IsOk, IfOk, IsSome, IfSome, ◌⊎◌};
ghost use Rattle.std.specs.Option.{option_map};
ghost use Rattle.std.specs.Prelude.{OnOk, OnErr, None, Some, option_and_then, option_copied, slice_get};
ghost use Rattle.tx_mod.specs.Followed.{changed_by_all};
ghost use Rattle.tx_mod.specs.InTurn.{cost_of};
ghost use Rattle.tx_doc.specs.Buffers.{tree_of, with_tree};
ghost use Rattle.tx_units.specs.Units.{units, made};
ghost use Rattle.tx_bridge.specs.Entries.{units_of};
ghost use Rattle.tx_view_form.specs.Outcomes.{beginning};
ghost use Rattle.tx_view_form.specs.Views.{AreShown, IsView, lines_of};
ghost use Rattle.tx_view_form.specs.Errors.{errors_of};
ghost use Rattle.tx_view_form.specs.Cells.{drawn_at, row_in};
ghost use Rattle.tx_view_form.specs.Positions.{position_in};
ghost use Rattle.tx_view_form.specs.Stops.{stops_of};
ghost use Rattle.tx_moves.specs.PageNumbers.{page_of};
ghost use Rattle.tx_moves.specs.RowStops.{stop_on};
ghost use Rattle.tx_moves.specs.Rows.{row_of};
ghost use Rattle.tx_view.specs.Near.{AreNear};
ghost use Rattle.tx_view.specs.Units.{unit_views};
ghost use Rattle.tx_unit_layout.specs.Views.{IsReadable};
ghost use Rattle.tx_part_layout.specs.LinesUnder.{line_under};
ghost use Rattle.tx_view.specs.Units.{AreAllApart, IsBelow};
ghost use Rattle.tx_view.specs.Laid.{AreLaid, view_stores_in};
ghost use Rattle.tx_view.specs.Lone.{IsLone, IsPaged, WerePages};
ghost use Rattle.tx_view.specs.InUnits.{IsBase, drawn_under};
ghost use Rattle.tx_view.specs.Marks.{spot_place};
ghost use Rattle.tx_view.specs.Names.{Empty, Fresh, Bound, Carry, Holds};
ghost use Rattle.tx_view.specs.Stores.{IsPartlyFresh};
ghost use Rattle.tx_view.specs.RowParts.{AreRowParts};
ghost use Rattle.tx_view.specs.Rows.{row_parts};

use crate::around::{apart_law, stops_near};
use crate::carrying::{blanks, carried, move_shown};
use crate::cells::drawn_at;
use crate::evaluating::forget_all_parts;
use crate::lone::{Lone, lone_of};
use crate::moves::{row_of, stop_on};
use crate::paging::{Pagination, all_paged, nothing_paged, page_of};
use crate::places::{base_of, place_in};
use crate::refreshing::lay_out;
use crate::searching::{error_count, error_in, row_count, row_in};
use crate::stops::stops_of;
use std::alloc::Global;
use std::marker::Model;
use std::mem;
use std::sync::ledger::Ledger;
use tx_base::{Memory, Steps};
use tx_bridge::{Bridges, unit_list_laws};
use tx_doc::{Buffer, share_buffers};
use tx_items::{Drawn, ErrorAt};
use tx_layout::{Line, within_page};
use tx_lines::Cut;
use tx_mod::Mod;
use tx_origin::{Base, Spot};
use tx_tree::{Path, Place, Tree};
use tx_unit_layout::{LaidParts, Shown};
use tx_units::{unit_count_law, units};

/// The view of buffers on pages of some width and height. It is fresh where it was made anew since the buffers changed
/// last. All readers return what the last refresh made, and take no memory; before one they show nothing.
///
/// Contracts see besides what it keeps from refresh to refresh (`specs/Stores.antt`), and the steps of the last
/// refresh.
#[derive(Drop)]
pub struct View {
    buffers: Vec<Buffer>,
    width: u32,
    height: u32,
    fresh: bool,
    // what is cached of the evaluations of all units
    bridges: Bridges,
    // what is shown of each unit, and nothing where it isn't fresh
    units: Vec<Shown>,
    // what was shown of each unit before the buffers changed, and nothing where it is fresh
    hidden: Vec<Shown>,
    // the lines of strays, the parts that are in no unit, by their paths in the document: of each, or of none
    strays: LaidParts,
    // the pages of what is shown
    paged: Pagination,
    // the one unit that has changed since the view was fresh, if it is known that all others are unchanged
    lone: Option<Lone>,
    // by how many steps the last refresh that ended raised the count
    work: u64,
}

impl Model for View {
    ghost use Rattle.tx_view.specs.WholeViews.{WholeView, whole_code, whole_of, IsKept};

    ghost Value = { WholeView };

    ghost coded = { whole_code };

    ghost view = { whole_of };

    ghost invariant = { IsKept };
}

// The pages of units: the former ones, where they are unchanged, and else those that are cut anew.
fn paged_again(
    alloc: Global,
    units: &[Shown],
    height: u32,
    stays: bool,
    lone: Option<Lone>,
) -> Result<Pagination, Memory>
    requires least_height { 5 ≤ height }
    requires most_height { height ≤ 500 }
    requires few { stays ≡ false → length (lines_of (unit_views units.now)) < 2 ^ 32 }
    requires few_errors { stays ≡ false → length (errors_of (unit_views units.now)) < 2 ^ 32 }
    requires below { All IsBelow units.now }
    requires some { stays ≡ true → IsSome lone }
    requires stays { stays ≡ true → IfSome lone (λ l. IsPaged height (unit_views units.now) l.paged) }
    ensures { IfOk result (λ p. IsPaged height (unit_views units.now) p) }
{
    if !stays {
        return all_paged(alloc, units, height);
    }
    let Some(lone) = lone else {
        unreachable!();
    };
    Ok(lone.paged)
}

// Lays out the units of the buffers, and returns their pages and by how much the steps rose. Where one alone has
// changed since all were laid out, the pages may be unchanged. When out of memory no part has lines.
fn made_anew<L: Ledger>(
    alloc: Global,
    buffers: &[Buffer],
    bridges: &mut Bridges,
    all: &mut [Shown],
    lone: Option<Lone>,
    size: (u32, u32),
    steps: &mut Steps<L>,
) -> Result<(Pagination, u64), Memory>
    requires few { length buffers.now ≤ 64 }
    requires least_width { 20 ≤ size.0 }
    requires most_width { size.0 ≤ 500 }
    requires least_height { 5 ≤ size.1 }
    requires most_height { size.1 ≤ 500 }
    requires of_buffers { units_of bridges.old.kept ≡ units buffers.now }
    requires laid { AreLaid size.0 bridges.old.kept bridges.old.parts all.old }
    requires readable { All IsReadable all.old }
    requires lone { IfSome lone (λ l. IsLone bridges.old.kept all.old l.unit l.attrs
        × WerePages size.1 (unit_views all.old) l) }
    ensures shown { OnOk result (AreShown size.0 beginning (units buffers.now) (unit_views all.new)) }
    ensures stores { OnOk result (view_stores_in bridges.new all.new ≡ Fresh buffers.now) }
    ensures refused { OnErr result
        (IsPartlyFresh (view_stores_in bridges.old all.old) (Fresh buffers.now) (view_stores_in bridges.new all.new)) }
    ensures paged { IfOk result (λ p. IsPaged size.1 (unit_views all.new) p.0) }
    ensures apart { OnOk result (AreAllApart (unit_views all.new)) }
    ensures work { IfOk result (λ p. p.1 ≡ Bound (view_stores_in bridges.old all.old)) }
    ensures counted { IfOk result (λ p. steps.new ≡ steps.old + p.1) }
    ensures of_buffers { units_of bridges.new.kept ≡ units buffers.now }
    ensures strays { OnOk result (bridges.new.strays ≡ []) }
    ensures strays_left { OnErr result
        ((bridges.new.strays ≡ bridges.old.strays) ⊎ (bridges.new.strays ≡ [])) }
    ensures laid { AreLaid size.0 bridges.new.kept bridges.new.parts all.new }
    ensures readable { All IsReadable all.new }
    ensures below { OnOk result (All IsBelow all.new) }
    ensures row_parts { OnOk result
        (AreRowParts size.0 beginning (units buffers.now) (unit_views all.new) (row_parts all.new)) }
{
    unit_count_law(buffers);
    let (width, height) = size;
    let (work, stays) = lay_out(alloc, bridges, &lone, all, width, steps)?;
    apart_law(buffers, width, all);
    match paged_again(alloc, all, height, stays, lone) {
        Ok(paged) => Ok((paged, work)),
        Err(memory) => {
            forget_all_parts(all);
            Err(memory)
        }
    }
}

impl View {
    /// A view of these buffers, which isn't fresh: it has no rows, no pages and no errors, and nothing is cached. It
    /// keeps the names and shares the trees. Buffer 0 is the document, and the others are loaded styles, 63 at most. A
    /// page has 20 to 500 columns and 5 to 500 rows. The steps rise by at most the nodes that are made for units. The
    /// one error is `Memory`.
    pub fn new<L: Ledger>(
        alloc: Global,
        buffers: &[Buffer],
        width: u32,
        height: u32,
        steps: &mut Steps<L>,
    ) -> Result<View, Memory>
        requires some { 1 ≤ length buffers.now }
        requires few { length buffers.now ≤ 64 }
        requires least_width { 20 ≤ width }
        requires most_width { width ≤ 500 }
        requires least_height { 5 ≤ height }
        requires most_height { height ≤ 500 }
        ensures view { IfOk result (λ v. v ≡ record {
          buffers = buffers.now;
          width = width;
          height = height;
          fresh = false;
          shown = record { units = []; pages = [] };
          row_parts = [];
          stores = Empty buffers.now;
          work = 0;
        }) }
        ensures counted { steps.new ≤ steps.old + made buffers.now }
    {
        unit_list_laws();
        let made = units(alloc, buffers, steps)?;
        let hidden = blanks(alloc, &made)?;
        Ok(View {
            buffers: share_buffers(alloc, buffers)?,
            width,
            height,
            fresh: false,
            bridges: Bridges::start(alloc, made)?,
            units: Vec::new(alloc),
            hidden,
            strays: LaidParts::none(alloc),
            paged: nothing_paged(alloc)?,
            lone: None,
            work: 0,
        })
    }

    /// From then on the view is one of its buffers with this tree in place of that of buffer `buffer`. These
    /// modifications make it of the former one, applied in order. The view isn't fresh and shows nothing. What is
    /// cached of a unit and of its parts is carried with it. A paragraph of the document is carried by the
    /// modifications from path to path. Another unit is the one of the same number, where kind and tree are the same. A
    /// paragraph whose subtree isn't carried by them, or is carried to a place that is no paragraph, loses its trace.
    /// Its parts are carried each by itself, and so are strays, which are the parts that have been in no paragraph
    /// since an edit. A part moves to the paragraph that holds it then, or it is a stray. Where its subtree isn't
    /// carried, what is cached of it is dropped. The lines of a part are carried, or dropped, by its path alone. The
    /// steps rise by at most the paths' lengths, three for each modification, and the nodes that are made for units.
    /// When out of memory nothing changes.
    pub fn edited<L: Ledger>(
        &mut self,
        alloc: Global,
        buffer: u32,
        mods: &[Mod],
        tree: &Tree,
        steps: &mut Steps<L>,
    ) -> Result<(), Memory>
        requires within { buffer < length self.old.buffers }
        requires changed { changed_by_all mods.now (tree_of self.old.buffers buffer) ≡ Some tree.now }
        ensures ok { OnOk result (self.new ≡ record self.old {
          buffers = with_tree self.old.buffers buffer tree.now;
          fresh = false;
          shown = record { units = []; pages = [] };
          row_parts = [];
          stores = Carry buffer mods.now self.old.buffers self.old.stores (with_tree self.old.buffers buffer tree.now);
        }) }
        ensures err { OnErr result (self.new ≡ self.old) }
        ensures counted { steps.new ≤ steps.old
            + (cost_of mods.now + made (with_tree self.old.buffers buffer tree.now)) }
    {
        let nothing = nothing_paged(alloc)?;
        let _was = self.bridges.outcome(0);
        let (after, target) = carried(
            alloc,
            &mut self.bridges,
            self.fresh,
            &self.units,
            &self.hidden,
            &mut self.strays,
            &self.buffers,
            buffer,
            mods,
            tree,
            steps,
        )?;
        let _kept = self.bridges.outcome(0);
        let former = move_shown(
            target,
            &self.bridges,
            self.fresh,
            &mut self.units,
            &mut self.hidden,
        );
        let paged = mem::replace(&mut self.paged, nothing);
        self.lone = lone_of(former, paged);
        self.units.clear();
        self.buffers = after;
        self.fresh = false;
        Ok(())
    }

    /// Makes the view anew, unless it is fresh, which takes no memory and no step then. What is cached of a unit is
    /// used again where what it looked up is as it was and its cost is allowed. Its lines are used again where its
    /// attributes are those of before. For the parts of a paragraph of the body that is evaluated or laid out anew
    /// these two rules hold as well. The steps rise by the charges of the other units, which for such a paragraph are
    /// the costs of the other parts, and by the items of those that are laid out anew. For a paragraph of the body that
    /// doesn't run out of steps these are the items of the parts that are evaluated anew, or aren't laid out for the
    /// attributes before them. Afterwards there are no strays.
    ///
    /// When out of memory it isn't fresh, and a later refresh is right. The units before some number, and their parts,
    /// have then the traces of the present buffers, and the others what they had. A unit that is laid out then has both
    /// the trace and the attributes that it had, or both of the present buffers. What is cached of strays is as before,
    /// or nothing is. No part has lines then.
    pub fn refresh<L: Ledger>(&mut self, alloc: Global, steps: &mut Steps<L>) -> Result<(), Memory>
        ensures fresh { OnOk result (self.new.fresh ≡ true) }
        ensures view { OnOk result (IsView self.new.buffers self.new.width self.new.height self.new.shown) }
        ensures row_parts { OnOk result
            (AreRowParts self.new.width beginning (units self.new.buffers) self.new.shown.units self.new.row_parts) }
        ensures stores { OnOk result (self.new.stores ≡ Fresh self.old.buffers) }
        ensures work { OnOk result (self.old.fresh ≡ false → self.new.work ≡ Bound self.old.stores) }
        ensures counted { OnOk result (self.old.fresh ≡ false → steps.new ≡ steps.old + Bound self.old.stores) }
        ensures buffers { self.new.buffers ≡ self.old.buffers }
        ensures width { self.new.width ≡ self.old.width }
        ensures height { self.new.height ≡ self.old.height }
        ensures kept { self.old.fresh ≡ true → self.new ≡ self.old }
        ensures ready { self.old.fresh ≡ true → IsOk result }
        ensures free { self.old.fresh ≡ true → steps.new ≡ steps.old }
        ensures refused { OnErr result (IsPartlyFresh self.old.stores (Fresh self.old.buffers) self.new.stores) }
        ensures stale { OnErr result (self.new.fresh ≡ false) }
        ensures shown { OnErr result (self.new.shown ≡ self.old.shown) }
        ensures same_rows { OnErr result (self.new.row_parts ≡ self.old.row_parts) }
        ensures same_work { OnErr result (self.new.work ≡ self.old.work) }
    {
        if self.fresh {
            return Ok(());
        }
        let size = (self.width, self.height);
        let lone = mem::replace(&mut self.lone, None);
        self.strays.forget();
        let (paged, work) = made_anew(
            alloc,
            &self.buffers,
            &mut self.bridges,
            &mut self.hidden,
            lone,
            size,
            steps,
        )?;
        mem::swap(&mut self.units, &mut self.hidden);
        self.paged = paged;
        self.work = work;
        self.fresh = true;
        Ok(())
    }

    /// Whether it is fresh. At every moment, also after a refresh that ran out of memory, what is cached is of the
    /// units of the present buffers, or of strays that are in the document. The cached trace of a unit, of a part or of
    /// a stray is that of its tree in each environment that agrees with what it looked up. Just the parts and strays
    /// that are cached have lines, or none has.
    pub fn fresh(&self) -> bool
        ensures fresh { result ≡ self.now.fresh }
        ensures view { IsTrue result → IsView self.now.buffers self.now.width self.now.height self.now.shown }
        ensures row_parts { IsTrue result →
            AreRowParts self.now.width beginning (units self.now.buffers) self.now.shown.units self.now.row_parts }
        ensures stores { IsTrue result → self.now.stores ≡ Fresh self.now.buffers }
        ensures holds { Holds self.now.buffers self.now.stores }
    {
        let _kept = self.bridges.outcome(0);
        self.fresh
    }

    /// By how many steps the last refresh that ended raised the count.
    pub fn work(&self) -> u64
        ensures { result ≡ self.now.work }
    {
        self.work
    }

    /// How many columns a page has.
    pub fn width(&self) -> u32
        ensures { result ≡ self.now.width }
    {
        self.width
    }

    /// How many rows there are on all pages.
    pub fn rows(&self) -> u32
        ensures { result ≡ length (lines_of self.now.shown.units) }
    {
        row_count(&self.paged.rows, &self.units)
    }

    /// The pages, by their rows.
    pub fn pages(&self) -> &[Cut]
        ensures { result.now ≡ self.now.shown.pages }
    {
        &self.paged.pages
    }

    /// The line in row r, or None past the last row. The places of its clusters are given from `base(r)`.
    pub fn line(&self, r: u32) -> Option<&Line>
        ensures { let found = slice_get (lines_of self.now.shown.units) r in
            MatchOption result (found ≡ None) (λ l. (part : List ℕ) × (slice_get self.now.row_parts r ≡ Some part)
            × (found ≡ Some (line_under part l.now))) }
    {
        let (unit, number) = row_in(&self.paged.rows, &self.units, r)?;
        let shown = &self.units[unit];
        let (stretch, own) = shown.line_in(number as u64);
        shown.stretch(stretch).lines.get(own)
    }

    /// The cluster that covers column c of row r, or None where nothing is drawn there. Its place is given from
    /// `base(r)`.
    pub fn cell(&self, r: u32, c: u32) -> Option<&Drawn>
        ensures { let found = option_and_then (λ line. drawn_at line c) (slice_get (lines_of self.now.shown.units) r) in
            MatchOption result (found ≡ None) (λ d. (part : List ℕ) × (slice_get self.now.row_parts r ≡ Some part)
            × (found ≡ Some (drawn_under part d.now))) }
    {
        drawn_at(self.line(r)?, c)
    }

    /// How many errors there are.
    pub fn errors(&self) -> u32
        ensures { result ≡ length (errors_of self.now.shown.units) }
    {
        error_count(&self.paged.errors, &self.units)
    }

    /// The error of this number, with the path of its unit, or without one, or None past the last.
    pub fn error(&self, k: u32) -> Option<(Option<&Path>, &ErrorAt)>
        ensures { let found = slice_get (errors_of self.now.shown.units) k in
            MatchOption result (found ≡ None) (λ e. found ≡ Some (option_copied e.0, e.1.now)) }
    {
        let (unit, number) = error_in(&self.paged.errors, &self.units, k)?;
        let shown = &self.units[unit];
        Some((shown.path.as_ref(), &shown.errors[number]))
    }

    /// The path from which places in row r are given, or None past the last row: that of the part that shows the row,
    /// or that of the unit where none does.
    pub fn base(&self, r: u32) -> Option<Base<'_>>
        ensures { MatchOption result (slice_get (lines_of self.now.shown.units) r ≡ None)
            (IsBase self.now.shown.units self.now.row_parts r) }
    {
        let (unit, number) = row_in(&self.paged.rows, &self.units, r)?;
        let shown = &self.units[unit];
        let path = shown.path.as_ref()?;
        let (stretch, _) = shown.line_in(number as u64);
        Some(base_of(path, shown.stretch(stretch).part))
    }

    /// The place of the document at column c of row r, or None past the last row or column.
    pub fn position(&self, r: u32, c: u32) -> Option<Spot<'_>>
        ensures { option_map spot_place result
            ≡ option_map spot_place (position_in self.now.shown.units self.now.width r c) }
    {
        if c >= self.width {
            return None;
        }
        let (unit, number) = row_in(&self.paged.rows, &self.units, r)?;
        let shown = &self.units[unit];
        let path = shown.path.as_ref()?;
        Some(place_in(path, shown, number, c))
    }

    /// The row and the column at which a place is drawn. They are those of the first cluster that begins there, else
    /// the column after the first that ends there, else the indent of the first row of the unit, where it has no
    /// cluster with a place on a row. The column is at most the width of a page. None where the place isn't drawn. Of
    /// units other than that of the place only the paths are looked at.
    pub fn row_of(&self, at: &Place) -> Option<(u32, u32)>
        ensures { result ≡ row_of self.now.shown.units at.now }
    {
        within_page();
        let _count = self.rows();
        row_of(&self.units, &self.paged.rows, at)
    }

    /// The place on row r to which a vertical move goes that keeps column `goal`: the start of the cluster that covers
    /// the column, else the end of the last cluster before it on the row, else the start of the first. Where that end is
    /// drawn on a later row, it is the start of that last cluster. None past the last row, and where no cluster of the
    /// row has a place. The one error is `Memory`.
    pub fn stop_on(&self, alloc: Global, r: u32, goal: u32) -> Result<Option<Place>, Memory>
        ensures { IfOk result (λ at. at ≡ stop_on self.now.shown.units r goal) }
    {
        within_page();
        let _count = self.rows();
        stop_on(alloc, &self.units, &self.paged.rows, r, goal)
    }

    /// The number of the page that row r is on, from 0, or None past the last row.
    pub fn page_of(&self, r: u32) -> Option<u32>
        ensures { result ≡ page_of self.now.shown.pages r }
    {
        let _count = self.rows();
        page_of(&self.paged.pages, r)
    }

    /// The places at which a cursor stops, of equal ones the first.
    pub fn stops(&self, alloc: Global) -> Result<Vec<Place>, Memory>
        ensures { IfOk result (λ ps. ps.items ≡ stops_of self.now.shown.units) }
    {
        stops_of(alloc, &self.units)
    }

    /// Some of the stops, in order, in which a place has the stops beside it that it has among all. For a place that is
    /// no stop they are the first ones, and none only where there are no stops. Of units other than that of the place,
    /// the nearest one before with a path and the nearest one after, only the paths are looked at. The one error is
    /// `Memory`.
    pub fn stops_near(&self, alloc: Global, at: &Place) -> Result<Vec<Place>, Memory>
        ensures { IfOk result (λ ps. AreNear (stops_of self.now.shown.units) ps.items at.now) }
    {
        stops_near(alloc, &self.units, at)
    }
}
