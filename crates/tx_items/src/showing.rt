// What is shown so far, and how a value is added to it.
ghost use Rattle.std.specs.Prelude.{◌≡◌, ◌≢◌, ◌%◌, ◌++◌, ◌∷◌, [], ℕ, length, map, IfOk, OnOk, MatchOption, None, Some};
ghost use Rattle.std.specs.Prelude.{true, false, codes, option_and_then};
ghost use Rattle.std.specs.Option.{option_copied};
ghost use Rattle.tx_prim.specs.Lengths.{length_of};
ghost use Rattle.tx_tree.specs.WideTree.{is_leaf};
ghost use Rattle.tx_origin.specs.Values.{vals, value_parts, value_text, value_label};
ghost use Rattle.tx_items.specs.Words.{word_bytes};
ghost use Rattle.tx_items.specs.Attributes.{attribute_in, with_named, given_back};
ghost use Rattle.tx_items.specs.Fields.{attribute_of};
ghost use Rattle.tx_items.specs.Drawing.{drawn};
ghost use Rattle.tx_items.specs.Rows.{rule_in};
ghost use Rattle.tx_items.specs.Rules.{rule_of};
ghost use Rattle.tx_items.specs.Shows.{in_line, error_items, failed, bad, made_error, with_shown, assign_shown};
ghost use Rattle.tx_items.specs.Shows.{cells_of_length, space_shown, error_shown, tag_shown, show, show_all, show_with};
ghost use Rattle.tx_items.specs.Shows.{inline, run_of, empty};
ghost use Rattle.tx_items.specs.Plans.{plan_of, plans_of, last_plan, joint_plan, list_plan, table_plan};
ghost use Rattle.tx_items.specs.Running.{state_of, attrs_of_first, HasShown, HasRun, HasPars, EndsRun, EndsParagraph};
ghost use Rattle.tx_items.specs.Shows.{one_of};
ghost use Rattle.tx_items.specs.Running.{HasAttrs, bar_of, set_by_pairs, given_back_by_pairs, Finishes};
ghost use Rattle.tx_items.specs.Running.{FinishesPart};
ghost use Rattle.tx_items.specs.Running.{tag_front, space_item, length_alone, HasCells, HasRows, all_cells};
ghost use Rattle.tx_items.specs.Running.{AddsParagraphs, table_shown};
ghost use Rattle.tx_items.specs.Flat.{is_flat, all_flat, shows_table};
ghost use Rattle.tx_items.specs.Tables.{table_paragraphs};

use crate::attributes::{Attrs, Field, field_of};
use crate::drawing::{ErrorAt, Item, Look, Paragraph, push_text};
use crate::plans::Plan;
use crate::rows::{Row, row_of};
use crate::tables::{CellItems, RowCells, TableRow, widths_of};
use crate::words::Word;
use std::alloc::Global;
use std::mem;
use tx_base::Memory;
use tx_origin::{Ip, Value};
use tx_prim::{known_text, parse_length};
use tx_table::{CellRow, SideRow, grid_of, plan_of};
use tx_tree::{Label, Text};

// The greatest number of cells or lines of a space.
const MOST_SPACE: i64 = 500;

// What is shown so far.
#[derive(Drop)]
pub(crate) struct Showing {
    // at this place
    pub(crate) attrs: Attrs,
    // at the first item of the run
    pub(crate) first: Attrs,
    // the items that may become a paragraph
    pub(crate) run: Vec<Item>,
    pub(crate) paragraphs: Vec<Paragraph>,
    pub(crate) errors: Vec<ErrorAt>,
}

// A space of so many cells or lines.
#[derive(Clone, Copy)]
enum Space {
    Across,
    Down,
}

impl Showing {
    // Nothing is shown yet.
    pub(crate) fn new(alloc: Global, attrs: &Attrs) -> Result<Showing, Memory>
        ensures { IfOk result (λ s. state_of s
            ≡ record { attrs = attrs.now; run = empty; paragraphs = []; errors = [] }) }
    {
        Ok(Showing {
            attrs: attrs.copy()?,
            first: attrs.copy()?,
            run: Vec::new(alloc),
            paragraphs: Vec::with_capacity(alloc, 1)?,
            errors: Vec::new(alloc),
        })
    }

    // Keeps the attributes of the run's first item, where there is none yet.
    fn begin(&mut self) -> Result<(), Memory>
        ensures { OnOk result ((self.new.attrs ≡ self.old.attrs) × (self.new.run ≡ self.old.run)
            × (self.new.paragraphs ≡ self.old.paragraphs) × (self.new.errors ≡ self.old.errors)
            × (self.new.first ≡ attrs_of_first self.old.run.items self.old.first self.old.attrs)) }
    {
        if self.run.is_empty() {
            self.first = self.attrs.copy()?;
        }
        Ok(())
    }

    // Adds a text's clusters.
    #[tactic(auto, using(crate::proofs::Texts::grows, std::proofs::lemmas::Grind::common_steps))]
    fn add_text(&mut self, alloc: Global, text: &Text, at: Option<&Ip>) -> Result<(), Memory>
        ensures { OnOk result (HasShown (in_line self.old.attrs
            (drawn self.old.attrs (option_copied at.entry) text.now)) (state_of self.old) (state_of self.new)) }
    {
        self.begin()?;
        let look = Look::new(alloc, at, &self.attrs)?;
        push_text(alloc, &mut self.run, text, &look)
    }

    // Adds a text that has no place.
    fn add_made(&mut self, alloc: Global, text: &Text) -> Result<(), Memory>
        ensures { OnOk result (HasShown (in_line self.old.attrs (drawn self.old.attrs None text.now))
            (state_of self.old) (state_of self.new)) }
    {
        self.add_text(alloc, text, None)
    }

    // Adds a text of the rules.
    fn add_word(&mut self, alloc: Global, word: Word) -> Result<(), Memory>
        ensures { OnOk result (HasShown (in_line self.old.attrs (drawn self.old.attrs None (word_bytes word)))
            (state_of self.old) (state_of self.new)) }
    {
        let text = word.text(alloc)?;
        self.add_text(alloc, &text, None)
    }

    // Adds an item that is no cluster.
    #[tactic(auto, using(crate::proofs::Texts::grows, std::proofs::lemmas::Grind::common_steps))]
    fn add_item(&mut self, item: Item) -> Result<(), Memory>
        ensures { OnOk result (HasShown (in_line self.old.attrs (item ∷ [])) (state_of self.old) (state_of self.new)) }
    {
        self.begin()?;
        self.run.push(item)?;
        Ok(())
    }

    // The run, where it has an item, is a paragraph.
    fn end_run(&mut self, alloc: Global) -> Result<(), Memory>
        ensures { OnOk result (EndsRun (state_of self.old) (state_of self.new)) }
    {
        if self.run.is_empty() {
            return Ok(());
        }
        let items = mem::replace(&mut self.run, Vec::new(alloc));
        self.paragraphs
            .push(Paragraph::new(alloc, items, &self.first)?)?;
        Ok(())
    }

    // The run, also without an item, is a paragraph.
    fn end_paragraph(&mut self, alloc: Global) -> Result<(), Memory>
        ensures { OnOk result (EndsParagraph (state_of self.old) (state_of self.new)) }
    {
        if !self.run.is_empty() {
            return self.end_run(alloc);
        }
        self.paragraphs
            .push(Paragraph::new(alloc, Vec::new(alloc), &self.attrs)?)?;
        Ok(())
    }

    // Adds what an error shows.
    fn add_error_text(&mut self, alloc: Global, kind: &Text, detail: &Text) -> Result<(), Memory>
        ensures { OnOk result (HasShown (in_line self.old.attrs (error_items self.old.attrs kind.now detail.now))
            (state_of self.old) (state_of self.new)) }
    {
        self.add_word(alloc, Word::ErrorFront)?;
        self.add_made(alloc, kind)?;
        if detail.bytes().is_empty() {
            return self.add_word(alloc, Word::End);
        }
        self.add_word(alloc, Word::Blank)?;
        self.add_made(alloc, detail)?;
        self.add_word(alloc, Word::End)
    }

    // Adds an error.
    fn add_error(&mut self, alloc: Global, kind: Text, detail: Text) -> Result<(), Memory>
        ensures { OnOk result (HasShown (failed self.old.attrs kind detail) (state_of self.old) (state_of self.new)) }
    {
        self.errors.push(ErrorAt {
            kind: kind.copy()?,
            detail: detail.copy()?,
        })?;
        self.add_error_text(alloc, &kind, &detail)
    }

    // Adds the error of a label whose parts aren't as its rule wants.
    fn bad(&mut self, alloc: Global, label: &Label) -> Result<(), Memory>
        ensures { OnOk result (HasShown (bad self.old.attrs label.now) (state_of self.old) (state_of self.new)) }
    {
        let kind = Word::Bad.text(alloc)?;
        let detail = label_text(alloc, label)?;
        self.add_error(alloc, kind, detail)
    }

    // Sets the attribute that a name names.
    #[tactic(auto, using(crate::proofs::ByRule::copied_text, std::proofs::lemmas::Grind::common_steps))]
    fn set(&mut self, alloc: Global, name: &Value, to: &Value) -> Result<(), Memory>
        ensures { OnOk result (HasAttrs
            (with_named (attribute_in (value_text name.now)) (value_text to.now) self.old.attrs)
            (state_of self.old) (state_of self.new)) }
    {
        match name.text() {
            Some(name) => self.attrs.set(alloc, name, to.text()),
            None => Ok(()),
        }
    }

    // Sets what pairs of a name and a value set.
    #[tactic(auto, using(crate::proofs::Pairs::setting, std::proofs::lemmas::Grind::common_steps))]
    fn set_pairs(&mut self, alloc: Global, parts: &[Value]) -> Result<(), Memory>
        ensures { OnOk result (HasAttrs (set_by_pairs self.old.attrs (vals parts.now))
            (state_of self.old) (state_of self.new)) }
    {
        let mut at = 0;
        while parts.len() - at > 1 {
            self.set(alloc, &parts[at], &parts[at + 1])?;
            at += 2;
        }
        Ok(())
    }

    // Gives the attribute that a name names what it was before.
    fn give_back(&mut self, name: &Value, before: &Attrs) -> Result<(), Memory>
        ensures { OnOk result (HasAttrs (given_back (attribute_in (value_text name.now)) before.now self.old.attrs)
            (state_of self.old) (state_of self.new)) }
    {
        match field_in(name) {
            Some(field) => self.attrs.give_back(field, before),
            None => Ok(()),
        }
    }

    // Gives the attributes that pairs name what they were before.
    #[tactic(auto, using(crate::proofs::Pairs::giving, std::proofs::lemmas::Grind::common_steps))]
    fn give_back_pairs(&mut self, parts: &[Value], before: &Attrs) -> Result<(), Memory>
        requires { length parts.now % 2 ≢ 0 }
        ensures { OnOk result (HasAttrs (given_back_by_pairs (vals parts.now) before.now self.old.attrs)
            (state_of self.old) (state_of self.new)) }
    {
        let mut at = parts.len() - 1;
        while at > 0 {
            at -= 2;
            self.give_back(&parts[at], before)?;
        }
        Ok(())
    }

    // Adds what `assign` shows: nothing, or an error.
    #[tactic(auto, using(crate::proofs::ByRule::two_parts, std::proofs::lemmas::Grind::common_steps))]
    fn assign(&mut self, alloc: Global, label: &Label, value: &Value) -> Result<(), Memory>
        ensures { OnOk result (HasShown (assign_shown self.old.attrs label.now (vals (value_parts value.now)))
            (state_of self.old) (state_of self.new)) }
    {
        let parts = value.parts();
        if parts.len() != 2 {
            return self.bad(alloc, label);
        }
        self.set(alloc, &parts[0], &parts[1])
    }

    // Adds what `error` shows.
    #[tactic(auto, using(crate::proofs::ByRule::two_parts, std::proofs::lemmas::Grind::common_steps))]
    fn error(&mut self, alloc: Global, label: &Label, value: &Value) -> Result<(), Memory>
        ensures { OnOk result (HasShown (error_shown self.old.attrs label.now (vals (value_parts value.now)))
            (state_of self.old) (state_of self.new)) }
    {
        let parts = value.parts();
        if parts.len() != 2 {
            return self.bad(alloc, label);
        }
        match (parts[0].text(), parts[1].text()) {
            (Some(kind), Some(detail)) => self.add_error(alloc, kind.copy()?, detail.copy()?),
            _ => self.bad(alloc, label),
        }
    }

    // Adds a space of as many cells or lines as a length has whole thousands, or an error.
    fn space(
        &mut self,
        alloc: Global,
        space: Space,
        label: &Label,
        value: &Value,
    ) -> Result<(), Memory>
        ensures { OnOk result (HasShown
            (space_shown (space_item space) self.old.attrs label.now (vals (value_parts value.now)))
            (state_of self.old) (state_of self.new)) }
    {
        match length_alone(value) {
            Some(length) => self.add_item(space_item(space, cells_of_length(length))),
            None => self.bad(alloc, label),
        }
    }

    // Adds a bar, or none.
    fn add_bar(&mut self, alloc: Global, barred: bool) -> Result<(), Memory>
        ensures { OnOk result (HasRun (bar_of barred self.old.attrs) (state_of self.old) (state_of self.new)) }
    {
        if barred {
            return self.add_word(alloc, Word::Bar);
        }
        Ok(())
    }

    // Begins a tag that nothing says how to show: its error, and `<` and the label.
    fn begin_tag(&mut self, alloc: Global, label: &Label) -> Result<(), Memory>
        ensures { OnOk result (HasShown (record {
          form = inline (run_of self.old.attrs (tag_front self.old.attrs label.now));
          after = self.old.attrs;
          errors = made_error (codes "undefined-tag") label.now ∷ [];
        }) (state_of self.old) (state_of self.new)) }
    {
        let kind = Word::UndefinedTag.text(alloc)?;
        let detail = label_text(alloc, label)?;
        let name = detail.copy()?;
        self.errors.push(ErrorAt { kind, detail })?;
        self.add_tag_front(alloc, &name)
    }

    // Adds `<` and the label.
    fn add_tag_front(&mut self, alloc: Global, label: &Text) -> Result<(), Memory>
        ensures { OnOk result (HasShown (in_line self.old.attrs (tag_front self.old.attrs label.now))
            (state_of self.old) (state_of self.new)) }
    {
        self.add_word(alloc, Word::TagFront)?;
        self.add_made(alloc, label)
    }

    // Adds a value, which has this plan.
    #[tactic(auto, using(crate::proofs::Planning::choosing, std::proofs::lemmas::Grind::common_steps))]
    #[cycle(show)]
    pub(crate) fn show(&mut self, alloc: Global, value: &Value, plan: &Plan) -> Result<(), Memory>
        requires { plan.now ≡ plan_of value.now }
        ensures { OnOk result (HasShown (show self.old.attrs value.now) (state_of self.old) (state_of self.new)) }
    {
        if let Some(text) = value.text() {
            return self.add_text(alloc, text, value.origin());
        }
        let Some(label) = value.label() else {
            unreachable!()
        };
        match row_of(label.bytes()) {
            Row::Concat => self.each(alloc, value, plan, false),
            Row::Document => self.document(alloc, value, plan),
            Row::With => self.with(alloc, label, value, plan),
            Row::Assign => self.assign(alloc, label, value),
            Row::Silent => Ok(()),
            Row::NextLine => self.add_item(Item::Break),
            Row::NewPage => self.add_item(Item::PageEnd),
            Row::Hspace => self.space(alloc, Space::Across, label, value),
            Row::Vspace => self.space(alloc, Space::Down, label, value),
            Row::Error => self.error(alloc, label, value),
            Row::Tabular => self.tabular(alloc, label, value, plan),
            Row::Other => self.tag(alloc, label, value, plan),
        }
    }

    // Adds the last part, with the attributes that the pairs before it set.
    #[tactic(auto, using(crate::proofs::Planning::making, std::proofs::lemmas::Grind::common_steps))]
    #[cycle(show)]
    fn with(
        &mut self,
        alloc: Global,
        label: &Label,
        value: &Value,
        plan: &Plan,
    ) -> Result<(), Memory>
        requires { plan.now ≡ last_plan (vals (value_parts value.now)) }
        ensures { OnOk result (HasShown (with_shown self.old.attrs label.now
            (show_with self.old.attrs self.old.attrs (vals (value_parts value.now))))
            (state_of self.old) (state_of self.new)) }
    {
        let parts = value.parts();
        if parts.len() % 2 == 0 {
            return self.bad(alloc, label);
        }
        let before = self.attrs.copy()?;
        self.set_pairs(alloc, parts)?;
        self.show(alloc, &parts[parts.len() - 1], plan)?;
        self.give_back_pairs(parts, &before)
    }

    // Adds a part: a list ends the run before it and its own.
    #[cycle(show)]
    fn part(&mut self, alloc: Global, part: &Value, plan: &Plan) -> Result<(), Memory>
        requires { plan.now ≡ plan_of part.now }
        ensures { OnOk result (HasRun (one_of (show self.old.attrs part.now)) (state_of self.old) (state_of self.new)) }
    {
        if !plan.is_list() {
            return self.show(alloc, part, plan);
        }
        self.end_run(alloc)?;
        self.show(alloc, part, plan)?;
        self.end_run(alloc)
    }

    // Adds the parts side by side, each after a bar or not.
    #[tactic(auto, using(crate::proofs::Planning::joint, std::proofs::lemmas::Grind::common_steps))]
    #[cycle(show)]
    fn each(
        &mut self,
        alloc: Global,
        value: &Value,
        plan: &Plan,
        barred: bool,
    ) -> Result<(), Memory>
        requires { plan.now ≡ joint_plan (plans_of (vals (value_parts value.now))) }
        ensures { OnOk result (HasRun (show_all barred self.old.attrs (vals (value_parts value.now)))
            (state_of self.old) (state_of self.new)) }
    {
        let parts = value.parts();
        for (i, part) in parts.iter().enumerate() {
            self.add_bar(alloc, barred)?;
            self.part(alloc, part, plan.part(i))?;
        }
        Ok(())
    }

    // Adds a tag that nothing says how to show.
    #[cycle(show)]
    fn tag(
        &mut self,
        alloc: Global,
        label: &Label,
        value: &Value,
        plan: &Plan,
    ) -> Result<(), Memory>
        requires { plan.now ≡ joint_plan (plans_of (vals (value_parts value.now))) }
        ensures { OnOk result (HasShown (tag_shown self.old.attrs label.now
            (show_all true self.old.attrs (vals (value_parts value.now)))) (state_of self.old) (state_of self.new)) }
    {
        self.begin_tag(alloc, label)?;
        self.each(alloc, value, plan, true)?;
        self.add_word(alloc, Word::End)
    }

    // Adds a part of a document.
    #[cycle(show)]
    fn paragraph(&mut self, alloc: Global, part: &Value, plan: &Plan) -> Result<(), Memory>
        requires { plan.now ≡ plan_of part.now }
        ensures { OnOk result (HasPars (one_of (show self.old.attrs part.now))
            (state_of self.old) (state_of self.new)) }
    {
        self.show(alloc, part, plan)?;
        if plan.is_list() {
            return self.end_run(alloc);
        }
        self.end_paragraph(alloc)
    }

    // Adds the parts, each as paragraphs.
    #[tactic(auto, using(crate::proofs::Planning::listing, std::proofs::lemmas::Grind::common_steps))]
    #[cycle(show)]
    fn document(&mut self, alloc: Global, value: &Value, plan: &Plan) -> Result<(), Memory>
        requires { plan.now ≡ list_plan (plans_of (vals (value_parts value.now))) }
        ensures { OnOk result (HasPars (show_all false self.old.attrs (vals (value_parts value.now)))
            (state_of self.old) (state_of self.new)) }
    {
        let parts = value.parts();
        for (i, part) in parts.iter().enumerate() {
            self.paragraph(alloc, part, plan.part(i))?;
        }
        Ok(())
    }

    // Shows a value as a cell, and takes its items out of the run.
    #[tactic(auto, using(crate::proofs::Planning::choosing, std::proofs::lemmas::Grind::common_steps))]
    #[cycle(show)]
    fn cell(&mut self, alloc: Global, value: &Value) -> Result<CellItems, Memory>
        requires { is_flat value.now ≡ true }
        ensures { IfOk result (λ cell. HasCells (one_of (show self.old.attrs value.now))
            (state_of self.old) (state_of self.new) (cell ∷ [])) }
    {
        self.show(alloc, value, &Plan::line())?;
        Ok(CellItems::new(mem::replace(&mut self.run, Vec::new(alloc))))
    }

    // Shows the cells of a row.
    #[tactic(auto, using(crate::proofs::FlatLoops::cells, std::proofs::lemmas::Grind::common_steps))]
    #[cycle(show)]
    fn row(&mut self, alloc: Global, cells: &[Value]) -> Result<RowCells, Memory>
        requires { all_flat (vals cells.now) ≡ true }
        ensures { IfOk result (λ row. HasCells (show_all false self.old.attrs (vals cells.now))
            (state_of self.old) (state_of self.new) row) }
    {
        let mut row = Vec::with_capacity(alloc, cells.len())?;
        for cell in cells {
            let items = self.cell(alloc, cell)?;
            row.push(items)?;
        }
        Ok(RowCells::new(row))
    }

    // Shows the cells of rows.
    #[tactic(auto, using(crate::proofs::FlatLoops::cells, std::proofs::lemmas::Grind::common_steps))]
    #[cycle(show)]
    fn rows(&mut self, alloc: Global, rows: &[CellRow]) -> Result<Vec<TableRow>, Memory>
        requires { all_flat (vals (all_cells rows.now)) ≡ true }
        ensures { IfOk result (λ shown. HasRows rows.now (state_of self.old) (state_of self.new) shown.items) }
    {
        let mut shown = Vec::with_capacity(alloc, rows.len())?;
        for row in rows {
            let first = self.attrs.copy()?;
            let cells = self.row(alloc, row.all())?;
            shown.push((first, cells))?;
        }
        Ok(shown)
    }

    // Adds rows as paragraphs.
    fn add_rows(
        &mut self,
        alloc: Global,
        rows: Vec<TableRow>,
        sides: &[SideRow],
    ) -> Result<(), Memory>
        requires { map (λ r. length r.1) rows.items ≡ map length sides.now }
        ensures { OnOk result (AddsParagraphs (table_paragraphs sides.now rows.items)
            (state_of self.old) (state_of self.new)) }
    {
        let widths = widths_of(alloc, &rows)?;
        let plan = plan_of(alloc, &widths, sides)?;
        let mut at = 0;
        for row in rows {
            let (first, cells) = row;
            let items = cells.padded(
                alloc,
                plan.columns.all(),
                plan.left.all()[at].all(),
                plan.right.all()[at].all(),
            )?;
            self.paragraphs.push(Paragraph::new(alloc, items, &first)?)?;
            at += 1;
        }
        Ok(())
    }

    // Adds a table, or an error where it shows as none.
    #[tactic(auto, using(crate::proofs::FlatLoops::cells, std::proofs::lemmas::Grind::common_steps))]
    #[cycle(show)]
    fn tabular(
        &mut self,
        alloc: Global,
        label: &Label,
        value: &Value,
        plan: &Plan,
    ) -> Result<(), Memory>
        requires { plan.now ≡ table_plan (shows_table value.now) }
        ensures { OnOk result (HasShown (table_shown self.old.attrs label.now value.now)
            (state_of self.old) (state_of self.new)) }
    {
        if !plan.is_list() {
            return self.bad(alloc, label);
        }
        let Some(grid) = grid_of(alloc, value)? else {
            return self.bad(alloc, label);
        };
        let cells = grid.rows.all();
        let sides = grid.sides.all();
        let rows = self.rows(alloc, cells)?;
        self.add_rows(alloc, rows, sides)
    }

    // Ends what a unit shows, as a list or in a line.
    pub(crate) fn finish(&mut self, alloc: Global, is_list: bool) -> Result<(), Memory>
        ensures { OnOk result (Finishes is_list (state_of self.old) (state_of self.new)) }
    {
        if !is_list {
            return self.end_paragraph(alloc);
        }
        self.end_run(alloc)?;
        if self.paragraphs.is_empty() {
            return self.end_paragraph(alloc);
        }
        Ok(())
    }

    // Ends what a part of a unit shows, as a list or in a line. An empty list remains empty.
    pub(crate) fn finish_part(&mut self, alloc: Global, is_list: bool) -> Result<(), Memory>
        ensures { OnOk result (FinishesPart is_list (state_of self.old) (state_of self.new)) }
    {
        if is_list {
            return self.end_run(alloc);
        }
        self.end_paragraph(alloc)
    }
}

// The label as a text.
#[tactic(auto, using(crate::proofs::Wording::words, std::proofs::lemmas::Grind::common_steps))]
fn label_text(alloc: Global, label: &Label) -> Result<Text, Memory>
    ensures { IfOk result (λ t. t ≡ label.now) }
{
    known_text(alloc, label.bytes())
}

// The attribute that a name names.
fn field_in(name: &Value) -> Option<Field>
    ensures { MatchOption result (attribute_in (value_text name.now) ≡ None)
        (λ field. attribute_in (value_text name.now) ≡ Some (attribute_of field)) }
{
    match name.text() {
        Some(text) => field_of(text.bytes()),
        None => None,
    }
}

// The length that is the one part of a value.
#[tactic(auto, using(crate::proofs::ByRule::alone, std::proofs::lemmas::Grind::common_steps))]
fn length_alone(value: &Value) -> Option<i64>
    ensures { result ≡ length_alone (vals (value_parts value.now)) }
{
    let [part] = value.parts() else {
        return None;
    };
    match part.text() {
        Some(text) => parse_length(text),
        None => None,
    }
}

// The whole thousands of a length, from 0 to 500.
fn cells_of_length(length: i64) -> u32
    ensures { result ≡ cells_of_length length }
{
    (length / 1000).clamp(0, MOST_SPACE) as u32
}

// So many cells or lines.
fn space_item(space: Space, cells: u32) -> Item
    ensures { result ≡ space_item space cells }
{
    match space {
        Space::Across => Item::Gap(cells),
        Space::Down => Item::Down(cells),
    }
}
