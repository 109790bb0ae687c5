// Attributes: what the seven variables of a place are set to.
ghost use Rattle.std.specs.Prelude.{◌≡◌, IfOk, OnOk, MatchOption, Some, None};
ghost use Rattle.std.specs.Option.{option_copied};
ghost use Rattle.tx_items.specs.Attributes.{attribute_named, initial, text_in, length_or_zero};
ghost use Rattle.tx_items.specs.Attributes.{with_value, with_former, with_named, given_back};
ghost use Rattle.tx_items.specs.Fields.{attribute_of};
ghost use Rattle.tx_items.specs.Words.{word_bytes};

use crate::words::Word;
use std::alloc::Global;
use tx_base::Memory;
use tx_prim::parse_length;
use tx_tree::Text;

/// The attributes at a place. Lengths are in thousandths of a cell.
#[derive(Drop)]
pub struct Attrs {
    /// `font-series`.
    pub series: Text,
    /// `font-shape`.
    pub shape: Text,
    /// `color`.
    pub color: Text,
    /// `par-mode`.
    pub mode: Text,
    /// `par-left`.
    pub left: i64,
    /// `par-right`.
    pub right: i64,
    /// `par-first`.
    pub first: i64,
}

// An attribute, by its variable.
#[derive(Clone, Copy)]
pub(crate) enum Field {
    Series,
    Shape,
    Color,
    Mode,
    Left,
    Right,
    First,
}

// The attribute that a variable of this name has.
#[tactic(auto, unfolding(crate::specs::Attributes::attribute_named))]
pub(crate) fn field_of(name: &[u8]) -> Option<Field>
    ensures { MatchOption result (attribute_named name.now ≡ None)
        (λ field. attribute_named name.now ≡ Some (attribute_of field)) }
{
    if name == b"font-series".as_slice() {
        Some(Field::Series)
    } else if name == b"font-shape".as_slice() {
        Some(Field::Shape)
    } else if name == b"color".as_slice() {
        Some(Field::Color)
    } else if name == b"par-mode".as_slice() {
        Some(Field::Mode)
    } else if name == b"par-left".as_slice() {
        Some(Field::Left)
    } else if name == b"par-right".as_slice() {
        Some(Field::Right)
    } else if name == b"par-first".as_slice() {
        Some(Field::First)
    } else {
        None
    }
}

// The text, or this word where there is none.
fn text_in(alloc: Global, otherwise: Word, value: Option<&Text>) -> Result<Text, Memory>
    ensures { IfOk result (λ t. t ≡ text_in (word_bytes otherwise) (option_copied value.entry)) }
{
    match value {
        Some(text) => text.copy(),
        None => otherwise.text(alloc),
    }
}

// The length that the text writes, or 0 where there is no text, or it writes none.
fn length_or_zero(value: Option<&Text>) -> i64
    ensures { result ≡ length_or_zero (option_copied value.entry) }
{
    match value {
        Some(text) => match parse_length(text) {
            Some(length) => length,
            None => 0,
        },
        None => 0,
    }
}

impl Attrs {
    /// The attributes where no variable is set: series `medium`, shape `right`, colour `black`, mode `left`, and
    /// lengths of 0.
    pub fn initial(alloc: Global) -> Result<Attrs, Memory>
        ensures { IfOk result (λ a. a ≡ initial) }
    {
        Ok(Attrs {
            series: Word::Medium.text(alloc)?,
            shape: Word::Right.text(alloc)?,
            color: Word::Black.text(alloc)?,
            mode: Word::Left.text(alloc)?,
            left: 0,
            right: 0,
            first: 0,
        })
    }

    /// A copy of the attributes. They share their texts.
    pub fn copy(&self) -> Result<Attrs, Memory>
        ensures { IfOk result (λ a. a ≡ self.now) }
    {
        Ok(Attrs {
            series: self.series.copy()?,
            shape: self.shape.copy()?,
            color: self.color.copy()?,
            mode: self.mode.copy()?,
            left: self.left,
            right: self.right,
            first: self.first,
        })
    }

    /// Sets the variable of this name to this text, or to a value that is no text. Names of other variables change
    /// nothing. No text, and for the last three attributes no length, counts as what `initial` gives.
    pub fn set(&mut self, alloc: Global, name: &Text, value: Option<&Text>) -> Result<(), Memory>
        ensures set { OnOk result (self.new
            ≡ with_named (attribute_named name.now) (option_copied value.entry) self.old) }
    {
        match field_of(name.bytes()) {
            Some(field) => self.set_field(alloc, field, value),
            None => Ok(()),
        }
    }

    /// The variable of this name has again what it had in these attributes. Names of other variables change nothing.
    pub fn restore(&mut self, name: &Text, before: &Attrs) -> Result<(), Memory>
        ensures restored { OnOk result (self.new ≡ given_back (attribute_named name.now) before.now self.old) }
    {
        match field_of(name.bytes()) {
            Some(field) => self.give_back(field, before),
            None => Ok(()),
        }
    }

    // Sets an attribute.
    fn set_field(&mut self, alloc: Global, field: Field, value: Option<&Text>) -> Result<(), Memory>
        ensures { OnOk result (self.new ≡ with_value (attribute_of field) (option_copied value.entry) self.old) }
    {
        match field {
            Field::Series => self.series = text_in(alloc, Word::Medium, value)?,
            Field::Shape => self.shape = text_in(alloc, Word::Right, value)?,
            Field::Color => self.color = text_in(alloc, Word::Black, value)?,
            Field::Mode => self.mode = text_in(alloc, Word::Left, value)?,
            Field::Left => self.left = length_or_zero(value),
            Field::Right => self.right = length_or_zero(value),
            Field::First => self.first = length_or_zero(value),
        }
        Ok(())
    }

    // Gives an attribute what it was before.
    pub(crate) fn give_back(&mut self, field: Field, before: &Attrs) -> Result<(), Memory>
        ensures { OnOk result (self.new ≡ with_former (attribute_of field) before.now self.old) }
    {
        match field {
            Field::Series => self.series = before.series.copy()?,
            Field::Shape => self.shape = before.shape.copy()?,
            Field::Color => self.color = before.color.copy()?,
            Field::Mode => self.mode = before.mode.copy()?,
            Field::Left => self.left = before.left,
            Field::Right => self.right = before.right,
            Field::First => self.first = before.first,
        }
        Ok(())
    }
}
