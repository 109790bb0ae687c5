// Open tags, and where the reader is in them.
ghost use Rattle.std.specs.Prelude.{◌≡◌, ◌==◌, ◌++◌, ◌∷◌, [], true, length, nat_lt, if◌then◌else◌, IfOk};
ghost use Rattle.tx_tree.specs.Texts.{is_name_byte};
ghost use Rattle.tx_tm_form.specs.Bytes.{is_digit};
ghost use Rattle.tx_tm_form.specs.Forms.{symbol_bytes};
ghost use Rattle.tx_tree.specs.WideTree.{leaf};
ghost use Rattle.tx_tm_read.specs.Fronts.{IsBytePushed, IsNameFront};

use std::alloc::Global;
use std::marker::Model;
use tx_base::Memory;
use tx_tm_content::{Body, Siblings, make_leaf};
use tx_tree::{Label, MOST_NAME, MOST_TEXT, Tree};

/// An open tag: the content before it, its label, and its children so far.
#[derive(Drop)]
pub(crate) struct OpenTag {
    pub(crate) before: Body,
    pub(crate) label: Label,
    pub(crate) children: Siblings,
}

/// The first bytes of a symbol's name. Contracts see them.
#[derive(Drop)]
pub(crate) struct NameFront {
    bytes: Vec<u8>,
}

impl Model for NameFront {
    ghost use Rattle.std.specs.Prelude.{List, ℕ};
    ghost use Rattle.tx_tm_read.specs.Fronts.{IsNameFront};

    ghost Value = { List ℕ };

    ghost view = { λ n. n.bytes.items };

    ghost invariant = { λ n. IsNameFront n.bytes.items };
}

impl NameFront {
    pub(crate) fn new(alloc: Global) -> NameFront
        ensures { result ≡ [] }
    {
        NameFront {
            bytes: Vec::new(alloc),
        }
    }

    // With the byte, or None where the name has all its bytes.
    #[tactic(auto, using(crate::proofs::Growths::name_more))]
    pub(crate) fn with(self, byte: u8) -> Result<Option<NameFront>, Memory>
        requires { is_name_byte byte ≡ true }
        ensures { IfOk result (λ next. IsBytePushed next (nat_lt (length self) MOST_NAME) (self ++ byte ∷ [])) }
    {
        let NameFront { mut bytes } = self;
        if bytes.len() >= MOST_NAME {
            return Ok(None);
        }
        bytes.push(byte)?;
        Ok(Some(NameFront { bytes }))
    }

    pub(crate) fn is_empty(&self) -> bool
        ensures { result ≡ (length self.now == 0) }
    {
        self.bytes.is_empty()
    }

    // The bytes of the symbol.
    pub(crate) fn symbol(self, alloc: Global) -> Result<Vec<u8>, Memory>
        ensures bytes { IfOk result (λ v. v.items ≡ symbol_bytes self) }
        ensures name { IsNameFront self }
    {
        let mut symbol = vec![in alloc; b'<']?;
        symbol.extend_from_slice(&self.bytes)?;
        symbol.push(b'>')?;
        Ok(symbol)
    }
}

/// The first digits of raw data. Contracts see them.
#[derive(Drop)]
pub(crate) struct Digits {
    bytes: Vec<u8>,
}

impl Model for Digits {
    ghost use Rattle.std.specs.Prelude.{List, ℕ};
    ghost use Rattle.tx_tm_read.specs.Fronts.{IsDigitFront};

    ghost Value = { List ℕ };

    ghost view = { λ d. d.bytes.items };

    ghost invariant = { λ d. IsDigitFront d.bytes.items };
}

impl Digits {
    pub(crate) fn new(alloc: Global) -> Digits
        ensures { result ≡ [] }
    {
        Digits {
            bytes: Vec::new(alloc),
        }
    }

    // With the digit, or None where they are as many as a text has.
    #[tactic(auto, using(crate::proofs::Growths::digit_more))]
    pub(crate) fn with(self, byte: u8) -> Result<Option<Digits>, Memory>
        requires { is_digit byte ≡ true }
        ensures { IfOk result (λ next. IsBytePushed next (nat_lt (length self) MOST_TEXT) (self ++ byte ∷ [])) }
    {
        let Digits { mut bytes } = self;
        if bytes.len() >= MOST_TEXT {
            return Ok(None);
        }
        bytes.push(byte)?;
        Ok(Some(Digits { bytes }))
    }

    // The leaf of the digits.
    #[tactic(auto, using(crate::proofs::Growths::digits_are_text))]
    pub(crate) fn leaf(self, alloc: Global) -> Result<Tree, Memory>
        ensures { IfOk result (λ t. t ≡ leaf self) }
    {
        make_leaf(alloc, &self.bytes)
    }
}

/// Where the reader is: in which content, in which open tags, the innermost last.
#[derive(Drop)]
pub(crate) enum Spot {
    /// Between two parts of it.
    Reading(Body, Vec<OpenTag>),
    /// In the name of a symbol.
    Naming(NameFront, Body, Vec<OpenTag>),
    /// In the digits of raw data.
    Counting(Digits, Body, Vec<OpenTag>),
}

// Drops what was read. A function that drops it at an exit of its own takes the prover long.
pub(crate) fn let_go(_here: Body, _opens: Vec<OpenTag>) {}
