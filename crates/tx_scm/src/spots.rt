// How far bytes can be the beginning of a tree.
ghost use Rattle.std.specs.Prelude.{◌≡◌, ◌+◌, ◌<◌, ◌≤◌, ◌^◌, None, IfSome};
ghost use Rattle.tx_tree.specs.ReadFaults.{SpellsSome};
ghost use Rattle.tx_scm.specs.Spelling.{Spells};
ghost use Rattle.tx_scm.specs.Faults.{IsSchemeFault};
ghost use Rattle.tx_scm.specs.Kinds.{kind_of};
ghost use Rattle.tx_scm.specs.Spots.{depth_in, after_tree, between_step, opened_step, naming_step};
ghost use Rattle.tx_scm.specs.Spots.{lengthened, texting_step, escaping_step, step, fault_at};

use crate::kinds::{Kind, kind_of};
use tx_tree::{MOST_LABEL, ReadFault, TextPlace};

/// Where a scan is, and in how many open brackets.
#[derive(Clone, Copy, Debug, PartialEq, Eq)]
pub(crate) enum Spot {
    /// Between two trees, or at the beginning.
    Between(usize),
    /// After an opening bracket, before its label.
    Opened(usize),
    /// After so many bytes of a bracket's label.
    Naming(usize, usize),
    /// In a string.
    Texting(TextPlace, usize),
    /// In a string, after a backslash.
    Escaping(TextPlace, usize),
    /// After the whole tree.
    Whole,
}

// The spot after a tree in so many brackets.
fn after_tree(depth: usize) -> Spot
    ensures is { result ≡ after_tree depth }
    ensures depth { depth_in result ≤ depth }
{
    if depth == 0 {
        Spot::Whole
    } else {
        Spot::Between(depth)
    }
}

#[tactic(auto, unfolding(crate::specs::Spots::between_step))]
fn between_step(depth: usize, kind: Kind) -> Option<Spot>
    ensures is { result ≡ between_step depth kind }
    ensures depth { IfSome result (λ next. depth_in next ≤ depth) }
{
    match kind {
        Kind::White => Some(Spot::Between(depth)),
        Kind::Opens => Some(Spot::Opened(depth)),
        Kind::Quote => Some(Spot::Texting(TextPlace::Between, depth)),
        Kind::Closes => {
            if depth == 0 {
                return None;
            }
            Some(after_tree(depth - 1))
        }
        _ => None,
    }
}

#[tactic(auto, unfolding(crate::specs::Spots::opened_step))]
fn opened_step(depth: usize, kind: Kind) -> Option<Spot>
    ensures is { result ≡ opened_step depth kind }
    ensures depth { IfSome result (λ next. depth_in next ≤ depth) }
{
    match kind {
        Kind::White => Some(Spot::Opened(depth)),
        Kind::Letter => Some(Spot::Naming(1, depth)),
        _ => None,
    }
}

#[tactic(auto, unfolding(crate::specs::Spots::naming_step))]
fn naming_step(length: usize, depth: usize, kind: Kind) -> Option<Spot>
    requires { depth < 2 ^ 63 }
    ensures is { result ≡ naming_step length depth kind }
    ensures depth { IfSome result (λ next. depth_in next ≤ depth + 1) }
{
    match kind {
        Kind::Letter => {
            if length >= MOST_LABEL {
                return None;
            }
            Some(Spot::Naming(length + 1, depth))
        }
        _ => between_step(depth + 1, kind),
    }
}

// The spot after a byte more of a text.
fn lengthened(place: TextPlace, depth: usize, byte: u8) -> Option<Spot>
    ensures is { result ≡ lengthened place depth byte }
    ensures depth { IfSome result (λ next. depth_in next ≤ depth) }
{
    match place.step(byte) {
        None => None,
        Some(next) => Some(Spot::Texting(next, depth)),
    }
}

// A backslash escapes a quote or a backslash: a text goes on with both, or with neither.
#[tactic(auto, unfolding(crate::specs::Spots::texting_step))]
fn texting_step(place: TextPlace, depth: usize, kind: Kind, byte: u8) -> Option<Spot>
    ensures is { result ≡ texting_step place depth kind byte }
    ensures depth { IfSome result (λ next. depth_in next ≤ depth) }
{
    match kind {
        Kind::Quote => match place {
            TextPlace::Between => Some(after_tree(depth)),
            TextPlace::InSymbol(_) => None,
        },
        Kind::Backslash => match place.step(b'"') {
            None => None,
            Some(_) => Some(Spot::Escaping(place, depth)),
        },
        _ => lengthened(place, depth, byte),
    }
}

#[tactic(auto, unfolding(crate::specs::Spots::escaping_step))]
fn escaping_step(place: TextPlace, depth: usize, kind: Kind, byte: u8) -> Option<Spot>
    ensures is { result ≡ escaping_step place depth kind byte }
    ensures depth { IfSome result (λ next. depth_in next ≤ depth) }
{
    match kind {
        Kind::Quote | Kind::Backslash => lengthened(place, depth, byte),
        _ => None,
    }
}

impl Spot {
    // The spot after one byte more, or None where no tree goes on with it.
    fn step(self, kind: Kind, byte: u8) -> Option<Spot>
        requires { depth_in self < 2 ^ 63 }
        ensures is { result ≡ step self kind byte }
        ensures depth { IfSome result (λ next. depth_in next ≤ depth_in self + 1) }
    {
        match self {
            Spot::Between(depth) => between_step(depth, kind),
            Spot::Opened(depth) => opened_step(depth, kind),
            Spot::Naming(length, depth) => naming_step(length, depth, kind),
            Spot::Texting(place, depth) => texting_step(place, depth, kind, byte),
            Spot::Escaping(place, depth) => escaping_step(place, depth, kind, byte),
            Spot::Whole => match kind {
                Kind::White => Some(self),
                _ => None,
            },
        }
    }

    // The fault at `at`, where no tree goes on from here.
    fn fault(self, at: usize) -> ReadFault
        ensures { result ≡ fault_at self at }
    {
        match self {
            Spot::Between(_) => ReadFault::Stray(at),
            Spot::Opened(_) | Spot::Naming(..) => ReadFault::BadLabel(at),
            Spot::Texting(..) => ReadFault::BadText(at),
            Spot::Escaping(..) => ReadFault::BadEscape(at),
            Spot::Whole => ReadFault::After(at),
        }
    }
}

// Why the bytes spell no tree, whatever its size, or None where they spell one.
pub(crate) fn misspelled(bytes: &[u8]) -> Option<ReadFault>
    ensures fault { IfSome result (IsSchemeFault bytes.now) }
    ensures none { result ≡ None → SpellsSome Spells bytes.now }
{
    let mut spot = Spot::Between(0);
    for (i, byte) in bytes.iter().enumerate() {
        match spot.step(kind_of(*byte), *byte) {
            Some(next) => spot = next,
            None => return Some(spot.fault(i)),
        }
    }
    match spot {
        Spot::Whole => None,
        _ => Some(ReadFault::Unclosed(bytes.len())),
    }
}
