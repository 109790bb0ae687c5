// The pieces of a line that stand for arguments, and where a line stops fitting.
ghost use Rattle.std.specs.Prelude.{◌≡◌, ◌+◌, ◌<◌, ◌≤◌, ◌↔◌, IsTrue, true, [], length, IfOk, IfErr, IfSome, OnErr};
ghost use Rattle.tx_base.specs.Fronts.{IsLongestFront};
ghost use Rattle.tx_tree.specs.PathSpelling.{IsNumber};
ghost use Rattle.tx_cmd.specs.Words.{up_to_space, is_file_name_byte, IsNumeral, is_stored, some_stored};
ghost use Rattle.tx_cmd.specs.Pieces.{IsTail, IsCutPiece, EndsPiece, IsMisfit, IsPieceMisfit, tree_is_last};
ghost use Rattle.tx_cmd.specs.Pieces.{next_number};

use crate::MOST_NAME;
use crate::words::ArgumentKind;
use std::alloc::Global;
use tx_base::Memory;
use tx_tree::{Label, LabelFault, MOST_DIGITS, MOST_NUMBER};

/// What is before the first space, or all bytes where there is none.
pub fn first_word(bytes: &[u8]) -> &[u8]
    ensures { result.now ≡ up_to_space bytes.now }
{
    match bytes.iter().position(|byte| *byte == b' ') {
        Some(space) => &bytes[..space],
        None => bytes,
    }
}

// The piece for the argument, after the space that the bytes begin with, and what is after the piece.
pub(crate) fn cut(argument: ArgumentKind, bytes: &[u8]) -> (&[u8], &[u8])
    requires some { 1 ≤ length bytes.now }
    requires tail { IsTail bytes.now }
    ensures { IsCutPiece argument bytes.now result.0.now result.1.now }
{
    let behind = &bytes[1..];
    match argument {
        ArgumentKind::Tree | ArgumentKind::Text => (behind, &[]),
        _ => {
            let piece = first_word(behind);
            (piece, &behind[piece.len()..])
        }
    }
}

// The number with one digit more, or None where the byte is no digit or the number is too great.
#[tactic(auto, unfolding(crate::specs::Pieces::next_number))]
fn next_number(value: u32, byte: u8) -> Option<u32>
    ensures { result ≡ next_number value byte }
{
    if !byte.is_ascii_digit() {
        return None;
    }
    let next = u64::from(value) * 10 + u64::from(byte - b'0');
    if next > MOST_NUMBER {
        return None;
    }
    Some(next as u32)
}

// The number that the digits write, or how many bytes begin one.
pub(crate) fn number(piece: &[u8]) -> Result<u32, usize>
    ensures ok { IfOk result (λ n. IsNumber piece.now n) }
    ensures misfit { IfErr result (λ n. IsLongestFront IsNumeral piece.now n × (IsNumeral piece.now → ⊥)) }
{
    let mut value = 0u32;
    for (i, byte) in piece.iter().enumerate() {
        if i >= MOST_DIGITS {
            return Err(i);
        }
        match next_number(value, *byte) {
            Some(next) => value = next,
            None => return Err(i),
        }
    }
    if piece.is_empty() {
        return Err(0);
    }
    Ok(value)
}

// Whether a name may have the byte at this place.
fn may_stand(byte: u8, place: usize) -> bool
    ensures { IsTrue result ↔ (is_file_name_byte byte ≡ true) × (place < MOST_NAME) }
{
    byte.is_ascii_graphic() && place < MOST_NAME
}

// How many bytes of the piece begin a name, or None where it is one.
fn name_misfit(piece: &[u8]) -> Option<usize>
    ensures { IsPieceMisfit ArgumentKind.Name piece.now result }
{
    for (i, byte) in piece.iter().enumerate() {
        if !may_stand(*byte, i) {
            return Some(i);
        }
    }
    if piece.is_empty() {
        return Some(0);
    }
    None
}

// How many bytes of the piece begin one that may stand for the argument, or None where it may itself.
fn piece_misfit(
    alloc: Global,
    argument: ArgumentKind,
    piece: &[u8],
) -> Result<Option<usize>, Memory>
    requires { EndsPiece argument piece.now [] }
    ensures misfit { IfOk result (IsPieceMisfit argument piece.now) }
    ensures memory { OnErr result (is_stored argument ≡ true) }
{
    match argument {
        ArgumentKind::Path | ArgumentKind::Tree | ArgumentKind::Text => Ok(None),
        ArgumentKind::Number => match number(piece) {
            Ok(_) => Ok(None),
            Err(place) => Ok(Some(place)),
        },
        ArgumentKind::Label => match Label::new(alloc, piece).err() {
            None => Ok(None),
            Some(LabelFault::BadLabel(place)) => Ok(Some(place)),
            Some(LabelFault::Memory) => Err(Memory),
        },
        ArgumentKind::Name => Ok(name_misfit(piece)),
    }
}

// How many of the bytes can be continued to pieces that may stand for the arguments, or None where they are such
// pieces themselves, each after a space.
pub(crate) fn misfit(
    alloc: Global,
    arguments: &[ArgumentKind],
    bytes: &[u8],
) -> Result<Option<usize>, Memory>
    requires tail { IsTail bytes.now }
    requires ordered { tree_is_last arguments.now ≡ true }
    ensures place { IfOk result (λ found. IfSome found (λ n. n ≤ length bytes.now)) }
    ensures misfit { IfOk result (IsMisfit arguments.now bytes.now) }
    ensures memory { OnErr result (some_stored arguments.now ≡ true) }
{
    let [first, later @ ..] = arguments else {
        return Ok(if bytes.is_empty() { None } else { Some(0) });
    };
    if bytes.is_empty() {
        return Ok(Some(0));
    }
    let (piece, rest) = cut(*first, bytes);
    if let Some(place) = piece_misfit(alloc, *first, piece)? {
        return Ok(Some(1 + place));
    }
    match misfit(alloc, later, rest)? {
        None => Ok(None),
        Some(place) => Ok(Some(1 + piece.len() + place)),
    }
}
