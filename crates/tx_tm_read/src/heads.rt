// Beginnings of short tags at the front, which are taken at once.
ghost use Rattle.std.specs.Prelude.{◌≡◌, ◌≤◌, ◌<◌, length, slice_index, IfOk, IfSome};
ghost use Rattle.tx_tm_form.specs.Tokens.{label_end};
ghost use Rattle.tx_tm_read.specs.Heads.{StandsInFront};

use tx_base::Memory;
use tx_tm_content::Labels;
use tx_tree::{Label, is_label_byte};

/// The beginning of a short tag: its label, whether an argument follows, and how many bytes it has.
#[derive(Drop)]
pub(crate) struct Head {
    pub(crate) label: Label,
    pub(crate) more: bool,
    pub(crate) taken: usize,
}

// How many bytes at the front may be in a label.
fn letters_len(bytes: &[u8]) -> usize
    ensures { result ≤ length bytes.now }
{
    for (i, byte) in bytes.iter().enumerate() {
        if !is_label_byte(*byte) {
            return i;
        }
    }
    bytes.len()
}

// Whether the byte ends the beginning of a tag before an argument, or the tag, or None where it ends none.
fn ends_head(byte: u8) -> Option<bool>
    ensures { IfSome result (λ more. byte ≡ label_end more) }
{
    match byte {
        b'|' => Some(true),
        b'>' => Some(false),
        _ => None,
    }
}

/// The beginning of a short tag at the front, or None where there is none.
pub(crate) fn head_front(labels: &mut Labels, bytes: &[u8]) -> Result<Option<Head>, Memory>
    ensures there { IfOk result (λ found. IfSome found (λ h. StandsInFront bytes.now h)) }
{
    if bytes.is_empty() || bytes[0] != b'<' {
        return Ok(None);
    }
    let end = 1 + letters_len(&bytes[1..]);
    if end >= bytes.len() {
        return Ok(None);
    }
    match ends_head(bytes[end]) {
        None => Ok(None),
        Some(more) => head_to(labels, bytes, end, more),
    }
}

// The beginning of a tag whose label ends at the place.
fn head_to(
    labels: &mut Labels,
    bytes: &[u8],
    end: usize,
    more: bool,
) -> Result<Option<Head>, Memory>
    requires some { 1 ≤ end }
    requires within { end < length bytes.now }
    requires first { slice_index bytes.now 0 ≡ 60 }
    requires last { slice_index bytes.now end ≡ label_end more }
    ensures there { IfOk result (λ found. IfSome found (λ h. StandsInFront bytes.now h)) }
{
    match labels.tag(&bytes[1..end])? {
        None => Ok(None),
        Some(label) => Ok(Some(Head {
            label,
            more,
            taken: end + 1,
        })),
    }
}
