// What single bytes, the bytes of labels and runs of white are.
ghost use Rattle.std.specs.Prelude.{◌≡◌};
ghost use Rattle.tx_tm_form.specs.Bytes.{is_digit};
ghost use Rattle.tx_tm_form.specs.Parts.{same_bytes, collection_label};
ghost use Rattle.tx_tm_form.specs.Growing.{longer};

use tx_tm_form::White;
use tx_tree::Label;

/// Whether the byte is a digit of raw data.
pub fn is_digit(byte: u8) -> bool
    ensures { result ≡ is_digit byte }
{
    matches!(byte, b'0'..=b'9' | b'A'..=b'F' | b'a'..=b'f')
}

/// Whether the bytes are the same.
pub fn same_bytes(one: &[u8], other: &[u8]) -> bool
    ensures { result ≡ same_bytes one.now other.now }
{
    one == other
}

/// Whether the label is that of collections.
pub fn is_collection(label: &Label) -> bool
    ensures { result ≡ same_bytes label.now collection_label }
{
    same_bytes(label.bytes(), b"collection")
}

/// The run of both.
pub fn longer(run: Option<White>, white: White) -> White
    ensures { result ≡ longer run white }
{
    match run {
        None => white,
        Some(before) => before.joint_run(white),
    }
}
