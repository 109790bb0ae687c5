// What a byte is to the syntax.
ghost use Rattle.std.specs.Prelude.{◌≡◌};
ghost use Rattle.tx_scm.specs.Kinds.{kind_of};

use tx_tree::is_label_byte;

/// What a byte is to the syntax.
#[derive(Clone, Copy, Debug, PartialEq, Eq)]
pub(crate) enum Kind {
    White,
    Opens,
    Closes,
    Quote,
    Backslash,
    Letter,
    Other,
}

#[tactic(auto, unfolding(crate::specs::Kinds::kind_of))]
pub(crate) fn kind_of(byte: u8) -> Kind
    ensures { result ≡ kind_of byte }
{
    match byte {
        b'\t' | b'\n' | b'\r' | b' ' => Kind::White,
        b'(' => Kind::Opens,
        b')' => Kind::Closes,
        b'"' => Kind::Quote,
        b'\\' => Kind::Backslash,
        _ if is_label_byte(byte) => Kind::Letter,
        _ => Kind::Other,
    }
}
