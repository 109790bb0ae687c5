// In which ink a text is shown.
ghost use Rattle.std.specs.Prelude.{◌≡◌, ◌||◌, codes};
ghost use Rattle.std.specs.Str.{bytes_eq};
ghost use Rattle.tx_page.specs.Inks.{color_named, ink_of};

use tx_items::Look;
use tx_terminal::{Color, Ink};

// The color of a name, or None for the terminal's own.
fn color_named(name: &[u8]) -> Option<Color>
    ensures { result ≡ color_named name.now }
{
    if name == b"red".as_slice() {
        Some(Color::Red)
    } else if name == b"green".as_slice() {
        Some(Color::Green)
    } else if name == b"yellow".as_slice() {
        Some(Color::Yellow)
    } else if name == b"blue".as_slice() {
        Some(Color::Blue)
    } else if name == b"magenta".as_slice() {
        Some(Color::Magenta)
    } else if name == b"cyan".as_slice() {
        Some(Color::Cyan)
    } else if name == b"white".as_slice() {
        Some(Color::White)
    } else {
        None
    }
}

// Whether a shape is shown in italic.
fn is_italic(shape: &[u8]) -> bool
    ensures { result ≡ (bytes_eq shape.now (codes "italic") || bytes_eq shape.now (codes "slanted")) }
{
    shape == b"italic".as_slice() || shape == b"slanted".as_slice()
}

// The ink of a text that looks so.
pub(crate) fn ink_of(look: &Look) -> Ink
    ensures { result ≡ ink_of look.now }
{
    Ink {
        bold: look.series().bytes() == b"bold".as_slice(),
        italic: is_italic(look.shape().bytes()),
        reverse: false,
        color: color_named(look.color().bytes()),
    }
}
