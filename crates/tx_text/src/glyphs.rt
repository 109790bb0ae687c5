// The characters of a cluster.
ghost use Rattle.std.specs.Prelude.{◌≡◌, ◌≤◌, ◌∷◌, [], length, IfOk};

use std::alloc::Global;
use std::marker::Model;
use std::rc::Rc;
use tx_base::Memory;

// The most bytes that a value holds in itself, so that it takes 16 bytes in all.
const MOST_HERE: usize = 14;

/// The characters of a cluster in UTF-8. Up to 14 bytes are in the value itself, more in memory that copies share.
/// Contracts see them as the list of these bytes.
#[derive(Drop)]
pub struct Glyphs {
    kept: Kept,
}

#[derive(Drop)]
enum Kept {
    Here(u8, [u8; 14]),
    Shared(Rc<Vec<u8>>),
}

impl Model for Glyphs {
    ghost use Rattle.std.specs.Prelude.{List, ℕ};
    ghost use Rattle.tx_text.specs.Kept.{kept_bytes, IsKept};

    ghost Value = { List ℕ };

    ghost view = { λ g. kept_bytes g.kept };

    ghost invariant = { λ g. IsKept g.kept };
}

impl Glyphs {
    // The characters that these bytes spell.
    pub(crate) fn new(alloc: Global, bytes: &[u8]) -> Result<Glyphs, Memory>
        ensures { IfOk result (λ g. g ≡ bytes.now) }
    {
        if bytes.len() <= MOST_HERE {
            let mut here = [0; 14];
            let len = bytes.len();
            here[..len].copy_from_slice(bytes);
            Ok(Glyphs {
                kept: Kept::Here(len as u8, here),
            })
        } else {
            let owned = Vec::from_slice(alloc, bytes)?;
            Ok(Glyphs {
                kept: Kept::Shared(Rc::new(alloc, owned)?),
            })
        }
    }

    // The one byte of an ASCII character.
    pub(crate) fn of_byte(byte: u8) -> Glyphs
        ensures { result ≡ byte ∷ [] }
    {
        let mut here = [0; 14];
        here[0] = byte;
        Glyphs {
            kept: Kept::Here(1, here),
        }
    }

    /// The characters in UTF-8.
    pub fn bytes(&self) -> &[u8]
        ensures { result.now ≡ self.now }
    {
        match &self.kept {
            Kept::Here(len, bytes) => &bytes[..usize::from(*len)],
            Kept::Shared(bytes) => bytes,
        }
    }

    /// A copy of the characters. More than 14 bytes are shared.
    pub fn copy(&self) -> Result<Glyphs, Memory>
        ensures { IfOk result (λ g. g ≡ self.now) }
    {
        match &self.kept {
            Kept::Here(len, bytes) => Ok(Glyphs {
                kept: Kept::Here(*len, *bytes),
            }),
            Kept::Shared(bytes) => Ok(Glyphs {
                kept: Kept::Shared(bytes.clone()?),
            }),
        }
    }
}
