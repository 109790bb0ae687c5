// Trees under names.
ghost use Rattle.std.specs.Prelude.{◌≡◌, IfOk};
ghost use Rattle.tx_doc.specs.Buffers.{AreFormed, number_of};

use std::alloc::Global;
use std::marker::Model;
use tx_base::Memory;
use tx_tree::Tree;

/// The name of a buffer: any bytes, of any number.
///
/// Contracts see a name as the list of its bytes.
#[derive(Drop)]
pub struct Name {
    bytes: Vec<u8>,
}

impl Model for Name {
    ghost use Rattle.std.specs.Prelude.{List, ℕ};

    ghost Value = { List ℕ };

    ghost view = { λ n. n.bytes.items };
}

impl Name {
    /// The name's bytes.
    pub fn bytes(&self) -> &[u8]
        ensures { result.now ≡ self.now }
    {
        &self.bytes
    }

    /// A copy of the name, with bytes of its own.
    pub fn copy(&self, alloc: Global) -> Result<Name, Memory>
        ensures { IfOk result (λ name. name ≡ self.now) }
    {
        Ok(Name {
            bytes: Vec::from_slice(alloc, self.bytes())?,
        })
    }
}

impl From<Vec<u8>> for Name {
    ghost use Rattle.std.specs.Prelude.{◌≡◌};

    ghost from_gives = { λ bytes name. name ≡ bytes.items };

    fn from(bytes: Vec<u8>) -> Name {
        Name { bytes }
    }
}

/// A tree and the name that it is known by. Buffer 0 of a session is the document, and the others are styles.
#[derive(Drop)]
pub struct Buffer {
    /// What it is known by.
    pub name: Name,
    /// What it holds.
    pub tree: Tree,
}

/// The number of the first buffer of this name, from 0. None comes exactly where no buffer has it.
pub fn number_of(buffers: &[Buffer], name: &[u8]) -> Option<usize>
    ensures { result ≡ number_of buffers.now name.now }
{
    buffers
        .iter()
        .position(|buffer| buffer.name.bytes() == name)
}

/// The buffers in a list of their own: names are copied, and trees are shared.
pub fn share_buffers(alloc: Global, buffers: &[Buffer]) -> Result<Vec<Buffer>, Memory>
    ensures { IfOk result (λ all. all.items ≡ buffers.now) }
{
    let mut all = Vec::with_capacity(alloc, buffers.len())?;
    for buffer in buffers {
        all.push(Buffer {
            name: buffer.name.copy(alloc)?,
            tree: buffer.tree.share()?,
        })?;
    }
    Ok(all)
}

/// A law: every buffer's tree is well formed, and within the limits.
pub fn formed_law(buffers: &[Buffer])
    ensures { AreFormed buffers.now }
{
    for buffer in buffers {
        let _size = buffer.tree.size();
    }
}
