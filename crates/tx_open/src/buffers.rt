// The buffers of a session that begins.
ghost use Rattle.std.specs.Prelude.{◌≡◌};

use std::marker::Model;
use tx_doc::Buffer;

/// Buffers, in their order: the document, and the styles after it.
///
/// Contracts see the list of them.
#[derive(Drop)]
pub struct Buffers {
    buffers: Vec<Buffer>,
}

impl Model for Buffers {
    ghost use Rattle.std.specs.Prelude.{List};
    ghost use Rattle.std.specs.Coded.{coded_list};
    ghost use Rattle.tx_doc.specs.declared.buffer.Buffer.{Buffer};
    ghost use Rattle.tx_doc.specs.contracts.buffer.Buffer as one_buffer;

    ghost Value = { List Buffer };

    ghost coded = { coded_list one_buffer.the_row.coded };

    ghost view = { λ b. b.buffers.items };
}

impl Buffers {
    /// The buffers.
    pub fn as_slice(&self) -> &[Buffer]
        ensures { result.now ≡ self.now }
    {
        &self.buffers
    }

    /// The buffers, in a vector.
    pub fn into_vec(self) -> Vec<Buffer>
        ensures { result.items ≡ self }
    {
        self.buffers
    }
}

impl From<Vec<Buffer>> for Buffers {
    ghost use Rattle.std.specs.Prelude.{◌≡◌};

    ghost from_gives = { λ buffers all. all ≡ buffers.items };

    fn from(buffers: Vec<Buffer>) -> Buffers {
        Buffers { buffers }
    }
}
