// Labels of nodes.
ghost use Rattle.std.specs.Prelude.{◌≡◌, ◌≢◌, IfOk, IfErr, OnOk};
ghost use Rattle.tx_tree.specs.Labels.{is_label_byte, IsLabel, IsLabelFault};
ghost use Rattle.tx_tree.specs.declared.labels.LabelFault.TheVariants.{Memory as NoMemory};

use crate::MOST_LABEL;
use std::alloc::{AllocError, AllocFailed, Global};
use std::marker::Model;
use std::rc::Rc;
use thiserror::Error;
use tx_base::Memory;

/// Why bytes are no label.
#[derive(Clone, Copy, Debug, PartialEq, Eq, Error)]
pub enum LabelFault {
    /// So many bytes and no more begin a label.
    #[error("no label at {0}")]
    BadLabel(usize),
    /// Memory ran out.
    #[error("out of memory")]
    Memory,
}

impl From<AllocError> for LabelFault {
    ghost from_gives = { λ _ fault. fault ≡ NoMemory };

    fn from(_cause: AllocError) -> LabelFault {
        LabelFault::Memory
    }
}

impl<T: Drop> From<AllocFailed<T>> for LabelFault {
    ghost from_gives = { λ _ fault. fault ≡ NoMemory };

    fn from(_cause: AllocFailed<T>) -> LabelFault {
        LabelFault::Memory
    }
}

/// Whether a label may have the byte: a letter, a digit, or one of `- _ + * : . ? ! = ~ @ $ % & ^`.
#[tactic(auto, unfolding(crate::specs::Labels::is_label_byte))]
pub fn is_label_byte(byte: u8) -> bool
    ensures { result ≡ is_label_byte byte }
{
    byte.is_ascii_alphanumeric()
        || matches!(
            byte,
            b'-' | b'_'
                | b'+'
                | b'*'
                | b':'
                | b'.'
                | b'?'
                | b'!'
                | b'='
                | b'~'
                | b'@'
                | b'$'
                | b'%'
                | b'&'
                | b'^'
        )
}

/// A label: 1 to 64 bytes, each a letter, a digit, or one of `- _ + * : . ? ! = ~ @ $ % & ^`.
///
/// Copies share the bytes. Contracts see a label as the list of its bytes.
#[derive(Drop)]
pub struct Label {
    bytes: Rc<Vec<u8>>,
}

impl Model for Label {
    ghost use Rattle.std.specs.Prelude.{List, ℕ};
    ghost use Rattle.tx_tree.specs.Labels.{IsLabel};

    ghost Value = { List ℕ };

    ghost view = { λ l. l.bytes.value.items };

    ghost invariant = { λ l. IsLabel l.bytes.value.items };
}

impl Label {
    /// The label of these bytes.
    pub fn new(alloc: Global, bytes: &[u8]) -> Result<Label, LabelFault>
        ensures ok { IfOk result (λ l. l ≡ bytes.now) }
        ensures label { OnOk result (IsLabel bytes.now) }
        ensures refused { IfErr result (λ fault. fault ≢ LabelFault.Memory → IsLabelFault bytes.now fault) }
    {
        for (i, byte) in bytes.iter().enumerate() {
            if i == MOST_LABEL || !is_label_byte(*byte) {
                return Err(LabelFault::BadLabel(i));
            }
        }
        if bytes.is_empty() {
            return Err(LabelFault::BadLabel(0));
        }
        let owned = Vec::from_slice(alloc, bytes)?;
        Ok(Label {
            bytes: Rc::new(alloc, owned)?,
        })
    }

    /// The label's bytes.
    pub fn bytes(&self) -> &[u8]
        ensures bytes { result.now ≡ self.now }
        ensures label { IsLabel self.now }
    {
        &self.bytes
    }

    /// A copy of the label, which shares its bytes.
    pub fn copy(&self) -> Result<Label, Memory>
        ensures { IfOk result (λ l. l ≡ self.now) }
    {
        Ok(Label {
            bytes: self.bytes.clone()?,
        })
    }
}
