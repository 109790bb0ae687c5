// A cache of labels, so that nodes that are made in order share them. It is direct-mapped: each label has one slot,
// which it takes from the label that was there before.
ghost use Rattle.std.specs.Prelude.{◌≡◌, ◌≢◌, ◌<◌, IfOk, IfErr, IfSome, OnOk};
ghost use Rattle.tx_tree.specs.Labels.{IsLabel, IsLabelFault};

use crate::labels::{Label, LabelFault};
use std::alloc::Global;
use tx_base::Memory;

// How many labels are cached at most.
const SLOTS: usize = 64;

/// The labels that were asked for of late, at most one in each of 64 slots. What `label` returns is what `Label::new`
/// returns; only the memory that labels take differs.
#[derive(Drop)]
pub struct LabelCache {
    alloc: Global,
    slots: Vec<Option<Label>>,
}

// The slot of a label of these bytes.
fn slot_of(bytes: &[u8]) -> usize
    ensures { result < SLOTS }
{
    if bytes.is_empty() {
        return 0;
    }
    let first = bytes[0] as usize;
    let last = bytes[bytes.len() - 1] as usize;
    (first * 3 + last * 5 + bytes.len() % SLOTS) % SLOTS
}

// A copy of the label, which shares its bytes.
fn shared(label: &Label) -> Result<Label, LabelFault>
    ensures ok { IfOk result (λ l. l ≡ label.now) }
    ensures refused { IfErr result (λ fault. fault ≡ LabelFault.Memory) }
{
    match label.copy() {
        Ok(copy) => Ok(copy),
        Err(Memory) => Err(LabelFault::Memory),
    }
}

impl LabelCache {
    /// No labels yet.
    pub fn new(alloc: Global) -> Result<LabelCache, Memory> {
        let mut slots = Vec::with_capacity(alloc, SLOTS)?;
        for _ in 0..SLOTS {
            slots.push(None)?;
        }
        Ok(LabelCache { alloc, slots })
    }

    // The label of these bytes, if it is in the slot.
    fn kept(&self, slot: usize, bytes: &[u8]) -> Option<&Label>
        ensures bytes { IfSome result (λ l. l.now ≡ bytes.now) }
        ensures label { IfSome result (λ l. IsLabel l.now) }
    {
        if slot >= self.slots.len() {
            return None;
        }
        match &self.slots[slot] {
            None => None,
            Some(label) => {
                if label.bytes() == bytes {
                    Some(label)
                } else {
                    None
                }
            }
        }
    }

    // Keeps the label in the slot.
    fn keep(&mut self, slot: usize, label: Label) {
        if slot < self.slots.len() {
            self.slots[slot] = Some(label);
        }
    }

    /// The label of these bytes. Where it is cached it shares its bytes with the cached one; else it is cached now.
    pub fn label(&mut self, bytes: &[u8]) -> Result<Label, LabelFault>
        ensures ok { IfOk result (λ l. l ≡ bytes.now) }
        ensures label { OnOk result (IsLabel bytes.now) }
        ensures refused { IfErr result (λ fault. fault ≢ LabelFault.Memory → IsLabelFault bytes.now fault) }
    {
        let slot = slot_of(bytes);
        if let Some(label) = self.kept(slot, bytes) {
            return shared(label);
        }
        let label = Label::new(self.alloc, bytes)?;
        self.keep(slot, shared(&label)?);
        Ok(label)
    }
}
