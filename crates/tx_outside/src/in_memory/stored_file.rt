// One file of a store in memory.
ghost use Rattle.std.specs.Prelude.{◌≡◌};

use std::marker::Model;

/// A file of a store in memory. Contracts see its name and its bytes, as two lists.
#[derive(Drop)]
pub struct StoredFile {
    name: Vec<u8>,
    bytes: Vec<u8>,
}

impl Model for StoredFile {
    ghost use Rattle.std.specs.Prelude.{List, ℕ};

    ghost Value = { List ℕ × List ℕ };

    ghost view = { λ file. (file.name.items, file.bytes.items) };
}

impl StoredFile {
    /// A file of this name, with these bytes.
    pub fn new(name: Vec<u8>, bytes: Vec<u8>) -> StoredFile
        ensures { result ≡ (name.items, bytes.items) }
    {
        StoredFile { name, bytes }
    }

    /// The file's name.
    pub fn name(&self) -> &[u8]
        ensures { result.now ≡ self.now.0 }
    {
        &self.name
    }

    /// The file's bytes.
    pub fn bytes(&self) -> &[u8]
        ensures { result.now ≡ self.now.1 }
    {
        &self.bytes
    }

    /// Gives the file other bytes.
    pub(super) fn set_bytes(&mut self, bytes: Vec<u8>)
        ensures { self.new ≡ (self.old.0, bytes.items) }
    {
        self.bytes = bytes;
    }
}
