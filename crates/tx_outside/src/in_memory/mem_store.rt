// A store of files in memory.
ghost use Rattle.std.specs.Prelude.{◌≡◌, ◌↔◌, ◌≤◌, [], Some};
ghost use Rattle.std.specs.Prelude.{length, OnOk, OnErr, IsErrOf, option_copied};
ghost use Rattle.tx_outside.specs.Counts.{Rose, raised};
ghost use Rattle.tx_outside.specs.Files.{IsAbsent, IsTooLong, NamesDiffer, WithFile, file_of};
ghost use Rattle.tx_outside.specs.InMemory.{LoadLeaves, NextFails, no_calls, one_more, one_failed, seen_store};
ghost use Rattle.tx_outside.specs.Outside.{StoreGoesOn};

use super::call_numbers::Calls;
use super::file_list::{find_file, put_file};
use super::stored_file::StoredFile;
use crate::{LoadFault, MOST_FILE, SaveFault, Store};
use std::marker::Model;

/// A store of files in memory. Its calls, loads and saves alike, are numbered from 0, and those whose numbers it is
/// given fail. The number stops at 2^64 - 1.
#[derive(Drop)]
pub struct MemStore {
    files: Vec<StoredFile>,
    calls: Calls,
    misses: u64,
    longs: u64,
}

impl Model for MemStore {
    ghost use Rattle.tx_outside.specs.Files.{NamesDiffer};
    ghost use Rattle.tx_outside.specs.InMemory.{MemoryStore};

    ghost Value = { MemoryStore };

    ghost view = { λ s. record { files = s.files.items; calls = s.calls; misses = s.misses; longs = s.longs } };

    ghost invariant = { λ s. NamesDiffer s.files.items };
}

impl MemStore {
    /// A store of these files, whose names differ. It fails at the calls of these numbers.
    pub fn new(files: Vec<StoredFile>, failing: Vec<u64>) -> MemStore
        requires { NamesDiffer files.items }
        ensures { result ≡ record { files = files.items; calls = no_calls failing.items; misses = 0; longs = 0 } }
    {
        MemStore {
            files,
            calls: Calls::new(failing),
            misses: 0,
            longs: 0,
        }
    }

    /// The bytes that are stored under a name. `None` comes exactly where there is no such file.
    pub fn file(&self, name: &[u8]) -> Option<&[u8]>
        ensures file { option_copied result ≡ file_of self.now.files name.now }
        ensures names_differ { NamesDiffer self.now.files }
    {
        find_file(&self.files, name)
    }
}

impl Store for MemStore {
    ghost seen = { seen_store };

    ghost load_leaves = { LoadLeaves };

    /// Every call takes a number, whatever it returns.
    fn load(&mut self, name: &[u8], out: &mut Vec<u8>) -> Result<(), LoadFault>
        requires { out.old.items ≡ [] }

        // Which fault comes: a failure by the call's number alone, else one by the stored files.
        ensures failed { IsErrOf result LoadFault.Failed ↔ NextFails self.old.calls }
        ensures missing { IsErrOf result LoadFault.Missing
            ↔ (¬ NextFails self.old.calls × IsAbsent name.now self.old.files) }
        ensures too_long { IsErrOf result LoadFault.TooLong
            ↔ (¬ NextFails self.old.calls × IsTooLong name.now self.old.files) }

        // What `out` holds.
        ensures loaded { OnOk result (file_of self.old.files name.now ≡ Some out.new.items) }
        ensures within_limit { OnOk result (length out.new.items ≤ MOST_FILE) }
        ensures fault_empties { OnErr result (out.new.items ≡ []) }

        // What the store is.
        ensures loaded_store { OnOk result (self.new ≡ record self.old { calls = one_more self.old.calls }) }
        ensures failed_store { IsErrOf result LoadFault.Failed
            → self.new ≡ record self.old { calls = one_failed self.old.calls } }
        ensures missing_store { IsErrOf result LoadFault.Missing
            → self.new ≡ record self.old { calls = one_more self.old.calls; misses = raised self.old.misses } }
        ensures too_long_store { IsErrOf result LoadFault.TooLong
            → self.new ≡ record self.old { calls = one_more self.old.calls; longs = raised self.old.longs } }
        ensures memory_store { IsErrOf result LoadFault.Memory
            → self.new ≡ record self.old { calls = one_more self.old.calls } }
        ensures leaves { LoadLeaves name.now result self.old self.new }

        // The trait's clauses on the counts and the names.
        ensures missing_rose { IsErrOf result LoadFault.Missing → Rose self.old.misses self.new.misses }
        ensures failed_rose { IsErrOf result LoadFault.Failed → Rose self.old.calls.faults self.new.calls.faults }
        ensures too_long_rose { IsErrOf result LoadFault.TooLong → Rose self.old.longs self.new.longs }
        ensures files_kept { self.new.files ≡ self.old.files }
        ensures names_differ { NamesDiffer self.new.files }
        ensures goes_on { StoreGoesOn (seen_store self.old) (seen_store self.new) }
    {
        if self.calls.take_number() {
            self.calls.count_fault();
            return Err(LoadFault::Failed);
        }
        let Some(bytes) = find_file(&self.files, name) else {
            self.misses = self.misses.saturating_add(1);
            return Err(LoadFault::Missing);
        };
        if bytes.len() > MOST_FILE {
            self.longs = self.longs.saturating_add(1);
            return Err(LoadFault::TooLong);
        }
        out.extend_from_slice(bytes)?;
        Ok(())
    }

    /// Every call takes a number, whatever it returns. A call that fails changes no file.
    fn save(&mut self, name: &[u8], bytes: &[u8]) -> Result<(), SaveFault>
        ensures failed { IsErrOf result SaveFault.Failed ↔ NextFails self.old.calls }
        ensures saved { OnOk result (WithFile name.now bytes.now self.old.files self.new.files) }

        // What the store is.
        ensures saved_store { OnOk result
            (self.new ≡ record self.old { files = self.new.files; calls = one_more self.old.calls }) }
        ensures failed_store { IsErrOf result SaveFault.Failed
            → self.new ≡ record self.old { calls = one_failed self.old.calls } }
        ensures memory_store { IsErrOf result SaveFault.Memory
            → self.new ≡ record self.old { calls = one_more self.old.calls } }

        // The trait's clauses on the counts and the names.
        ensures failed_rose { IsErrOf result SaveFault.Failed → Rose self.old.calls.faults self.new.calls.faults }
        ensures names_differ { NamesDiffer self.new.files }
        ensures goes_on { StoreGoesOn (seen_store self.old) (seen_store self.new) }
    {
        if self.calls.take_number() {
            self.calls.count_fault();
            return Err(SaveFault::Failed);
        }
        put_file(&mut self.files, name, bytes)
    }
}
