// Files by their paths.
ghost use Rattle.std.specs.Prelude.{◌≡◌, ◌≤◌, [], length, OnOk, OnErr, IsErrOf, IfSome, Some};
ghost use Rattle.tx_outside.specs.Counts.{Rose};
ghost use Rattle.tx_outside.specs.Files.{IsAbsent, IsTooLong, NamesDiffer, OthersKept, WithFile, file_of};
ghost use Rattle.tx_outside.specs.Known.{WhereKnown};
ghost use Rattle.tx_outside.specs.Outside.{StoreGoesOn};
ghost use Rattle.tx_system.specs.Counts.{LoadLeaves, faults_of, longs_of, misses_of, seen_files};
ghost use Rattle.tx_system.specs.Bytes.{AreAllOf, AreGivenTo};

use crate::counts::raised;
use crate::loading::read_to_limit;
use crate::save_names::save_names;
use crate::saving::save_bytes;
use std::alloc::Global;
use std::io::ErrorKind;
use std::rt::Files;
use std::{fs, str};
use tx_outside::{LoadFault, MOST_FILE, SaveFault, Store};

/// The files of the system. It reports no contents, and counts what went wrong.
#[derive(Drop)]
pub struct FileStore<'a, R> {
    alloc: Global,
    rt: &'a R,
    faults: u64,
    misses: u64,
    longs: u64,
}

impl<'a, R: Files> FileStore<'a, R> {
    /// The files that `rt` reaches, with nothing counted yet.
    pub fn new(alloc: Global, rt: &'a R) -> FileStore<'a, R>
        ensures faults { faults_of result ≡ 0 }
        ensures misses { misses_of result ≡ 0 }
        ensures longs { longs_of result ≡ 0 }
    {
        FileStore {
            alloc,
            rt,
            faults: 0,
            misses: 0,
            longs: 0,
        }
    }

    // What the file of this name holds.
    fn load_file(&self, name: &[u8], out: &mut Vec<u8>) -> Result<(), LoadFault>
        requires { out.old.items ≡ [] }
        ensures within { OnOk result (length out.new.items ≤ MOST_FILE) }
        ensures read { OnOk result (AreAllOf R.File.remaining out.new.items) }
    {
        let Ok(path) = str::from_utf8(name) else {
            return Err(LoadFault::Failed);
        };
        let mut file = match fs::open(self.rt, path) {
            Ok(file) => file,
            Err(error) if error.kind() == ErrorKind::NotFound => return Err(LoadFault::Missing),
            Err(_) => return Err(LoadFault::Failed),
        };
        read_to_limit(&mut file, out)
    }

    // Only the names take memory, and they are made before a file changes.
    fn save_file(&self, name: &[u8], bytes: &[u8]) -> Result<(), SaveFault>
        ensures written { OnOk result (AreGivenTo R.File.contents bytes.now) }
    {
        let mut names = save_names(self.alloc, self.rt, name)?;
        match save_bytes(self.rt, &mut names, bytes) {
            Ok(()) => Ok(()),
            Err(_) => Err(SaveFault::Failed),
        }
    }
}

impl<R: Files> Store for FileStore<'_, R> {
    ghost seen = { λ store. seen_files store };

    ghost load_leaves = { λ name result old new. LoadLeaves name result old new };

    /// Reads the file of that name to its end, at most `MOST_FILE` bytes.
    fn load(&mut self, name: &[u8], out: &mut Vec<u8>) -> Result<(), LoadFault>
        requires { out.old.items ≡ [] }
        ensures read { OnOk result (AreAllOf R.File.remaining out.new.items) }

        // What the trait says, of files whose contents aren't known.
        ensures loaded { OnOk result (IfSome (seen_files self.old).files
            (λ all. file_of all name.now ≡ Some out.new.items)) }
        ensures within_limit { OnOk result (length out.new.items ≤ MOST_FILE) }
        ensures fault_empties { OnErr result (out.new.items ≡ []) }
        ensures leaves { LoadLeaves name.now result self.old self.new }
        ensures missing_rose { IsErrOf result LoadFault.Missing → Rose (misses_of self.old) (misses_of self.new) }
        ensures missing_absent { IsErrOf result LoadFault.Missing
            → IfSome (seen_files self.old).files (IsAbsent name.now) }
        ensures failed_rose { IsErrOf result LoadFault.Failed → Rose (faults_of self.old) (faults_of self.new) }
        ensures too_long_rose { IsErrOf result LoadFault.TooLong → Rose (longs_of self.old) (longs_of self.new) }
        ensures too_long_there { IsErrOf result LoadFault.TooLong
            → IfSome (seen_files self.old).files (IsTooLong name.now) }
        ensures files_kept { (seen_files self.new).files ≡ (seen_files self.old).files }
        ensures names_differ { IfSome (seen_files self.new).files NamesDiffer }
        ensures goes_on { StoreGoesOn (seen_files self.old) (seen_files self.new) }
    {
        let loaded = self.load_file(name, out);
        match loaded {
            Ok(()) => return Ok(()),
            Err(LoadFault::Missing) => self.misses = raised(self.misses),
            Err(LoadFault::Failed) => self.faults = raised(self.faults),
            Err(LoadFault::TooLong) => self.longs = raised(self.longs),
            Err(LoadFault::Memory) => {}
        }
        out.clear();
        loaded
    }

    /// Writes the bytes into a new file, stores it for good, and renames it over the name.
    fn save(&mut self, name: &[u8], bytes: &[u8]) -> Result<(), SaveFault>
        ensures written { OnOk result (AreGivenTo R.File.contents bytes.now) }

        // What the trait says, of files whose contents aren't known.
        ensures saved { OnOk result
            (WhereKnown (WithFile name.now bytes.now) (seen_files self.old).files (seen_files self.new).files) }
        ensures failed_rose { IsErrOf result SaveFault.Failed → Rose (faults_of self.old) (faults_of self.new) }
        ensures failed_others { IsErrOf result SaveFault.Failed
            → WhereKnown (OthersKept name.now) (seen_files self.old).files (seen_files self.new).files }
        ensures memory_keeps { IsErrOf result SaveFault.Memory
            → (seen_files self.new).files ≡ (seen_files self.old).files }
        ensures names_differ { IfSome (seen_files self.new).files NamesDiffer }
        ensures goes_on { StoreGoesOn (seen_files self.old) (seen_files self.new) }
    {
        let saved = self.save_file(name, bytes);
        if let Err(SaveFault::Failed) = saved {
            self.faults = raised(self.faults);
        }
        saved
    }
}
