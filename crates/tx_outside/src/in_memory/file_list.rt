// Files in a list: the place of one, and the list with one more or one replaced.
ghost use Rattle.std.specs.Prelude.{◌≡◌, OnOk, OnErr, MatchOption, IsOkUnless, option_copied};
ghost use Rattle.tx_outside.specs.Files.{IsAbsent, NamesDiffer, StandsAt, WithFile, file_of};

use super::stored_file::StoredFile;
use crate::SaveFault;

// The place of the first file of that name, if there is one.
fn place_of(files: &[StoredFile], name: &[u8]) -> Option<usize>
    ensures { MatchOption result (IsAbsent name.now files.now) (StandsAt name.now files.now) }
{
    for (place, file) in files.iter().enumerate() {
        if file.name() == name {
            return Some(place);
        }
    }
    None
}

/// The bytes of the file of that name, if there is one.
pub fn find_file<'a>(files: &'a [StoredFile], name: &[u8]) -> Option<&'a [u8]>
    ensures { option_copied result ≡ file_of files.now name.now }
{
    match place_of(files, name) {
        Some(place) => Some(files[place].bytes()),
        None => None,
    }
}

/// Replaces the bytes of the file of that name, or adds the file. After `Memory` the list is as before.
pub fn put_file(files: &mut Vec<StoredFile>, name: &[u8], bytes: &[u8]) -> Result<(), SaveFault>
    requires { NamesDiffer files.old.items }
    ensures ok { OnOk result (WithFile name.now bytes.now files.old.items files.new.items) }
    ensures names_differ { NamesDiffer files.new.items }
    ensures err { OnErr result (files.new.items ≡ files.old.items) }
    ensures only_memory { IsOkUnless result SaveFault.Memory }
{
    let alloc = *files.allocator();
    let bytes = Vec::from_slice(alloc, bytes)?;
    match place_of(files, name) {
        Some(place) => files[place].set_bytes(bytes),
        None => {
            let name = Vec::from_slice(alloc, name)?;
            files.push(StoredFile::new(name, bytes))?;
        }
    }
    Ok(())
}
