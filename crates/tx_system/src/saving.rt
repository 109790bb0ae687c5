// Putting bytes in the place of what a file holds. Nothing in here takes memory.
ghost use Rattle.std.specs.Prelude.{OnOk};
ghost use Rattle.std.specs.Io.KnownBytes.{Appends};
ghost use Rattle.tx_system.specs.Bytes.{AreGivenTo};

use crate::save_names::SaveNames;
use crate::spare_name::{SPARE_NAMES, SpareName};
use std::fs::{self, OpenFile, OpenOptions, Permissions};
use std::io::{self, ErrorKind, Write};
use std::os::unix::fs::OpenOptionsExt;
use std::rt::Files;
use tx_outside::Failed;

/// Puts the bytes in the place of what the file holds, and stores them for good. After `Failed` the file is as it
/// was, unless it was the very last step that failed.
pub(crate) fn save_bytes<R: Files>(
    rt: &R,
    names: &mut SaveNames,
    bytes: &[u8],
) -> Result<(), Failed>
    ensures written { OnOk result (AreGivenTo R.File.contents bytes.now) }
{
    match replaced(rt, names, bytes) {
        Ok(()) => Ok(()),
        Err(_) => Err(Failed),
    }
}

// The folder is opened before anything is written, so that the last step alone is left after the renaming.
fn replaced<R: Files>(rt: &R, names: &mut SaveNames, bytes: &[u8]) -> io::Result<()>
    ensures written { OnOk result (AreGivenTo R.File.contents bytes.now) }
{
    let permissions = kept_permissions(rt, names.target.as_str())?;
    let folder = fs::open(rt, names.folder.as_str())?;
    let file = new_file(rt, &mut names.beside, permissions.is_some())?;
    if let Err(error) = filled_and_renamed(rt, names, file, permissions, bytes) {
        take_away(rt, &names.beside);
        return Err(error);
    }
    folder.sync_all()
}

// The permissions of the file that is there, if one is. It must be a plain file that can be written.
fn kept_permissions<R: Files>(rt: &R, target: &str) -> io::Result<Option<Permissions>> {
    let found = match fs::metadata(rt, target) {
        Ok(found) => found,
        Err(error) if error.kind() == ErrorKind::NotFound => return Ok(None),
        Err(error) => return Err(error),
    };
    if !found.is_file() {
        return Err(io::Error::from(ErrorKind::InvalidInput));
    }
    OpenOptions::new().write(true).open(rt, target)?;
    Ok(Some(found.permissions()))
}

// A file that wasn't there, under the first spare name that is free. A private one can be read by nobody else until
// it has its permissions.
fn new_file<R: Files>(rt: &R, beside: &mut SpareName, private: bool) -> io::Result<R::File> {
    let mut how = OpenOptions::new();
    how.write(true).create_new(true);
    if private {
        how.mode(0o600);
    }
    for _ in 0..SPARE_NAMES {
        match how.open(rt, beside.path()?) {
            Err(error) if error.kind() == ErrorKind::AlreadyExists => beside.advance(),
            opened => return opened,
        }
    }
    Err(io::Error::from(ErrorKind::AlreadyExists))
}

// Fills and closes the new file, and gives it the name.
fn filled_and_renamed<R: Files>(
    rt: &R,
    names: &SaveNames,
    mut file: R::File,
    permissions: Option<Permissions>,
    bytes: &[u8],
) -> io::Result<()>
    ensures written { OnOk result (AreGivenTo R.File.contents bytes.now) }
{
    fill(&mut file, permissions, bytes)?;
    drop(file);
    fs::rename(rt, names.beside.path()?, names.target.as_str())
}

// Gives the file its permissions before it gets a byte.
fn fill<F: Write + OpenFile>(
    file: &mut F,
    permissions: Option<Permissions>,
    bytes: &[u8],
) -> io::Result<()>
    ensures appended { OnOk result (Appends (F.contents file.old) (F.contents file.new) bytes.now) }
{
    if let Some(permissions) = permissions {
        file.set_permissions(permissions)?;
    }
    write_to_disk(file, bytes)
}

/// Appends the bytes to what the file holds. A fault may come as late as when they are stored for good.
#[tactic(auto, using(crate::proofs::Known::written_and_flushed))]
pub fn write_to_disk<F: Write + OpenFile>(file: &mut F, bytes: &[u8]) -> io::Result<()>
    ensures appended { OnOk result (Appends (F.contents file.old) (F.contents file.new) bytes.now) }
{
    file.write_all(bytes)?;
    file.flush()?;
    file.sync_all()
}

// Takes the new file away. Where that fails too, it is left beside the target.
fn take_away<R: Files>(rt: &R, beside: &SpareName) {
    if let Ok(path) = beside.path() {
        let _ = fs::remove_file(rt, path);
    }
}
