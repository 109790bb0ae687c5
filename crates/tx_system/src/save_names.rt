// The names that a save uses.
use crate::spare_name::SpareName;
use std::alloc::{AllocError, Global};
use std::io::ErrorKind;
use std::rt::Files;
use std::{fs, str};
use tx_outside::SaveFault;

/// The file that a save puts its bytes into, the folder that it is in, and the name of a new file beside it. All of
/// a save's memory is in here.
#[derive(Drop)]
pub(crate) struct SaveNames {
    /// Where the name is a symbolic link, what it leads to.
    pub(crate) target: String,
    /// With a slash at its end.
    pub(crate) folder: String,
    pub(crate) beside: SpareName,
}

/// The names of a save into the file of that name. It changes no file.
pub(crate) fn save_names<R: Files>(
    alloc: Global,
    rt: &R,
    name: &[u8],
) -> Result<SaveNames, SaveFault> {
    let path = match str::from_utf8(name) {
        Ok(path) if !path.is_empty() => path,
        _ => return Err(SaveFault::Failed),
    };
    let target = target_of(alloc, rt, path)?;
    let folder = folder_of(alloc, target.as_str())?;
    let beside = SpareName::in_folder(alloc, folder.as_str())?;
    Ok(SaveNames {
        target,
        folder,
        beside,
    })
}

// What the path leads to where it is a symbolic link, and else the path itself, also where nothing is there.
fn target_of<R: Files>(alloc: Global, rt: &R, path: &str) -> Result<String, SaveFault> {
    match fs::symlink_metadata(rt, path) {
        Ok(found) if found.is_symlink() => linked(alloc, rt, path),
        Ok(_) => Ok(String::from_str(alloc, path)?),
        Err(error) if error.kind() == ErrorKind::NotFound => Ok(String::from_str(alloc, path)?),
        Err(_) => Err(SaveFault::Failed),
    }
}

// What the symbolic link leads to. One that leads nowhere is a failure.
fn linked<R: Files>(alloc: Global, rt: &R, path: &str) -> Result<String, SaveFault> {
    match rt.canonicalize(alloc, path) {
        Ok(target) => Ok(target.into_string()),
        Err(error) if error.kind() == ErrorKind::OutOfMemory => Err(SaveFault::Memory),
        Err(_) => Err(SaveFault::Failed),
    }
}

// The path up to its last slash, which is included, or the current folder where it has none.
fn folder_of(alloc: Global, path: &str) -> Result<String, AllocError> {
    let front = match path.rsplit_once('/') {
        Some((front, _)) => front,
        None => ".",
    };
    let mut folder = String::from_str(alloc, front)?;
    folder.push('/')?;
    Ok(folder)
}
