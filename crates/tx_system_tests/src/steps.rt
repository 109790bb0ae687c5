// Saves at which one step fails, and loads.
use crate::fake_files::{Disk, FakeFiles, FileCall, NAME};
use std::alloc::Global;
use std::cell::RefCell;
use std::io::{self, ErrorKind};
use std::test::Fail;
use tx_outside::{LoadFault, SaveFault, Store};
use tx_system::FileStore;

// The calls of a save of five bytes, in their order.
const SAVING: &[FileCall] = &[
    FileCall::Look,
    FileCall::Metadata,
    FileCall::Open,
    FileCall::Folder,
    FileCall::Create,
    FileCall::Permit,
    FileCall::Write,
    FileCall::Write,
    FileCall::Flush,
    FileCall::Sync,
    FileCall::Rename,
    FileCall::SyncFolder,
];

const NEVER: usize = 1_000;

// The disk after a save of `fresh` at which the call of that number failed, and what the save returned.
fn saved(alloc: Global, failing: usize) -> io::Result<(Disk, Result<(), SaveFault>)> {
    let disk = RefCell::new(Disk::new(alloc, failing, ErrorKind::Other)?);
    let files = FakeFiles { disk: &disk };
    let answer = FileStore::new(alloc, &files).save(NAME.as_bytes(), b"fresh");
    Ok((disk.into_inner(), answer))
}

// Whether the save fails where the call of that number does, with the old bytes whole and nothing beside.
fn fails_whole(alloc: Global, failing: usize) -> io::Result<bool> {
    let (disk, answer) = saved(alloc, failing)?;
    let is_whole = disk.old.as_slice() == b"old bytes".as_slice();
    Ok(answer == Err(SaveFault::Failed) && is_whole && !disk.is_new_there)
}

// The first call of the first `count` at which a save doesn't fail so.
fn first_not_whole(alloc: Global, count: usize) -> io::Result<Option<usize>> {
    for failing in 0..count {
        if !fails_whole(alloc, failing)? {
            return Ok(Some(failing));
        }
    }
    Ok(None)
}

#[test]
fn a_step_that_fails_leaves_the_old_file_whole(rt: HostRuntime) -> Result<(), Fail> {
    assert_eq!(rt; first_not_whole(rt.alloc(), SAVING.len() - 1)?, None);
    Ok(())
}

#[test]
fn the_steps_of_a_save_have_their_order(rt: HostRuntime) -> Result<(), Fail> {
    let (disk, answer) = saved(rt.alloc(), NEVER)?;
    assert!(rt; answer == Ok(()));
    assert!(rt; disk.calls.as_slice() == SAVING);
    assert!(rt; disk.old.as_slice() == b"fresh".as_slice());
    assert!(rt; !disk.is_new_there);
    Ok(())
}

#[test]
fn a_folder_that_is_not_stored_is_a_failure(rt: HostRuntime) -> Result<(), Fail> {
    let (disk, answer) = saved(rt.alloc(), SAVING.len() - 1)?;
    assert!(rt; answer == Err(SaveFault::Failed));
    assert!(rt; disk.old.as_slice() == b"fresh".as_slice());
    Ok(())
}

// What a load returns where the call of that number fails with that kind, and the bytes.
fn loaded(
    alloc: Global,
    failing: usize,
    kind: ErrorKind,
) -> io::Result<(Vec<u8>, Result<(), LoadFault>)> {
    let disk = RefCell::new(Disk::new(alloc, failing, kind)?);
    let files = FakeFiles { disk: &disk };
    let mut bytes = Vec::new(alloc);
    let answer = FileStore::new(alloc, &files).load(NAME.as_bytes(), &mut bytes);
    Ok((bytes, answer))
}

// The call that fails, its kind, and the fault. A file of nine bytes is opened, and then read in four calls.
const LOADS: &[(usize, ErrorKind, LoadFault)] = &[
    (0, ErrorKind::NotFound, LoadFault::Missing),
    (0, ErrorKind::PermissionDenied, LoadFault::Failed),
    (0, ErrorKind::IsADirectory, LoadFault::Failed),
    (1, ErrorKind::NotFound, LoadFault::Failed),
    (3, ErrorKind::Other, LoadFault::Failed),
    (4, ErrorKind::Interrupted, LoadFault::Failed),
];

fn first_wrong_load(
    alloc: Global,
    rows: &[(usize, ErrorKind, LoadFault)],
) -> io::Result<Option<usize>> {
    for (number, row) in rows.iter().enumerate() {
        let (bytes, answer) = loaded(alloc, row.0, row.1)?;
        if answer != Err(row.2) || !bytes.is_empty() {
            return Ok(Some(number));
        }
    }
    Ok(None)
}

#[test]
fn loads_have_their_faults(rt: HostRuntime) -> Result<(), Fail> {
    assert_eq!(rt; first_wrong_load(rt.alloc(), LOADS)?, None);
    Ok(())
}

#[test]
fn a_load_gives_all_bytes(rt: HostRuntime) -> Result<(), Fail> {
    let (bytes, answer) = loaded(rt.alloc(), NEVER, ErrorKind::Other)?;
    assert!(rt; answer == Ok(()));
    assert!(rt; bytes.as_slice() == b"old bytes".as_slice());
    Ok(())
}
