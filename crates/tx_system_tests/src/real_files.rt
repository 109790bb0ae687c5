// Saves into a folder of real files.
use std::alloc::Global;
use std::fmt::Write;
use std::fs::{self, Permissions};
use std::os::unix::fs::{PermissionsExt, symlink};
use std::rt::Files;
use std::test::Fail;
use std::{env, io, process};
use tx_outside::{SaveFault, Store};
use tx_system::FileStore;

const FRESH: &[u8] = b"fresh bytes";

const LONG_NAME: &[u8] = &[b'x'; 255];

// Names that can be saved, each opened again afterwards.
const SAVED: &[&[u8]] = &[
    b"new.tm",
    b"old.tm",
    b"./old.tm",
    b"link.tm",
    b"folder/new.tm",
    b"folder/../old.tm",
    LONG_NAME,
];

// Names that can't be saved.
const FAILING: &[&[u8]] = &[
    b"",
    b"/",
    b".",
    b"folder",
    b"folder/",
    b"new-name/",
    b"no-such-folder/new.tm",
    b"old.tm/new.tm",
    b"dangling.tm",
    b"folder-link",
    b"/dev/null",
    b"\xff.tm",
    b"a\0b.tm",
];

// What isn't as it should be: the number of a name, or what else is in the folder.
#[derive(Clone, Copy, Debug, PartialEq, Eq)]
enum Wrong {
    NotSaved(usize),
    NotFailing(usize),
    Mode,
    Link,
    OtherFile,
    LeftBeside,
}

// Files of the folder of the moment.
fn make_files(rt: &impl Files) -> io::Result<()> {
    fs::create_dir(rt, "folder")?;
    fs::write(rt, "old.tm", b"old bytes, more of them")?;
    fs::set_permissions(rt, "old.tm", Permissions::from_mode(0o640))?;
    fs::write(rt, ".tmx-0000", b"of another")
}

fn make_links(rt: &impl Files) -> io::Result<()> {
    symlink(rt, "old.tm", "link.tm")?;
    symlink(rt, "nothing.tm", "dangling.tm")?;
    symlink(rt, "folder", "folder-link")
}

// Whether the bytes can be saved under the name, and are opened again.
fn opens_again(alloc: Global, rt: &impl Files, name: &[u8], bytes: &[u8]) -> bool {
    let mut store = FileStore::new(alloc, rt);
    let mut loaded = Vec::new(alloc);
    store.save(name, bytes) == Ok(())
        && store.load(name, &mut loaded) == Ok(())
        && loaded.as_slice() == bytes
}

fn first_not_saved(alloc: Global, rt: &impl Files) -> Option<usize> {
    for (number, name) in SAVED.iter().enumerate() {
        if !opens_again(alloc, rt, name, FRESH) {
            return Some(number);
        }
    }
    None
}

fn first_not_failing(alloc: Global, rt: &impl Files) -> Option<usize> {
    for (number, name) in FAILING.iter().enumerate() {
        if FileStore::new(alloc, rt).save(name, FRESH) != Err(SaveFault::Failed) {
            return Some(number);
        }
    }
    None
}

fn has_mode(rt: &impl Files) -> io::Result<bool> {
    Ok(fs::metadata(rt, "old.tm")?.permissions().mode() & 0o777 == 0o640)
}

fn are_links(rt: &impl Files) -> io::Result<bool> {
    let leads_on = fs::symlink_metadata(rt, "link.tm")?.is_symlink();
    Ok(leads_on && fs::symlink_metadata(rt, "dangling.tm")?.is_symlink())
}

fn is_other_whole(rt: &(impl Files + AllocGlobal)) -> io::Result<bool> {
    Ok(fs::read(rt, ".tmx-0000")?.as_slice() == b"of another".as_slice())
}

fn is_left_beside(rt: &impl Files) -> io::Result<bool> {
    Ok(
        fs::exists(rt, ".tmx-0001")?
            || fs::exists(rt, "folder/.tmx-0000")?
            || fs::exists(rt, "nothing.tm")?,
    )
}

// What is wrong with the files and links afterwards.
fn what_is_left_wrong(rt: &(impl Files + AllocGlobal)) -> io::Result<Option<Wrong>> {
    if !has_mode(rt)? {
        return Ok(Some(Wrong::Mode));
    }
    if !are_links(rt)? {
        return Ok(Some(Wrong::Link));
    }
    if !is_other_whole(rt)? {
        return Ok(Some(Wrong::OtherFile));
    }
    Ok(is_left_beside(rt)?.then_some(Wrong::LeftBeside))
}

// What is wrong after all names were tried.
fn what_is_wrong(alloc: Global, rt: &(impl Files + AllocGlobal)) -> io::Result<Option<Wrong>> {
    if let Some(number) = first_not_saved(alloc, rt) {
        return Ok(Some(Wrong::NotSaved(number)));
    }
    if let Some(number) = first_not_failing(alloc, rt) {
        return Ok(Some(Wrong::NotFailing(number)));
    }
    what_is_left_wrong(rt)
}

// The name of a folder of this process.
fn folder_name(rt: &HostRuntime) -> io::Result<String> {
    let mut folder = env::temp_dir(rt)?.into_string();
    folder.push_str("/tx_system_tests-")?;
    write!(folder, "{}", process::id(rt.process()))?;
    Ok(folder)
}

// Makes the folder, tries all names in there, and removes it.
fn what_is_wrong_in(alloc: Global, rt: &HostRuntime, folder: &str) -> io::Result<Option<Wrong>> {
    fs::create_dir(rt, folder)?;
    env::set_current_dir(rt, folder)?;
    make_files(rt)?;
    make_links(rt)?;
    let wrong = what_is_wrong(alloc, rt)?;
    env::set_current_dir(rt, "/")?;
    rt.remove_dir_all(alloc, folder)?;
    Ok(wrong)
}

#[test]
fn real_files_are_saved_and_opened_again(rt: HostRuntime) -> Result<(), Fail> {
    let folder = folder_name(&rt)?;
    assert_eq!(rt; what_is_wrong_in(rt.alloc(), &rt, folder.as_str())?, None);
    Ok(())
}
