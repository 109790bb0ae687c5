// A store in memory, with faults in mid-stream.

use std::alloc::Global;
use std::test::Fail;
use tx_base::Memory;
use tx_outside::{LoadFault, MOST_FILE, MemStore, SaveFault, Store, StoredFile};

// The bytes of a file, through the bound alone.
fn loaded<S: Store>(alloc: Global, store: &mut S, name: &[u8]) -> Result<Vec<u8>, LoadFault> {
    let mut bytes = Vec::new(alloc);
    store.load(name, &mut bytes)?;
    Ok(bytes)
}

fn is_wanted(answer: &Result<Vec<u8>, LoadFault>, wanted: &Result<&[u8], LoadFault>) -> bool {
    match (answer, wanted) {
        (Ok(bytes), Ok(wanted)) => bytes.as_slice() == *wanted,
        (Err(fault), Err(wanted)) => fault == wanted,
        _ => false,
    }
}

/// A name and bytes, the result of saving these under it, and the result of loading it then.
type Row = (
    &'static [u8],
    &'static [u8],
    Result<(), SaveFault>,
    Result<&'static [u8], LoadFault>,
);

const ROWS: &[Row] = &[
    (b"o.scm", b"one", Ok(()), Ok(b"one")),
    (b"o.scm", b"two", Err(SaveFault::Failed), Ok(b"one")),
    (b"d.scm", b"three", Ok(()), Err(LoadFault::Failed)),
    (b"d.scm", b"", Ok(()), Ok(b"")),
];

fn first_misanswered(alloc: Global, store: &mut MemStore, rows: &[Row]) -> Option<usize> {
    for (i, row) in rows.iter().enumerate() {
        let saved = store.save(row.0, row.1);
        let answer = loaded(alloc, store, row.0);
        if saved != row.2 || !is_wanted(&answer, &row.3) {
            return Some(i);
        }
    }
    None
}

// A document and a style file. The third call and the sixth fail.
fn two_files(alloc: Global) -> Result<MemStore, Memory> {
    let mut files = Vec::new(alloc);
    let name = Vec::from_slice(alloc, b"d.scm")?;
    files.push(StoredFile::new(name, Vec::from_slice(alloc, b"old")?))?;
    let name = Vec::from_slice(alloc, b"s.scm")?;
    files.push(StoredFile::new(name, Vec::from_slice(alloc, b"style")?))?;
    Ok(MemStore::new(files, Vec::from_slice(alloc, &[2, 5])?))
}

// Whether the store has what was saved, and what was there besides.
fn has_all(alloc: Global, store: &mut MemStore) -> bool {
    store.file(b"o.scm") == Some(b"one".as_slice())
        && store.file(b"d.scm") == Some(b"".as_slice())
        && store.file(b"s.scm") == Some(b"style".as_slice())
        && store.file(b"d").is_none()
        && loaded(alloc, store, b"d").err() == Some(LoadFault::Missing)
}

#[test]
fn store_gives_what_was_saved(rt: HostRuntime) -> Result<(), Fail> {
    let mut store = two_files(rt.alloc())?;
    let wrong = first_misanswered(rt.alloc(), &mut store, ROWS);
    assert!(rt;
        wrong.is_none() && has_all(rt.alloc(), &mut store),
        "{wrong:?}"
    );
    Ok(())
}

// The result of loading a file of so many bytes, as their number.
fn loaded_length(alloc: Global, length: usize) -> Result<Result<usize, LoadFault>, Memory> {
    let mut files = Vec::new(alloc);
    let bytes = vec![in alloc; 7u8; length]?;
    files.push(StoredFile::new(Vec::from_slice(alloc, b"x")?, bytes))?;
    let mut store = MemStore::new(files, Vec::new(alloc));
    match loaded(alloc, &mut store, b"x") {
        Ok(bytes) => Ok(Ok(bytes.len())),
        Err(fault) => Ok(Err(fault)),
    }
}

#[test]
fn store_refuses_a_file_that_is_too_long(rt: HostRuntime) -> Result<(), Fail> {
    let answers = (
        loaded_length(rt.alloc(), MOST_FILE)?,
        loaded_length(rt.alloc(), MOST_FILE + 1)?,
    );
    assert_eq!(rt; answers, (Ok(MOST_FILE), Err(LoadFault::TooLong)));
    Ok(())
}
