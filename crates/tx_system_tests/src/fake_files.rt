// Files in memory: one file `old.tm`, its folder, and a new file beside it. They note each call, and fail at the
// calls that they are asked to.
ghost use Rattle.std.specs.Io.{ReadsAtMost, WritesAtMost};

use std::alloc::{Allocator, Global};
use std::cell::{RefCell, RefMut};
use std::fs::{Metadata, OpenFile, OpenOptions, Permissions};
use std::io::{self, ErrorKind, Read, Seek, SeekFrom, Write};
use std::rt::Files;

// The name of the file.
pub const NAME: &str = "old.tm";

const FOLDER: &str = "./";

// What was called.
#[derive(Clone, Copy, Debug, PartialEq, Eq)]
pub enum FileCall {
    Look,
    Metadata,
    Open,
    Folder,
    Create,
    Permit,
    Read,
    Write,
    Flush,
    Sync,
    Rename,
    Remove,
    SyncFolder,
}

// What the disk holds, and what was called. `new` is the file beside.
#[derive(Drop)]
pub struct Disk {
    pub old: Vec<u8>,
    pub new: Vec<u8>,
    pub is_new_there: bool,
    pub calls: Vec<FileCall>,
    pub failing: Vec<usize>,
    pub kind: ErrorKind,
}

impl Disk {
    // A disk with some bytes in `old.tm`, whose call of that number fails.
    pub(crate) fn new(alloc: Global, failing: usize, kind: ErrorKind) -> io::Result<Disk> {
        let mut numbers = Vec::new(alloc);
        numbers.push(failing)?;
        Ok(Disk {
            old: Vec::from_slice(alloc, b"old bytes")?,
            new: Vec::new(alloc),
            is_new_there: false,
            calls: Vec::new(alloc),
            failing: numbers,
            kind,
        })
    }

    fn note(&mut self, call: FileCall) -> io::Result<()> {
        let number = self.calls.len();
        self.calls.push(call)?;
        if self.failing.contains(&number) {
            return Err(io::Error::from(self.kind));
        }
        Ok(())
    }

    fn give(&mut self, into: &mut [u8], at: usize) -> io::Result<usize>
        ensures { ReadsAtMost result into.new }
    {
        self.note(FileCall::Read)?;
        let rest = self.old.get(at..).unwrap_or(&[]);
        let count = rest.len().min(into.len()).min(4);
        into[..count].copy_from_slice(&rest[..count]);
        Ok(count)
    }

    fn take(&mut self, piece: &[u8]) -> io::Result<usize>
        ensures { WritesAtMost result piece.now }
    {
        self.note(FileCall::Write)?;
        let count = piece.len().min(3);
        self.new.extend_from_slice(&piece[..count])?;
        Ok(count)
    }

    fn rename(&mut self) -> io::Result<()> {
        self.note(FileCall::Rename)?;
        if !self.is_new_there {
            return Err(io::Error::from(ErrorKind::NotFound));
        }
        self.old.clear();
        self.old.extend_from_slice(&self.new)?;
        self.is_new_there = false;
        Ok(())
    }

    fn remove(&mut self) -> io::Result<()> {
        self.note(FileCall::Remove)?;
        self.is_new_there = false;
        Ok(())
    }

    fn create(&mut self) -> io::Result<()> {
        self.note(FileCall::Create)?;
        self.is_new_there = true;
        Ok(())
    }
}

// The disk, to be changed.
fn lent(disk: &RefCell<Disk>) -> io::Result<RefMut<'_, Disk>> {
    match disk.try_borrow_mut() {
        Ok(lent) => Ok(lent),
        Err(_) => Err(io::Error::from(ErrorKind::ResourceBusy)),
    }
}

// The files of a disk.
#[derive(Drop)]
pub struct FakeFiles<'a> {
    pub disk: &'a RefCell<Disk>,
}

// Which file is open.
#[derive(Clone, Copy, PartialEq, Eq)]
enum Which {
    Old,
    New,
    Folder,
}

// An open file.
#[derive(Drop)]
pub struct FakeFile<'a> {
    disk: &'a RefCell<Disk>,
    which: Which,
    at: usize,
}

impl Read for FakeFile<'_> {
    fn read(&mut self, buf: &mut [u8]) -> io::Result<usize> {
        let count = lent(self.disk)?.give(buf, self.at)?;
        self.at = self.at.saturating_add(count);
        Ok(count)
    }
}

impl Write for FakeFile<'_> {
    fn write(&mut self, buf: &[u8]) -> io::Result<usize> {
        lent(self.disk)?.take(buf)
    }

    fn flush(&mut self) -> io::Result<()> {
        lent(self.disk)?.note(FileCall::Flush)
    }
}

impl Seek for FakeFile<'_> {
    fn seek(&mut self, _to: SeekFrom) -> io::Result<u64> {
        Err(unsupported())
    }
}

impl OpenFile for FakeFile<'_> {
    fn metadata(&self) -> io::Result<Metadata> {
        Err(unsupported())
    }

    fn set_len(&self, _size: u64) -> io::Result<()> {
        Err(unsupported())
    }

    fn sync_all(&self) -> io::Result<()> {
        let call = if self.which == Which::Folder {
            FileCall::SyncFolder
        } else {
            FileCall::Sync
        };
        lent(self.disk)?.note(call)
    }

    fn sync_data(&self) -> io::Result<()> {
        Err(unsupported())
    }

    fn set_permissions(&self, _perm: Permissions) -> io::Result<()> {
        lent(self.disk)?.note(FileCall::Permit)
    }
}

impl FakeFiles<'_> {
    fn opened(&self, how: &OpenOptions, path: &str) -> io::Result<Which> {
        let mut disk = lent(self.disk)?;
        if how.asks_create_new() {
            disk.create()?;
            Ok(Which::New)
        } else if path == FOLDER {
            disk.note(FileCall::Folder)?;
            Ok(Which::Folder)
        } else {
            disk.note(FileCall::Open)?;
            Ok(Which::Old)
        }
    }
}

impl<'a> Files for FakeFiles<'a> {
    type File = FakeFile<'a>;

    type Dir = FakeFile<'a>;

    fn open_file(&self, how: &OpenOptions, path: &str) -> io::Result<FakeFile<'a>> {
        let which = self.opened(how, path)?;
        Ok(FakeFile {
            disk: self.disk,
            which,
            at: 0,
        })
    }

    fn open_dir(&self, _path: &str) -> io::Result<FakeFile<'a>> {
        Err(unsupported())
    }

    fn metadata(&self, _path: &str) -> io::Result<Metadata> {
        lent(self.disk)?.note(FileCall::Metadata)?;
        Ok(Metadata::of_file(9))
    }

    fn symlink_metadata(&self, _path: &str) -> io::Result<Metadata> {
        lent(self.disk)?.note(FileCall::Look)?;
        Ok(Metadata::of_file(9))
    }

    fn copy(&self, _from: &str, _to: &str) -> io::Result<u64> {
        Err(unsupported())
    }

    fn rename(&self, _from: &str, _to: &str) -> io::Result<()> {
        lent(self.disk)?.rename()
    }

    fn remove_file(&self, _path: &str) -> io::Result<()> {
        lent(self.disk)?.remove()
    }

    fn create_dir(&self, _new: &str) -> io::Result<()> {
        Err(unsupported())
    }

    fn remove_dir(&self, _old: &str) -> io::Result<()> {
        Err(unsupported())
    }

    fn remove_dir_all<B: Allocator>(&self, _alloc: B, _path: &str) -> io::Result<()> {
        Err(unsupported())
    }
}

// What a call that no test makes returns.
fn unsupported() -> io::Error {
    io::Error::from(ErrorKind::Unsupported)
}
