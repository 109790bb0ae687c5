// A row, as far as it is read.
use crate::escapes::push_unescaped;
use crate::lines::{Mark, Spelling};
use crate::report::push_text;
use std::alloc::Global;
use tx_outside::{MemStore, Store, StoredFile};

// The lines of one mark: their bytes, with newlines between them, and where in the file each line begins.
#[derive(Drop)]
pub struct Lines {
    pub bytes: Vec<u8>,
    pub numbers: Vec<usize>,
}

impl Lines {
    pub fn new(alloc: Global) -> Lines {
        Lines {
            bytes: Vec::new(alloc),
            numbers: Vec::new(alloc),
        }
    }

    pub fn is_empty(&self) -> bool {
        self.numbers.is_empty()
    }

    fn begin_line(&mut self, number: usize) -> Option<()> {
        if !self.is_empty() {
            self.bytes.push(b'\n').ok()?;
        }
        self.numbers.push(number).ok()
    }

    // Appends the text so many times to the last line.
    fn repeat(&mut self, number: usize, text: &str, times: u32) -> Option<()> {
        if self.is_empty() {
            self.numbers.push(number).ok()?;
        }
        for _ in 0..times {
            push_unescaped(text, &mut self.bytes)?;
        }
        Some(())
    }

    // Adds the text of the file's line of this number.
    fn add(&mut self, number: usize, text: &str, spelling: Spelling) -> Option<()> {
        match spelling {
            Spelling::Plain => {
                self.begin_line(number)?;
                self.bytes.extend_from_slice(text.as_bytes()).ok()
            }
            Spelling::Escaped => {
                self.begin_line(number)?;
                push_unescaped(text, &mut self.bytes)
            }
            Spelling::Repeated(times) => self.repeat(number, text, times),
        }
    }

    fn clear(&mut self) {
        self.bytes.clear();
        self.numbers.clear();
    }
}

// A row, as far as it is read.
#[derive(Drop)]
pub struct Row {
    // The files that are read as a whole.
    pub files: Vec<StoredFile>,
    // The name of the file whose lines are being read; empty where there is none.
    name: Vec<u8>,
    // The lines of that file, or what else there is before.
    pub given: Lines,
    pub asked: Lines,
    pub wanted: Lines,
    // The names of the files whose bytes are compared after the run.
    pub saved: Vec<Vec<u8>>,
    // The number of the row's first line.
    pub begins: usize,
}

impl Row {
    pub fn new(alloc: Global) -> Row {
        Row {
            files: Vec::new(alloc),
            name: Vec::new(alloc),
            given: Lines::new(alloc),
            asked: Lines::new(alloc),
            wanted: Lines::new(alloc),
            saved: Vec::new(alloc),
            begins: 0,
        }
    }

    pub fn is_empty(&self) -> bool {
        self.files.is_empty()
            && self.name.is_empty()
            && self.given.is_empty()
            && self.asked.is_empty()
            && self.wanted.is_empty()
    }

    // Whether lines of a file are being read.
    pub fn is_in_file(&self) -> bool {
        !self.name.is_empty()
    }

    // Adds the text of the file's line of this number.
    pub fn add(&mut self, number: usize, mark: Mark, text: &str, spelling: Spelling) -> Option<()> {
        match mark {
            Mark::Given => self.given.add(number, text, spelling),
            Mark::Asked => self.asked.add(number, text, spelling),
            Mark::Wanted => self.wanted.add(number, text, spelling),
        }
    }

    // All lines of the file that was being read are there.
    pub fn end_file(&mut self, alloc: Global) -> Option<()> {
        if !self.name.is_empty() {
            let name = Vec::from_slice(alloc, &self.name).ok()?;
            let bytes = Vec::from_slice(alloc, &self.given.bytes).ok()?;
            self.files.push(StoredFile::new(name, bytes)).ok()?;
            self.name.clear();
            self.given.clear();
        }
        Some(())
    }

    // A file of this name begins.
    pub fn begin_file(&mut self, alloc: Global, name: &str) -> Option<()> {
        self.end_file(alloc)?;
        self.name.extend_from_slice(name.as_bytes()).ok()
    }

    // The bytes of the file of this name are wanted too.
    pub fn begin_saved(&mut self, alloc: Global, number: usize, name: &str) -> Option<()> {
        self.wanted.begin_line(number)?;
        push_saved(name.as_bytes(), &mut self.wanted.bytes)?;
        let name = Vec::from_slice(alloc, name.as_bytes()).ok()?;
        self.saved.push(name).ok()
    }

    // Nothing is left of the row.
    pub fn clear(&mut self, alloc: Global) {
        self.files = Vec::new(alloc);
        self.name.clear();
        self.given.clear();
        self.asked.clear();
        self.wanted.clear();
        self.saved = Vec::new(alloc);
    }
}

// Appends the line, without its newline, that comes before the bytes of a saved file.
pub fn push_saved(name: &[u8], out: &mut Vec<u8>) -> Option<()> {
    out.extend_from_slice(b"saved ").ok()?;
    out.extend_from_slice(name).ok()
}

/// The words of a command line, of which the first is the program's name; `""` is an empty one.
pub fn command_words(alloc: Global, words: &str) -> Option<Vec<String>> {
    let mut all = Vec::new(alloc);
    all.push(String::from_str(alloc, "tmx").ok()?).ok()?;
    for word in words.split_whitespace() {
        let word = if word == "\"\"" { "" } else { word };
        all.push(String::from_str(alloc, word).ok()?).ok()?;
    }
    Some(all)
}

/// A store of the files. Of two with one name it has the later one.
pub fn store_of(alloc: Global, files: &[StoredFile]) -> Option<MemStore> {
    let mut store = MemStore::new(Vec::new(alloc), Vec::new(alloc));
    for file in files {
        store.save(file.name(), file.bytes()).ok()?;
    }
    Some(store)
}

// Appends a line with the file's name, and its bytes, or `none`.
fn push_file(store: &MemStore, name: &[u8], out: &mut Vec<u8>) -> Option<()> {
    push_saved(name, out)?;
    push_text("\n", out)?;
    match store.file(name) {
        Some(bytes) => out.extend_from_slice(bytes).ok(),
        None => push_text("none\n", out),
    }
}

/// Appends for each name a line with it, and the bytes of the file of this name, or `none`.
pub fn push_files(store: &MemStore, names: &[Vec<u8>], out: &mut Vec<u8>) -> Option<()> {
    for name in names {
        push_file(store, name, out)?;
    }
    Some(())
}
