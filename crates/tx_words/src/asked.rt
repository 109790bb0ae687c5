// What the words ask for.
ghost use Rattle.std.specs.Prelude.{◌≡◌, map};
ghost use Rattle.tx_words.specs.Seen.{named_of};

use std::marker::Model;

/// A word that names a file, and the name of the buffer that is read from it.
#[derive(Clone, Copy, Debug, Drop)]
pub struct FileWord<'a> {
    /// The word.
    pub word: &'a str,
    /// The buffer's name, as `buffer_name` gives it.
    pub name: &'a [u8],
}

/// Words that name files, in their order.
///
/// Contracts see the list of the words, each with its buffer's name.
#[derive(Debug, Drop)]
pub struct FileWords<'a> {
    files: Vec<FileWord<'a>>,
}

impl<'a> Model for FileWords<'a> {
    ghost use Rattle.std.specs.Prelude.{List, map};
    ghost use Rattle.tx_words.specs.Names.{Named};
    ghost use Rattle.tx_words.specs.Seen.{named_of};

    ghost Value = { List Named };

    ghost view = { λ f. map named_of f.files.items };
}

impl<'a> FileWords<'a> {
    /// The files.
    pub fn as_slice(&self) -> &[FileWord<'a>]
        ensures { map named_of result.now ≡ self.now }
    {
        &self.files
    }
}

impl<'a> From<Vec<FileWord<'a>>> for FileWords<'a> {
    ghost use Rattle.std.specs.Prelude.{◌≡◌, map};
    ghost use Rattle.tx_words.specs.Seen.{named_of};

    ghost from_gives = { λ files all. all ≡ map named_of files.items };

    fn from(files: Vec<FileWord<'a>>) -> FileWords<'a> {
        FileWords { files }
    }
}

/// What is to be opened.
#[derive(Debug, Drop)]
pub enum Source<'a> {
    /// The document and the styles after it, 1 to 64 files, no two of one name.
    Files(FileWords<'a>),
    /// A document that is generated.
    Generated {
        /// From this number, below 2^31.
        number: u32,
        /// With so many paragraphs, 1 to 60,000.
        count: u32,
    },
}

/// What the words of a command line ask for.
#[derive(Debug, Drop)]
pub struct Words<'a> {
    /// The width of a page, 20 to 500 cells.
    pub width: u32,
    /// The height of a page, 5 to 500 lines.
    pub height: u32,
    /// What is to be opened.
    pub source: Source<'a>,
}
