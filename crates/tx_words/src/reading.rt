// The words as a whole.
ghost use Rattle.std.specs.Prelude.{◌≡◌, ◌≢◌, ◌<◌, ◌≤◌, ◌↔◌, ◌^◌, IsTrue, true, false, ◌++◌, [], ◌∷◌, map, length};
ghost use Rattle.std.specs.Prelude.{IfOk, IsErrOf, OnOk, Some, option_map, unwrap_or, ℕ};
ghost use Rattle.std.specs.String.{string_bytes};
ghost use Rattle.std.specs.List.{AllByRecursion};
ghost use Rattle.clap.specs.Words.{all_of, first_of, found_of, rows_of};
ghost use Rattle.tx_words.specs.Words.{Ask, AreFaulty, HaveNames, IfFiles, IfGenerated, IsSource, MayOpen};
ghost use Rattle.tx_words.specs.Words.{AreNamedApart, RowsAsk, is_generator, named_file, styles_in};
ghost use Rattle.tx_words.specs.declared.asked.Source.{Source as Asked};
ghost use Rattle.tx_words.specs.Seen.{named_of};

use crate::MOST_FILES;
use crate::asked::{FileWord, FileWords, Source, Words};
use crate::faults::WordsFault;
use crate::generators::{behind_gen, numbers};
use crate::names::buffer_name;
use crate::parsing::parse;
use crate::sizes::size;
use clap::ArgMatches;
use std::alloc::Global;
use tx_base::Memory;

// The word, with its buffer's name.
fn file_word<'a>(word: &'a str) -> FileWord<'a>
    ensures { named_of result ≡ named_file word.now }
{
    FileWord {
        word,
        name: buffer_name(word.as_bytes()),
    }
}

// Puts the words after the files.
fn push_all<'a>(files: &mut Vec<FileWord<'a>>, words: &[&'a str]) -> Result<(), Memory>
    ensures { OnOk result
        (map named_of files.new.items ≡ map named_of files.old.items ++ map named_file (map (λ w. w.now) words.now)) }
{
    for word in words {
        files.push(file_word(word))?;
    }
    Ok(())
}

// Whether each of the files has a name.
fn have_names(files: &[FileWord]) -> bool
    ensures { IsTrue result ↔ HaveNames (map named_of files.now) }
{
    for file in files {
        if file.name.is_empty() {
            return false;
        }
    }
    true
}

/// Whether none of the files has the name.
pub(crate) fn is_free(name: &[u8], files: &[FileWord]) -> bool
    ensures { IsTrue result ↔ AllByRecursion (λ other. other.name ≢ name.now) (map named_of files.now) }
{
    for other in files {
        if other.name == name {
            return false;
        }
    }
    true
}

// Whether no two files have one name.
fn names_differ(files: &[FileWord]) -> bool
    ensures { IsTrue result ↔ AreNamedApart (map named_of files.now) }
{
    for (i, file) in files.iter().enumerate() {
        if !is_free(file.name, &files[i + 1..]) {
            return false;
        }
    }
    true
}

// Whether the files are few enough, and each has a name of its own.
fn may_open(files: &[FileWord]) -> bool
    ensures { IsTrue result ↔ MayOpen (map named_of files.now) }
{
    files.len() <= MOST_FILES && have_names(files) && names_differ(files)
}

// The value of an argument that has one at most.
fn value<'a>(matches: &ArgMatches<'a>, id: &str) -> Option<&'a str>
    ensures { option_map (λ s. s.now) result ≡ first_of id.now (rows_of (found_of matches.now)) }
{
    matches.get_str(id)
}

// Puts the values of an argument after the files.
fn push_values<'a>(
    files: &mut Vec<FileWord<'a>>,
    matches: &ArgMatches<'a>,
    id: &str,
) -> Result<(), Memory>
    ensures { OnOk result (map named_of files.new.items ≡ map named_of files.old.items
        ++ map named_file (unwrap_or (all_of id.now (rows_of (found_of matches.now))) [])) }
{
    match matches.get_raw(id) {
        Some(values) => push_all(files, values),
        None => Ok(()),
    }
}

/// The document's file, and the files of styles after it.
pub(crate) fn files_of<'a>(
    alloc: Global,
    document: &'a str,
    matches: &ArgMatches<'a>,
) -> Result<Vec<FileWord<'a>>, Memory>
    ensures { IfOk result (λ files. map named_of files.items
        ≡ map named_file (document.now ∷ styles_in (rows_of (found_of matches.now)))) }
{
    let mut files = Vec::new(alloc);
    files.push(file_word(document))?;
    push_values(&mut files, matches, "STYLE")?;
    Ok(files)
}

// The document's file and the files of styles, where the document's word names a file.
fn files_source<'a>(
    alloc: Global,
    document: &'a str,
    matches: &ArgMatches<'a>,
) -> Result<Source<'a>, WordsFault>
    requires { is_generator document.now ≡ false }
    ensures named { IfOk result
        (λ source. IsSource (Some document.now) (styles_in (rows_of (found_of matches.now))) source) }
    ensures faulty { IsErrOf result WordsFault.Faulty
        → (source : Asked) → IsSource (Some document.now) (styles_in (rows_of (found_of matches.now))) source → ⊥ }
{
    let files = files_of(alloc, document, matches)?;
    if !may_open(&files) {
        return Err(WordsFault::Faulty);
    }
    Ok(Source::Files(FileWords::from(files)))
}

/// Whether styles are given.
pub(crate) fn has_styles(matches: &ArgMatches) -> bool
    ensures some { result ≡ true → styles_in (rows_of (found_of matches.now)) ≢ [] }
    ensures none { result ≡ false → styles_in (rows_of (found_of matches.now)) ≡ [] }
{
    match matches.get_raw("STYLE") {
        Some(values) => !values.is_empty(),
        None => false,
    }
}

// What the document's word and the styles after it ask for.
fn source_of<'a>(
    alloc: Global,
    document: &'a str,
    matches: &ArgMatches<'a>,
) -> Result<Source<'a>, WordsFault>
    ensures named { IfOk result
        (λ source. IsSource (Some document.now) (styles_in (rows_of (found_of matches.now))) source) }
    ensures faulty { IsErrOf result WordsFault.Faulty
        → (source : Asked) → IsSource (Some document.now) (styles_in (rows_of (found_of matches.now))) source → ⊥ }
{
    let Some(rest) = behind_gen(document) else {
        return files_source(alloc, document, matches);
    };
    if has_styles(matches) {
        return Err(WordsFault::Faulty);
    }
    match numbers(rest) {
        Some((number, count)) => Ok(Source::Generated { number, count }),
        None => Err(WordsFault::Faulty),
    }
}

// What is asked for by what was found in the words.
fn asked_by<'a>(alloc: Global, matches: &ArgMatches<'a>) -> Result<Words<'a>, WordsFault>
    ensures asked { IfOk result
        (λ asked. RowsAsk (rows_of (found_of matches.now)) asked.width asked.height asked.source) }
    ensures faulty { IsErrOf result WordsFault.Faulty
        → (width height : ℕ) (source : Asked) → RowsAsk (rows_of (found_of matches.now)) width height source → ⊥ }
{
    let Some(width) = size(value(matches, "width"), 80, 20, 500) else {
        return Err(WordsFault::Faulty);
    };
    let Some(height) = size(value(matches, "height"), 24, 5, 500) else {
        return Err(WordsFault::Faulty);
    };
    let Some(document) = value(matches, "FILE") else {
        return Err(WordsFault::Faulty);
    };
    let source = source_of(alloc, document, matches)?;
    Ok(Words {
        width,
        height,
        source,
    })
}

/// What the words ask for, the program's name first: `tmx [--width N] [--height N] FILE [STYLE]...`. A number is one
/// to ten digits. A width is 20 to 500 cells, and 80 where none is given; a height is 5 to 500 lines, and 24. There are
/// 1 to 64 files, each with a buffer's name of its own. A FILE that begins with `gen:` names no file: it is `gen:`, a
/// number below 2^31, `:` and a number from 1 to 60,000, and no style follows. All other words are faulty, those that
/// ask for help too.
pub fn read_words<'a>(alloc: Global, words: &'a [String]) -> Result<Words<'a>, WordsFault>
    ensures asked { IfOk result (λ asked. Ask (map string_bytes words.now) asked.width asked.height asked.source) }
    ensures faulty { IsErrOf result WordsFault.Faulty → AreFaulty (map string_bytes words.now) }
    ensures width { IfOk result (λ asked. (20 ≤ asked.width) × (asked.width ≤ 500)) }
    ensures height { IfOk result (λ asked. (5 ≤ asked.height) × (asked.height ≤ 500)) }
    ensures files { IfOk result
        (λ asked. IfFiles asked.source (λ files. (1 ≤ length files) × (length files ≤ MOST_FILES))) }
    ensures names { IfOk result (λ asked. IfFiles asked.source AreNamedApart) }
    ensures number { IfOk result (λ asked. IfGenerated asked.source (λ number count. number < 2 ^ 31)) }
    ensures count { IfOk result
        (λ asked. IfGenerated asked.source (λ number count. (1 ≤ count) × (count ≤ 60000))) }
{
    let matches = parse(alloc, words)?;
    asked_by(alloc, &matches)
}
