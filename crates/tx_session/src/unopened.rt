// What a run writes where nothing was opened.
ghost use Rattle.std.specs.Prelude.{◌≡◌, ◌++◌, IfOk};
ghost use Rattle.tx_open.specs.Openings.{open_outcome};
ghost use Rattle.tx_open.specs.Outcomes.{no_tree};
ghost use Rattle.tx_print.specs.Lines.{line};
ghost use Rattle.tx_session.specs.Outcomes.{status_of, outcome_text};

use crate::fault_lines::line_of_fault;
use crate::status::Status;
use std::alloc::Global;
use tx_base::Memory;
use tx_open::Opening;
use tx_tree::ReadFault;

/// How the program is called, as a line.
pub(crate) const USAGE: &[u8] = b"usage: tmx [--width N] [--height N] FILE [STYLE]...\n";

/// That memory ran out, as a line.
pub(crate) const OUT_OF_MEMORY: &[u8] = b"memory\n";

// A line: a word, the file's word and the rest.
fn line_of(alloc: Global, word: &[u8], file: &[u8], rest: &[u8]) -> Result<Vec<u8>, Memory>
    ensures { IfOk result (λ text. text.items ≡ line (word.now ++ (file.now ++ rest.now))) }
{
    let mut text = Vec::from_slice(alloc, word)?;
    text.extend_from_slice(file)?;
    text.extend_from_slice(rest)?;
    text.push(b'\n')?;
    Ok(text)
}

/// The status with which the run ends, or `Ok` where files were opened or a document was generated.
pub(crate) fn status_of(opening: &Opening) -> Status
    ensures { result ≡ status_of (open_outcome opening.now) }
{
    match opening {
        Opening::FaultyWords => Status::Words,
        Opening::TooLong(_) | Opening::NoTree(..) => Status::Refused,
        Opening::Missing(_) => Status::Missing,
        Opening::StoreFault(_) => Status::StoreFault,
        Opening::UnreadWords | Opening::NoMemory => Status::NoMemory,
        Opening::Opened(_) | Opening::Generated(_) => Status::Ok,
    }
}

// The line that says why a file wasn't read.
fn refused_line(alloc: Global, file: &[u8], fault: ReadFault) -> Result<Vec<u8>, Memory>
    ensures { IfOk result (λ text. text.items ≡ outcome_text (no_tree file.now fault)) }
{
    let mut words = Vec::from_slice(alloc, b"refused ")?;
    words.extend_from_slice(file)?;
    words.push(b' ')?;
    line_of_fault(alloc, &words, fault)
}

/// What the run writes where nothing was opened.
pub(crate) fn text_of(alloc: Global, opening: &Opening) -> Result<Vec<u8>, Memory>
    ensures { IfOk result (λ text. text.items ≡ outcome_text (open_outcome opening.now)) }
{
    match opening {
        Opening::FaultyWords => Ok(Vec::from_slice(alloc, USAGE)?),
        Opening::Missing(file) => line_of(alloc, b"missing ", file, b""),
        Opening::TooLong(file) => line_of(alloc, b"refused ", file, b" long"),
        Opening::NoTree(file, fault) => refused_line(alloc, file, *fault),
        Opening::StoreFault(file) => line_of(alloc, b"store ", file, b""),
        Opening::UnreadWords | Opening::NoMemory => line_of(alloc, b"memory", b"", b""),
        Opening::Opened(_) | Opening::Generated(_) => Ok(Vec::new(alloc)),
    }
}
