// The texts of the status line.
use crate::desk::Desk;
use crate::modes::{Mode, Question};
use std::alloc::Global;
use std::str;
use tx_base::Memory;
use tx_items::ErrorAt;
use tx_tree::Path;
use tx_view::View;

/// Bytes as a text that can be shown: in UTF-8 as they are, and else with a question mark for each byte above 126.
pub(crate) fn printable(alloc: Global, bytes: &[u8]) -> Result<String, Memory> {
    if let Ok(text) = str::from_utf8(bytes) {
        return Ok(String::from_str(alloc, text)?);
    }
    let mut text = String::new(alloc);
    for byte in bytes {
        let shown = if *byte < 127 { *byte as char } else { '?' };
        text.push(shown)?;
    }
    Ok(text)
}

/// What is asked, before what is typed.
fn question_text(question: Question) -> &'static str {
    match question {
        Question::Line => "Command: ",
        Question::Name => "Save as: ",
        Question::Find => "Find: ",
    }
}

/// The column after what has been typed in the status line.
pub(crate) fn typed_columns(question: Question, typed: &[u32]) -> u32 {
    let columns = question_text(question).len().saturating_add(typed.len());
    u32::try_from(columns).unwrap_or(u32::MAX)
}

// A question with what has been typed.
fn asked_text(alloc: Global, question: Question, typed: &[u32]) -> Result<String, Memory> {
    let mut text = String::from_str(alloc, question_text(question))?;
    for code in typed {
        text.push(char::from_u32(*code).unwrap_or('?'))?;
    }
    Ok(text)
}

/// An error in a line: the path of its paragraph, its kind, and more about it.
pub(crate) fn error_text(
    alloc: Global,
    path: Option<&Path>,
    error: &ErrorAt,
) -> Result<String, Memory> {
    let kind = printable(alloc, error.kind.bytes())?;
    let detail = printable(alloc, error.detail.bytes())?;
    match path {
        Some(path) => Ok(format!(in alloc; "{path} {kind} {detail}")?),
        None => Ok(format!(in alloc; "- {kind} {detail}")?),
    }
}

// The file and whether it may have changed, the page, the row and the column, the errors, and the tags round the cursor.
fn place_text(
    alloc: Global,
    view: &View,
    desk: &Desk,
    cell: Option<(u32, u32)>,
    page: u32,
    tags: &[u8],
) -> Result<String, Memory> {
    let word = if desk.word.is_empty() {
        String::from_str(alloc, "(no name)")?
    } else {
        printable(alloc, &desk.word)?
    };
    let tags = printable(alloc, tags)?;
    let mark = if desk.edited { "*" } else { "" };
    let (pages, errors) = (view.pages().len(), view.errors());
    let page = page.saturating_add(1);
    let Some((row, column)) = cell else {
        return Ok(format!(in alloc; "{word}{mark}  page {page}/{pages}  errors {errors} {tags}")?);
    };
    let (row, column) = (row.saturating_add(1), column.saturating_add(1));
    Ok(format!(in alloc;
        "{word}{mark}  page {page}/{pages}  row {row}  column {column}  errors {errors} {tags}"
    )?)
}

/// The text of the status line: a question, or what the last key came to, or where the cursor is.
pub(crate) fn status_text(
    alloc: Global,
    view: &View,
    desk: &Desk,
    cell: Option<(u32, u32)>,
    page: u32,
    tags: &[u8],
) -> Result<String, Memory> {
    if !desk.message.is_empty() {
        return printable(alloc, &desk.message);
    }
    match &desk.mode {
        Mode::Asked(question, typed) => asked_text(alloc, *question, typed),
        _ => place_text(alloc, view, desk, cell, page, tags),
    }
}
