// Modifications of trees: what they make, what takes them back, and where places and paths go.
use std::alloc::Global;
use std::sync::ledger::Ledger;
use tx_base::Steps;
use tx_cmd::Command;
use tx_mod::{ApplyFault, Mod, ModFault, applicable, apply_and_inverse, carried, moved};
use tx_row_files::{Row, push_number, push_text};
use tx_tree::{Path, Place, Tree};

// The bytes before the first newline, and those after it.
fn cut_line(bytes: &[u8]) -> (&[u8], &[u8]) {
    match bytes.iter().position(|byte| *byte == b'\n') {
        Some(at) => (&bytes[..at], &bytes[at + 1..]),
        None => (bytes, &bytes[bytes.len()..]),
    }
}

// Appends a path, or `-` where there is none.
fn push_path(alloc: Global, path: Option<&Path>, out: &mut Vec<u8>) -> Option<()> {
    match path {
        None => push_text("-", out),
        Some(path) => {
            let text = format!(in alloc; "{path}").ok()?;
            push_text(&text, out)
        }
    }
}

// Appends the first word of a command line, its path, and its numbers.
fn push_command(
    alloc: Global,
    word: &str,
    path: &Path,
    numbers: &[u32],
    out: &mut Vec<u8>,
) -> Option<()> {
    push_text(word, out)?;
    push_text(" ", out)?;
    push_path(alloc, Some(path), out)?;
    for number in numbers {
        push_text(" ", out)?;
        push_number(alloc, *number as usize, out)?;
    }
    Some(())
}

// Appends a space and what a command line has last: the text of a tree, or a label.
fn push_tree(tree: &Tree, out: &mut Vec<u8>) -> Option<()> {
    push_text(" ", out)?;
    tx_scm::write(tree, out).ok()
}

// Appends the modification as a command line.
fn push_mod(alloc: Global, m: &Mod, out: &mut Vec<u8>) -> Option<()> {
    match m {
        Mod::Assign(path, tree) => {
            push_command(alloc, "assign", path, &[], out)?;
            push_tree(tree, out)
        }
        Mod::Insert(path, i, tree) => {
            push_command(alloc, "insert", path, &[*i], out)?;
            push_tree(tree, out)
        }
        Mod::Remove(path, i, n) => push_command(alloc, "remove", path, &[*i, *n], out),
        Mod::Split(path, i, j) => push_command(alloc, "split", path, &[*i, *j], out),
        Mod::Join(path, i) => push_command(alloc, "join", path, &[*i], out),
        Mod::AssignNode(path, label) => {
            push_command(alloc, "assign-node", path, &[], out)?;
            push_text(" ", out)?;
            out.extend_from_slice(label.bytes()).ok()
        }
        Mod::InsertNode(path, i, tree) => {
            push_command(alloc, "insert-node", path, &[*i], out)?;
            push_tree(tree, out)
        }
        Mod::RemoveNode(path, i) => push_command(alloc, "remove-node", path, &[*i], out),
    }
}

// The words of a refusal, and the number that follows them where there is one.
fn words_of(cause: ModFault) -> (&'static str, Option<u64>) {
    match cause {
        ModFault::NoPath(n) => ("no path-end", Some(u64::from(n))),
        ModFault::NotString => ("no not-string", None),
        ModFault::NotNode => ("no not-node", None),
        ModFault::BadPlace(n) => ("no bad-place", Some(n)),
        ModFault::Differ => ("no differ", None),
        ModFault::CutsSymbol(n) => ("no cuts-symbol", Some(n)),
        ModFault::TooLong(n) => ("no too-long", Some(n)),
        ModFault::TooWide(n) => ("no too-wide", Some(n)),
        ModFault::TooDeep(n) => ("no too-deep", Some(n)),
        ModFault::TooBig(n) => ("no too-big", Some(n)),
    }
}

// Appends the refusal as the editor prints it.
fn push_refusal(alloc: Global, cause: ModFault, out: &mut Vec<u8>) -> Option<()> {
    let (words, number) = words_of(cause);
    push_text(words, out)?;
    if let Some(number) = number {
        push_text(" ", out)?;
        push_number(alloc, number as usize, out)?;
    }
    push_text("\n", out)
}

// Appends the changed tree, and the modification that takes the change back.
fn push_change(alloc: Global, changed: &Tree, undo: &Mod, out: &mut Vec<u8>) -> Option<()> {
    tx_scm::write(changed, out).ok()?;
    push_text("\nundo ", out)?;
    push_mod(alloc, undo, out)?;
    push_text("\n", out)
}

// Where the place goes that these words spell. None where they spell no place of the tree.
fn moved_place(alloc: Global, tree: &Tree, m: &Mod, words: &[u8]) -> Option<Place> {
    let mut path = Path::parse(alloc, words).ok()?;
    let offset = path.pop()?;
    let place = Place { path, offset };
    place.check(tree).ok()?;
    applicable(tree, m).ok()?;
    moved(alloc, tree, m, &place).ok()
}

// Where the path goes that these words spell, if it goes anywhere. None where they spell no path of the tree.
fn carried_path(alloc: Global, tree: &Tree, m: &Mod, words: &[u8]) -> Option<Option<Path>> {
    let path = Path::parse(alloc, words).ok()?;
    tree.at(&path)?;
    applicable(tree, m).ok()?;
    carried(alloc, tree, m, &path).ok()
}

// Appends where the place or path goes that the line asks for.
fn push_moved(alloc: Global, tree: &Tree, m: &Mod, line: &[u8], out: &mut Vec<u8>) -> Option<()> {
    if let Some(words) = line.strip_prefix(b"place ") {
        let place = moved_place(alloc, tree, m, words)?;
        let text = format!(in alloc; "place {place}\n").ok()?;
        return push_text(&text, out);
    }
    let words = line.strip_prefix(b"path ")?;
    let path = carried_path(alloc, tree, m, words)?;
    push_text("path ", out)?;
    push_path(alloc, path.as_ref(), out)?;
    push_text("\n", out)
}

// Appends where the places and paths go that the lines ask for.
fn push_all_moved(
    alloc: Global,
    tree: &Tree,
    m: &Mod,
    lines: &[u8],
    out: &mut Vec<u8>,
) -> Option<()> {
    for line in lines.split(|byte| *byte == b'\n') {
        if !line.is_empty() {
            push_moved(alloc, tree, m, line, out)?;
        }
    }
    Some(())
}

// Appends what the modification makes of the tree, what takes it back, and where places and paths go; or the refusal.
pub(crate) fn answer_apply<L: Ledger>(
    alloc: Global,
    row: &Row,
    out: &mut Vec<u8>,
    steps: &mut Steps<L>,
) -> Option<()> {
    let tree = tx_scm::read(alloc, &row.given.bytes, steps).ok()?;
    let (line, places) = cut_line(&row.asked.bytes);
    let Command::Change(m) = tx_cmd::parse(alloc, line, steps).ok()? else {
        return None;
    };
    match apply_and_inverse(alloc, &tree, &m, steps) {
        Ok((changed, undo)) => {
            push_change(alloc, &changed, &undo, out)?;
            push_all_moved(alloc, &tree, &m, places, out)
        }
        Err(ApplyFault::Refused(cause)) => push_refusal(alloc, cause, out),
        Err(ApplyFault::Memory) => None,
    }
}
