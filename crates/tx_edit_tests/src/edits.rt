// Edits of several modifications.
ghost use Rattle.std.specs.Prelude.{◌<◌, length};

use std::alloc::Global;
use std::marker::Brand;
use std::sync::ledger::{Blank, Ledger};
use tx_base::Steps;
use tx_cmd::{Command, parse};
use tx_mod::{ApplyFault, Mod, ModFault, ModList};
use tx_samples::{Row, buffer_of, first_untrue, tree_of};
use tx_state::{Edit, EditorState, UndoFault};
use tx_tree::{Path, Tree};

const DOCUMENT: &str = "(document \"ab\")";

const STYLE: &str = "(document \"style\")";

// The state with the document, and the style beside it.
fn opened<L: Ledger>(alloc: Global, steps: &mut Steps<L>) -> Option<EditorState> {
    let document = buffer_of(alloc, "d", DOCUMENT, steps)?;
    let style = buffer_of(alloc, "s", STYLE, steps)?;
    let buffers = vec![in alloc; document, style].ok()?;
    EditorState::open(alloc, buffers).ok()
}

// The modification that a command line spells.
fn mod_of<L: Ledger>(alloc: Global, line: &str, steps: &mut Steps<L>) -> Option<Mod> {
    match parse(alloc, line.as_bytes(), steps).ok()? {
        Command::Change(m) => Some(m),
        _ => None,
    }
}

// A copy of those that lines spell, with ` & ` between them.
fn mods_of<L: Ledger>(alloc: Global, lines: &str, steps: &mut Steps<L>) -> Option<ModList> {
    let mut mods = Vec::new(alloc);
    for line in lines.split(" & ") {
        mods.push(mod_of(alloc, line, steps)?).ok()?;
    }
    ModList::from(mods).copy(alloc).ok()
}

// Makes them in one edit of a buffer.
fn edit<L: Ledger>(
    alloc: Global,
    state: &mut EditorState,
    buffer: u32,
    mods: ModList,
    steps: &mut Steps<L>,
) -> Result<(), ApplyFault>
    requires { buffer < length state.old.buffers }
{
    let edit = Edit {
        buffer,
        mods,
        cursor: None,
    };
    let prepared = state.prepare_edit(alloc, edit, steps)?;
    let _former = state.finish_edit(prepared);
    Ok(())
}

// Why lines make no edit of a buffer, or nothing.
fn fault_of<L: Ledger>(
    alloc: Global,
    state: &mut EditorState,
    buffer: u32,
    lines: &str,
    steps: &mut Steps<L>,
) -> Option<Option<ModFault>> {
    let mods = mods_of(alloc, lines, steps)?;
    if buffer as usize >= state.buffers().len() {
        return None;
    }
    match edit(alloc, state, buffer, mods, steps) {
        Ok(()) => Some(None),
        Err(ApplyFault::Refused(fault)) => Some(Some(fault)),
        Err(ApplyFault::Memory) => None,
    }
}

// Whether there is an edit to take back.
fn undo<L: Ledger>(alloc: Global, state: &mut EditorState, steps: &mut Steps<L>) -> Option<bool> {
    match state.prepare_undo(alloc, steps) {
        Ok(prepared) => {
            let _former = state.finish_undo(prepared);
            Some(true)
        }
        Err(UndoFault::Nothing) => Some(false),
        Err(UndoFault::Memory) => None,
    }
}

// Whether there is an edit to make again.
fn redo<L: Ledger>(alloc: Global, state: &mut EditorState, steps: &mut Steps<L>) -> Option<bool> {
    match state.prepare_redo(alloc, steps) {
        Ok(prepared) => {
            let _former = state.finish_redo(prepared);
            Some(true)
        }
        Err(UndoFault::Nothing) => Some(false),
        Err(UndoFault::Memory) => None,
    }
}

fn go(alloc: Global, state: &mut EditorState, place: &str) -> Option<()> {
    let numbers = Path::parse(alloc, place.as_bytes()).ok()?;
    state.go(alloc, &numbers).ok()
}

fn is_tree<L: Ledger>(
    alloc: Global,
    tree: &Tree,
    words: &str,
    steps: &mut Steps<L>,
) -> Option<bool> {
    Some(tree_of(alloc, words, steps)?.same(tree))
}

// Whether the document is this tree, and the cursor is there.
fn is_at<L: Ledger>(
    alloc: Global,
    state: &EditorState,
    words: &str,
    place: &str,
    steps: &mut Steps<L>,
) -> Option<bool> {
    let cursor = format!(in alloc; "{}", state.cursor()).ok()?;
    Some(cursor.as_str() == place && is_tree(alloc, state.document(), words, steps)?)
}

// Whether both buffers are as they were opened, and the cursor is there.
fn is_as_before<L: Ledger>(
    alloc: Global,
    state: &EditorState,
    place: &str,
    steps: &mut Steps<L>,
) -> Option<bool> {
    let style = &state.buffers().get(1)?.tree;
    let same = is_tree(alloc, style, STYLE, steps)?;
    Some(same && is_at(alloc, state, DOCUMENT, place, steps)?)
}

// A cursor, the modifications of an edit, and the document and the cursor afterwards. The edit is undone and made again.
struct EditRow(&'static str, &'static str, &'static str, &'static str);

const EDITS: &[EditRow] = &[
    EditRow(
        "/0/2",
        "insert /0 2 \"c\" & split / 0 1",
        "(document \"a\" \"bc\")",
        "/1/2",
    ),
    EditRow(
        "/0/0",
        "insert / 1 (tuple \"c\") & remove / 0 1",
        "(document \"c\")",
        "/0",
    ),
    EditRow(
        "/0/0",
        "insert /0 0 \"x\" & remove /0 0 2",
        "(document \"b\")",
        "/0/0",
    ),
];

impl EditRow {
    fn is_remade<L: Ledger>(
        &self,
        alloc: Global,
        state: &mut EditorState,
        steps: &mut Steps<L>,
    ) -> Option<bool> {
        go(alloc, state, self.0)?;
        let made = fault_of(alloc, state, 0, self.1, steps)?.is_none();
        let there = is_at(alloc, state, self.2, self.3, steps)?;
        let undone = undo(alloc, state, steps)?;
        let back = is_as_before(alloc, state, self.0, steps)? && !undo(alloc, state, steps)?;
        let redone = redo(alloc, state, steps)?;
        let again = is_at(alloc, state, self.2, self.3, steps)?;
        Some(made && there && undone && back && redone && again)
    }
}

impl Row for EditRow {
    fn holds<L: Ledger>(&self, alloc: Global, steps: &mut Steps<L>) -> Option<bool> {
        let mut state = opened(alloc, steps)?;
        self.is_remade(alloc, &mut state, steps)
    }
}

// A cursor, a buffer, and modifications, of which the second or the first is refused, and why.
struct RefusedRow(&'static str, u32, &'static str, ModFault);

const REFUSED: &[RefusedRow] = &[
    RefusedRow(
        "/0/0",
        0,
        "insert /0 0 \"c\" & insert /0 4 \"d\"",
        ModFault::BadPlace(3),
    ),
    RefusedRow(
        "/0/2",
        0,
        "insert /0 3 \"x\" & insert /0 0 \"y\"",
        ModFault::BadPlace(2),
    ),
    RefusedRow("/0/0", 1, "remove / 0 1 & join / 0", ModFault::BadPlace(0)),
];

impl RefusedRow {
    fn is_refused<L: Ledger>(
        &self,
        alloc: Global,
        state: &mut EditorState,
        steps: &mut Steps<L>,
    ) -> Option<bool> {
        go(alloc, state, self.0)?;
        let fault = fault_of(alloc, state, self.1, self.2, steps)?;
        let same = is_as_before(alloc, state, self.0, steps)?;
        Some(fault == Some(self.3) && same && !undo(alloc, state, steps)?)
    }
}

impl Row for RefusedRow {
    fn holds<L: Ledger>(&self, alloc: Global, steps: &mut Steps<L>) -> Option<bool> {
        let mut state = opened(alloc, steps)?;
        self.is_refused(alloc, &mut state, steps)
    }
}

#[test]
fn edits_of_two_modifications(rt: HostRuntime) {
    let wrong = first_untrue::<Brand, _>(rt.alloc(), EDITS, Blank::new(1));
    assert_eq!(rt; wrong, None);
}

#[test]
fn one_refused_modification_refuses_the_edit(rt: HostRuntime) {
    let wrong = first_untrue::<Brand, _>(rt.alloc(), REFUSED, Blank::new(1));
    assert_eq!(rt; wrong, None);
}
