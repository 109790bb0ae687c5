// The command of a line that has the form of one.
ghost use Rattle.std.specs.Prelude.{◌≡◌, ◌≢◌, ◌+◌, ◌≤◌, ℕ, true, false, [], ◌∷◌, length, IfOk, IfErr, OnOk, Err};
ghost use Rattle.tx_tree.specs.Limits.{IsWithinLimits};
ghost use Rattle.tx_tree.specs.PathSpelling.{SpellsPath, IsNumber};
ghost use Rattle.tx_tree.specs.WideTree.{leaf, is_leaf, nodes_of};
ghost use Rattle.tx_scm.specs.Spelling.{Spells};
ghost use Rattle.tx_mod.specs.Mods.{path_of};
ghost use Rattle.tx_cmd.specs.Words.{arguments_of, arguments_behind, AreLoose, IsNumeral, some_stored};
ghost use Rattle.tx_cmd.specs.Values.{Means, Mean, nodes_in_values, a_path, a_number, a_tree, a_text, a_label, a_name};
ghost use Rattle.tx_cmd.specs.Commands.{command_word, values_of, mod_word, values_behind};
ghost use Rattle.tx_cmd.specs.Moved.{moved_fault, HasPlacesWithin};
ghost use Rattle.tx_cmd.specs.Refusals.{IsBadPath, IsBadTree, IsBadText, IsFirstFault};
ghost use Rattle.tx_cmd.specs.declared.command.CmdFault.TheVariants.{Memory as NoMemory};

use crate::pieces::{cut, number};
use crate::words::{ArgumentKind, ModWord, Word};
use crate::{CmdFault, Command, MOST_LINE};
use std::alloc::Global;
use std::sync::ledger::Ledger;
use tx_base::{Memory, Steps};
use tx_doc::Name;
use tx_mod::Mod;
use tx_tree::{Label, LabelFault, Path, PathFault, ReadFault, Text, Tree};

// The path of the piece, which is at this place of the line.
fn read_path(alloc: Global, piece: &[u8], at: usize) -> Result<Path, CmdFault>
    requires { at + length piece.now ≤ MOST_LINE }
    ensures ok { IfOk result (λ p. SpellsPath piece.now p) }
    ensures refused { IfErr result (λ fault. fault ≢ NoMemory → IsBadPath piece.now at fault) }
{
    match Path::parse(alloc, piece) {
        Ok(path) => Ok(path),
        Err(PathFault::BadPath(place)) => Err(CmdFault::Path(at + place)),
        Err(PathFault::Memory) => Err(CmdFault::Memory),
    }
}

// The fault of bytes that begin at this place of the line.
fn moved(fault: ReadFault, at: usize) -> ReadFault
    requires places { HasPlacesWithin MOST_LINE fault }
    requires at { at ≤ MOST_LINE }
    ensures { result ≡ moved_fault at fault }
{
    match fault {
        ReadFault::Unclosed(n) => ReadFault::Unclosed(at + n),
        ReadFault::Stray(n) => ReadFault::Stray(at + n),
        ReadFault::BadEscape(n) => ReadFault::BadEscape(at + n),
        ReadFault::BadLabel(n) => ReadFault::BadLabel(at + n),
        ReadFault::BadText(n) => ReadFault::BadText(at + n),
        ReadFault::Mismatch(m, n) => ReadFault::Mismatch(at + m, at + n),
        ReadFault::After(n) => ReadFault::After(at + n),
        ReadFault::Limit(..) | ReadFault::Memory => fault,
    }
}

// The tree of the piece, which is at this place of the line.
fn read_tree<L: Ledger>(
    alloc: Global,
    piece: &[u8],
    at: usize,
    steps: &mut Steps<L>,
) -> Result<Tree, CmdFault>
    requires { at + length piece.now ≤ MOST_LINE }
    ensures ok { IfOk result (λ t. Spells piece.now t × IsWithinLimits t) }
    ensures refused { IfErr result (λ fault. fault ≢ NoMemory → IsBadTree piece.now at fault) }
    ensures counted { IfOk result (λ t. steps.new ≤ steps.old + nodes_of t) }
    ensures rises { steps.old ≤ steps.new }
{
    match tx_scm::read(alloc, piece, steps) {
        Ok(tree) => Ok(tree),
        Err(ReadFault::Memory) => Err(CmdFault::Memory),
        Err(fault) => Err(CmdFault::Tree(moved(fault, at))),
    }
}

// The text that the tree is, which begins at this place of the line.
fn text_of(tree: &Tree, at: usize) -> Result<Text, CmdFault>
    ensures ok { IfOk result (λ text. tree.now ≡ leaf text) }
    ensures refused { IfErr result (λ fault.
        fault ≢ NoMemory → (is_leaf tree.now ≡ false) × (fault ≡ CmdFault.Args at)) }
{
    match tree.text() {
        Some(text) => Ok(text.copy()?),
        None => Err(CmdFault::Args(at)),
    }
}

// The text of the piece, which is at this place of the line.
fn read_text<L: Ledger>(
    alloc: Global,
    piece: &[u8],
    at: usize,
    steps: &mut Steps<L>,
) -> Result<Text, CmdFault>
    requires { at + length piece.now ≤ MOST_LINE }
    ensures ok { IfOk result (λ text. Means piece.now (a_text text)) }
    ensures refused { IfErr result (λ fault. fault ≢ NoMemory → IsBadText piece.now at fault) }
    ensures counted { OnOk result (steps.new ≡ steps.old) }
    ensures rises { steps.old ≤ steps.new }
{
    let tree = read_tree(alloc, piece, at, steps)?;
    text_of(&tree, at)
}

// The number of a piece that is one.
fn read_number(piece: &[u8]) -> u32
    requires { IsNumeral piece.now }
    ensures { IsNumber piece.now result }
{
    match number(piece) {
        Ok(n) => n,
        Err(_) => unreachable!(),
    }
}

// The tree that is all that is left, where that begins at this place of the line.
fn last_tree<L: Ledger>(
    alloc: Global,
    bytes: &[u8],
    at: usize,
    steps: &mut Steps<L>,
) -> Result<Tree, CmdFault>
    requires loose { AreLoose (ArgumentKind.Tree ∷ []) bytes.now }
    requires place { at + length bytes.now ≤ MOST_LINE }
    ensures ok { IfOk result (λ t. Mean bytes.now (a_tree t ∷ [])) }
    ensures refused { IfErr result (λ fault.
        fault ≢ NoMemory → IsFirstFault (ArgumentKind.Tree ∷ []) bytes.now at fault) }
    ensures counted { IfOk result (λ t. steps.new ≤ steps.old + nodes_of t) }
    ensures rises { steps.old ≤ steps.new }
{
    let (piece, _) = cut(ArgumentKind::Tree, bytes);
    read_tree(alloc, piece, at + 1, steps)
}

// The text that is all that is left, where that begins at this place of the line.
fn last_text<L: Ledger>(
    alloc: Global,
    bytes: &[u8],
    at: usize,
    steps: &mut Steps<L>,
) -> Result<Text, CmdFault>
    requires loose { AreLoose (ArgumentKind.Text ∷ []) bytes.now }
    requires place { at + length bytes.now ≤ MOST_LINE }
    ensures ok { IfOk result (λ text. Mean bytes.now (a_text text ∷ [])) }
    ensures refused { IfErr result (λ fault.
        fault ≢ NoMemory → IsFirstFault (ArgumentKind.Text ∷ []) bytes.now at fault) }
    ensures counted { OnOk result (steps.new ≡ steps.old) }
    ensures rises { steps.old ≤ steps.new }
{
    let (piece, _) = cut(ArgumentKind::Text, bytes);
    read_text(alloc, piece, at + 1, steps)
}

// A number, and the tree after it, where these begin at this place of the line.
fn number_and_tree<L: Ledger>(
    alloc: Global,
    bytes: &[u8],
    at: usize,
    steps: &mut Steps<L>,
) -> Result<(u32, Tree), CmdFault>
    requires loose { AreLoose (ArgumentKind.Number ∷ ArgumentKind.Tree ∷ []) bytes.now }
    requires place { at + length bytes.now ≤ MOST_LINE }
    ensures ok { IfOk result (λ r. Mean bytes.now (a_number r.0 ∷ a_tree r.1 ∷ [])) }
    ensures refused { IfErr result (λ fault.
        fault ≢ NoMemory → IsFirstFault (ArgumentKind.Number ∷ ArgumentKind.Tree ∷ []) bytes.now at fault) }
    ensures counted { IfOk result (λ r. steps.new ≤ steps.old + nodes_of r.1) }
    ensures rises { steps.old ≤ steps.new }
{
    let (piece, rest) = cut(ArgumentKind::Number, bytes);
    let n = read_number(piece);
    let tree = last_tree(alloc, rest, at + 1 + piece.len(), steps)?;
    Ok((n, tree))
}

// The number that is all that is left.
fn last_number(bytes: &[u8]) -> u32
    requires { AreLoose (ArgumentKind.Number ∷ []) bytes.now }
    ensures { Mean bytes.now (a_number result ∷ []) }
{
    let (piece, _) = cut(ArgumentKind::Number, bytes);
    read_number(piece)
}

// The two numbers that are left.
fn two_numbers(bytes: &[u8]) -> (u32, u32)
    requires { AreLoose (ArgumentKind.Number ∷ ArgumentKind.Number ∷ []) bytes.now }
    ensures { Mean bytes.now (a_number result.0 ∷ a_number result.1 ∷ []) }
{
    let (piece, rest) = cut(ArgumentKind::Number, bytes);
    (read_number(piece), last_number(rest))
}

// The label that is all that is left.
fn last_label(alloc: Global, bytes: &[u8]) -> Result<Label, CmdFault>
    requires { AreLoose (ArgumentKind.Label ∷ []) bytes.now }
    ensures ok { IfOk result (λ l. Mean bytes.now (a_label l ∷ [])) }
    ensures refused { IfErr result (λ fault. fault ≡ NoMemory) }
{
    let (piece, _) = cut(ArgumentKind::Label, bytes);
    match Label::new(alloc, piece) {
        Ok(label) => Ok(label),
        Err(LabelFault::BadLabel(_)) => unreachable!(),
        Err(LabelFault::Memory) => Err(CmdFault::Memory),
    }
}

// The name that the bytes are.
fn name_of(alloc: Global, bytes: &[u8]) -> Result<Name, Memory>
    ensures { IfOk result (λ n. n ≡ bytes.now) }
{
    Ok(Name::from(Vec::from_slice(alloc, bytes)?))
}

// The name that is all that is left.
fn last_name(alloc: Global, bytes: &[u8]) -> Result<Name, CmdFault>
    requires { AreLoose (ArgumentKind.Name ∷ []) bytes.now }
    ensures ok { IfOk result (λ n. Mean bytes.now (a_name n ∷ [])) }
    ensures refused { IfErr result (λ fault. fault ≡ NoMemory) }
{
    let (piece, _) = cut(ArgumentKind::Name, bytes);
    Ok(name_of(alloc, piece)?)
}

// The modification of this path that takes numbers alone, which are all that is left.
fn plain_change(word: ModWord, path: Path, bytes: &[u8]) -> Mod
    requires stored { some_stored (arguments_behind word) ≡ false }
    requires loose { AreLoose (arguments_behind word) bytes.now }
    ensures word { mod_word result ≡ word }
    ensures path { path_of result ≡ path }
    ensures ok { Mean bytes.now (values_behind result) }
{
    match word {
        ModWord::Remove => {
            let (i, n) = two_numbers(bytes);
            Mod::Remove(path, i, n)
        }
        ModWord::Split => {
            let (i, j) = two_numbers(bytes);
            Mod::Split(path, i, j)
        }
        ModWord::Join => Mod::Join(path, last_number(bytes)),
        ModWord::RemoveNode => Mod::RemoveNode(path, last_number(bytes)),
        _ => unreachable!(),
    }
}

// The modification that puts the tree in there.
fn insertion(word: ModWord, path: Path, i: u32, tree: Tree) -> Mod
    requires { arguments_behind word ≡ ArgumentKind.Number ∷ ArgumentKind.Tree ∷ [] }
    ensures word { mod_word result ≡ word }
    ensures path { path_of result ≡ path }
    ensures values { values_behind result ≡ a_number i ∷ a_tree tree ∷ [] }
{
    match word {
        ModWord::Insert => Mod::Insert(path, i, tree),
        ModWord::InsertNode => Mod::InsertNode(path, i, tree),
        _ => unreachable!(),
    }
}

// The modification of this path, by what is after the path, at this place of the line.
fn change_at<L: Ledger>(
    alloc: Global,
    word: ModWord,
    path: Path,
    bytes: &[u8],
    at: usize,
    steps: &mut Steps<L>,
) -> Result<Mod, CmdFault>
    requires loose { AreLoose (arguments_behind word) bytes.now }
    requires place { at + length bytes.now ≤ MOST_LINE }
    ensures word { IfOk result (λ m. mod_word m ≡ word) }
    ensures path { IfOk result (λ m. path_of m ≡ path) }
    ensures ok { IfOk result (λ m. Mean bytes.now (values_behind m)) }
    ensures refused { IfErr result (λ fault.
        fault ≢ NoMemory → IsFirstFault (arguments_behind word) bytes.now at fault) }
    ensures counted { IfOk result (λ m. steps.new ≤ steps.old + nodes_in_values (values_behind m)) }
    ensures rises { steps.old ≤ steps.new }
{
    match word {
        ModWord::Assign => Ok(Mod::Assign(path, last_tree(alloc, bytes, at, steps)?)),
        ModWord::Insert | ModWord::InsertNode => {
            let (i, tree) = number_and_tree(alloc, bytes, at, steps)?;
            Ok(insertion(word, path, i, tree))
        }
        ModWord::AssignNode => Ok(Mod::AssignNode(path, last_label(alloc, bytes)?)),
        ModWord::Remove | ModWord::Split | ModWord::Join | ModWord::RemoveNode => {
            Ok(plain_change(word, path, bytes))
        }
    }
}

// The modification of what is after its word, at this place of the line.
fn change<L: Ledger>(
    alloc: Global,
    word: ModWord,
    bytes: &[u8],
    at: usize,
    steps: &mut Steps<L>,
) -> Result<Mod, CmdFault>
    requires loose { AreLoose (ArgumentKind.Path ∷ arguments_behind word) bytes.now }
    requires place { at + length bytes.now ≤ MOST_LINE }
    ensures word { IfOk result (λ m. mod_word m ≡ word) }
    ensures ok { IfOk result (λ m. Mean bytes.now (a_path (path_of m) ∷ values_behind m)) }
    ensures refused { IfErr result (λ fault.
        fault ≢ NoMemory → IsFirstFault (ArgumentKind.Path ∷ arguments_behind word) bytes.now at fault) }
    ensures counted { IfOk result (λ m. steps.new ≤ steps.old + nodes_in_values (values_behind m)) }
    ensures rises { steps.old ≤ steps.new }
{
    let (piece, rest) = cut(ArgumentKind::Path, bytes);
    let path = read_path(alloc, piece, at + 1)?;
    change_at(alloc, word, path, rest, at + 1 + piece.len(), steps)
}

// The path that is all that is left, where it begins at this place of the line.
fn last_path(alloc: Global, bytes: &[u8], at: usize) -> Result<Path, CmdFault>
    requires loose { AreLoose (ArgumentKind.Path ∷ []) bytes.now }
    requires place { at + length bytes.now ≤ MOST_LINE }
    ensures ok { IfOk result (λ p. Mean bytes.now (a_path p ∷ [])) }
    ensures refused { IfErr result (λ fault.
        fault ≢ NoMemory → IsFirstFault (ArgumentKind.Path ∷ []) bytes.now at fault) }
{
    let (piece, _) = cut(ArgumentKind::Path, bytes);
    read_path(alloc, piece, at + 1)
}

// The command of a word that takes nothing or numbers alone, and of what is after it.
fn plain_command(word: Word, bytes: &[u8]) -> Command
    requires stored { some_stored (arguments_of word) ≡ false }
    requires loose { AreLoose (arguments_of word) bytes.now }
    ensures word { command_word result ≡ word }
    ensures ok { Mean bytes.now (values_of result) }
{
    match word {
        Word::Undo => Command::Undo,
        Word::UndoAt => Command::UndoAt(last_number(bytes)),
        Word::Redo => Command::Redo,
        Word::Click => {
            let (row, column) = two_numbers(bytes);
            Command::Click(row, column)
        }
        Word::Left => Command::Left,
        Word::Right => Command::Right,
        Word::Backspace => Command::Backspace,
        Word::Enter => Command::Enter,
        Word::Show => Command::Show,
        Word::Page => Command::Page(last_number(bytes)),
        Word::Errors => Command::Errors,
        Word::Where => {
            let (row, column) = two_numbers(bytes);
            Command::PlaceOf(row, column)
        }
        Word::Cursor => Command::Cursor,
        Word::Attrs => Command::Attrs(last_number(bytes)),
        Word::Work => Command::Work,
        Word::Tree => Command::Tree,
        Word::Quit => Command::Quit,
        _ => unreachable!(),
    }
}

// The command of the word and of what is after it, at this place of the line.
pub(crate) fn command<L: Ledger>(
    alloc: Global,
    word: Word,
    bytes: &[u8],
    at: usize,
    steps: &mut Steps<L>,
) -> Result<Command, CmdFault>
    requires loose { AreLoose (arguments_of word) bytes.now }
    requires place { at + length bytes.now ≤ MOST_LINE }
    ensures word { IfOk result (λ c. command_word c ≡ word) }
    ensures ok { IfOk result (λ c. Mean bytes.now (values_of c)) }
    ensures refused { IfErr result (λ fault. fault ≢ NoMemory → IsFirstFault (arguments_of word) bytes.now at fault) }
    ensures memory { result ≡ Err NoMemory → some_stored (arguments_of word) ≡ true }
    ensures counted { IfOk result (λ c. steps.new ≤ steps.old + nodes_in_values (values_of c)) }
    ensures rises { steps.old ≤ steps.new }
{
    match word {
        Word::Change(word) => Ok(Command::Change(change(alloc, word, bytes, at, steps)?)),
        Word::At => Ok(Command::At(last_name(alloc, bytes)?)),
        Word::Go => Ok(Command::Go(last_path(alloc, bytes, at)?)),
        Word::Typed => Ok(Command::Typed(last_text(alloc, bytes, at, steps)?)),
        Word::Save => Ok(Command::Save(last_name(alloc, bytes)?)),
        Word::Undo | Word::Redo | Word::Click | Word::Left | Word::Right | Word::Backspace => {
            Ok(plain_command(word, bytes))
        }
        Word::Enter | Word::Show | Word::Page | Word::Errors | Word::Where | Word::Cursor => {
            Ok(plain_command(word, bytes))
        }
        Word::UndoAt | Word::Attrs | Word::Work | Word::Tree | Word::Quit => {
            Ok(plain_command(word, bytes))
        }
    }
}
