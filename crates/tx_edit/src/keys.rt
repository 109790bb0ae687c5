// Typing, backspace and enter.
ghost use Rattle.std.specs.Prelude.{◌≡◌, ◌≢◌, ◌+◌, ◌<◌, ◌≤◌, IfOk, IfErr, IsSome, Ok, Err, true, false, length};
ghost use Rattle.tx_tree.specs.Places.{IsPlace};
ghost use Rattle.tx_tree.specs.Cuts.{is_cut};
ghost use Rattle.tx_tree.specs.Texts.{IsCut};
ghost use Rattle.tx_edit.specs.Followed.{Applies, IsMoved, StandsAfter};
ghost use Rattle.tx_edit.specs.Keys.{text_at, is_concat_at, parent_of, cut_before};
ghost use Rattle.tx_edit.specs.Keys.{typed, joined_in, erased, split_in_concat, split_in, entered};

use crate::faults::EditFault;
use crate::moves::{Move, edit, edit_twice};
use crate::paths::{is_concat_at, is_document_at, parent_of, text_at};
use std::alloc::Global;
use tx_mod::Mod;
use tx_tree::{Path, Place, Text, Tree};

/// Puts the text in at the cursor, which is a place of the tree. The cursor is after the text afterwards. `NoText`
/// comes exactly where the cursor is not in a text. `Memory` may come at any time.
pub fn type_text(alloc: Global, t: &Tree, cursor: &Place, text: &Text) -> Result<Move, EditFault>
    requires { IsPlace t.now cursor.now.path cursor.now.offset }
    ensures done { IfOk result (λ m. typed t.now cursor.now text.now ≡ Ok m) }
    ensures refused { IfErr result (λ fault. fault ≢ EditFault.Memory → typed t.now cursor.now text.now ≡ Err fault) }
    ensures applies { IfOk result (λ m. Applies t.now m) }
    ensures moved { IfOk result (λ m. IsMoved t.now cursor.now m) }
    ensures place { IfOk result (λ m. StandsAfter t.now m) }
{
    let _size = t.size();
    let Some(old) = text_at(t, &cursor.path) else {
        return Err(EditFault::NoText);
    };
    let _bytes = old.bytes();
    let end = cursor.offset + text.bytes().len() as u32;
    let more = Tree::leaf(alloc, text.copy()?)?;
    let change = Mod::Insert(cursor.path.copy(alloc)?, cursor.offset, more);
    Ok(edit(alloc, change, cursor.path.copy(alloc)?, end)?)
}

// Where the symbol begins that ends with the byte at this place of the text.
fn symbol_start(text: &Text, last: usize) -> usize
    requires within { last < length text.now }
    requires symbol { is_cut text.now last ≡ false }
    requires end { is_cut text.now (last + 1) ≡ true }
    ensures value { result ≡ cut_before text.now (last + 1) }
    ensures before { result ≤ last }
{
    let bytes = text.bytes();
    let mut start = last;
    while bytes[start] != b'<' {
        start -= 1;
    }
    start
}

// Where the item begins that ends at this place of the text.
fn cut_before(text: &Text, end: usize) -> usize
    requires cut { IsCut text.now end }
    requires behind { 0 < end }
    ensures value { result ≡ cut_before text.now end }
    ensures before { result < end }
{
    let last = end - 1;
    if text.bytes()[last] == b'>' {
        symbol_start(text, last)
    } else {
        last
    }
}

// Backspace at the start of the text at the path: a child of a `document` is joined to the text before it.
fn join_to_former(alloc: Global, t: &Tree, path: &Path) -> Result<Move, EditFault>
    ensures done { IfOk result (λ m. joined_in t.now (parent_of path.now) ≡ Ok m) }
    ensures refused { IfErr result (λ fault. fault ≢ EditFault.Memory
        → joined_in t.now (parent_of path.now) ≡ Err fault) }
{
    let Some((parent, k)) = parent_of(alloc, path)? else {
        return Err(EditFault::AtStart);
    };
    if k == 0 || !is_document_at(t, &parent) {
        return Err(EditFault::AtStart);
    }
    let former = parent.child(alloc, k - 1)?;
    let Some(text) = text_at(t, &former) else {
        return Err(EditFault::AtStart);
    };
    let end = text.bytes().len() as u32;
    Ok(edit(alloc, Mod::Join(parent, k - 1), former, end)?)
}

/// Takes out the item before the cursor, which is a place of the tree. At the start of a text that is a child of a
/// `document`, it joins the text to the one before it, and the cursor is between the two. `NoText` comes exactly
/// where the cursor is not in a text, and `AtStart` exactly at every other start of a text. `Memory` may come at any
/// time.
pub fn backspace(alloc: Global, t: &Tree, cursor: &Place) -> Result<Move, EditFault>
    requires { IsPlace t.now cursor.now.path cursor.now.offset }
    ensures done { IfOk result (λ m. erased t.now cursor.now ≡ Ok m) }
    ensures refused { IfErr result (λ fault. fault ≢ EditFault.Memory → erased t.now cursor.now ≡ Err fault) }
    ensures applies { IfOk result (λ m. Applies t.now m) }
    ensures moved { IfOk result (λ m. IsMoved t.now cursor.now m) }
    ensures place { IfOk result (λ m. StandsAfter t.now m) }
{
    let _size = t.size();
    let Some(text) = text_at(t, &cursor.path) else {
        return Err(EditFault::NoText);
    };
    if cursor.offset == 0 {
        return join_to_former(alloc, t, &cursor.path);
    }
    let start = cut_before(text, cursor.offset as usize) as u32;
    let change = Mod::Remove(cursor.path.copy(alloc)?, start, cursor.offset - start);
    Ok(edit(alloc, change, cursor.path.copy(alloc)?, start)?)
}

// Enter in child j of the `concat` at the path: that is split, and then the `concat` between the two.
fn split_in_concat(
    alloc: Global,
    t: &Tree,
    concat: &Path,
    j: u32,
    offset: u32,
) -> Result<Move, EditFault>
    requires concat { is_concat_at t.now concat.now ≡ true }
    requires child { j ≤ 65535 }
    ensures done { IfOk result (λ m. split_in_concat t.now j offset (parent_of concat.now) ≡ Ok m) }
    ensures refused { IfErr result (λ fault. fault ≢ EditFault.Memory
        → split_in_concat t.now j offset (parent_of concat.now) ≡ Err fault) }
{
    let _size = t.size();
    let Some((parent, i)) = parent_of(alloc, concat)? else {
        return Err(EditFault::NotInParagraph);
    };
    if !is_document_at(t, &parent) {
        return Err(EditFault::NotInParagraph);
    }
    let mut behind = parent.child(alloc, i + 1)?;
    behind.push(0)?;
    let first = Mod::Split(concat.copy(alloc)?, j, offset);
    let second = Mod::Split(parent, i, j + 1);
    Ok(edit_twice(alloc, first, second, behind, 0)?)
}

// Enter in the text at the path.
fn split_in(alloc: Global, t: &Tree, path: &Path, offset: u32) -> Result<Move, EditFault>
    requires { IsSome (text_at t.now path.now) }
    ensures done { IfOk result (λ m. split_in t.now offset (parent_of path.now) ≡ Ok m) }
    ensures refused { IfErr result (λ fault. fault ≢ EditFault.Memory
        → split_in t.now offset (parent_of path.now) ≡ Err fault) }
{
    let _size = t.size();
    let Some((parent, i)) = parent_of(alloc, path)? else {
        return Err(EditFault::NotInParagraph);
    };
    if is_document_at(t, &parent) {
        let behind = parent.child(alloc, i + 1)?;
        return Ok(edit(alloc, Mod::Split(parent, i, offset), behind, 0)?);
    }
    if is_concat_at(t, &parent) {
        return split_in_concat(alloc, t, &parent, i, offset);
    }
    Err(EditFault::NotInParagraph)
}

/// Splits the paragraph at the cursor, which is a place of the tree. The cursor is at the start of the second paragraph
/// afterwards. What is split is a text that is a child of a `document`, or a text in a `concat` that is a child of a
/// `document`, and then that `concat`. `NoText` comes exactly where the cursor is not in a text, and `NotInParagraph`
/// exactly in every other text. `Memory` may come at any time.
pub fn enter(alloc: Global, t: &Tree, cursor: &Place) -> Result<Move, EditFault>
    requires { IsPlace t.now cursor.now.path cursor.now.offset }
    ensures done { IfOk result (λ m. entered t.now cursor.now ≡ Ok m) }
    ensures refused { IfErr result (λ fault. fault ≢ EditFault.Memory → entered t.now cursor.now ≡ Err fault) }
    ensures applies { IfOk result (λ m. Applies t.now m) }
    ensures moved { IfOk result (λ m. IsMoved t.now cursor.now m) }
    ensures place { IfOk result (λ m. StandsAfter t.now m) }
{
    let _size = t.size();
    if text_at(t, &cursor.path).is_none() {
        return Err(EditFault::NoText);
    }
    split_in(alloc, t, &cursor.path, cursor.offset)
}
