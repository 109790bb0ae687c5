// Buffers and their names, made and read, and the form by a name.

use std::alloc::Global;
use tx_doc::{Buffer, Form, Name, form_of};
use tx_tree::{Text, Tree};

fn leaf(alloc: Global, text: &[u8]) -> Option<Tree> {
    Tree::leaf(alloc, Text::new(alloc, text).ok()?).ok()
}

fn buffer(alloc: Global) -> Option<Buffer> {
    let tree = leaf(alloc, b"hello")?;
    let name = Name::from(Vec::from_slice(alloc, b"a/b.scm").ok()?);
    Some(Buffer { name, tree })
}

// The buffer has its name, which is copied, and its tree.
fn is_kept(alloc: Global, buffer: &Buffer) -> Option<bool> {
    let copy = buffer.name.copy(alloc).ok()?;
    let name = b"a/b.scm".as_slice();
    Some(buffer.name.bytes() == name && copy.bytes() == name && buffer.tree.size() == 6)
}

fn keeps(alloc: Global) -> Option<bool> {
    let buffer = buffer(alloc)?;
    is_kept(alloc, &buffer)
}

// How many bytes an empty name has.
fn bytes_of_none(alloc: Global) -> usize {
    let empty: Name = Vec::new(alloc).into();
    empty.bytes().len()
}

#[test]
fn a_buffer_keeps_its_name_and_tree(rt: HostRuntime) {
    assert_eq!(rt; keeps(rt.alloc()), Some(true));
    assert_eq!(rt; bytes_of_none(rt.alloc()), 0);
}

// Names that are in no command line, and the forms of the files that they are of.
const FORMS: &[(&[u8], Form)] = &[
    (b"", Form::Tm),
    (b"a.scm ", Form::Tm),
    (b"b/\xff.stm", Form::Scheme),
];

fn first_wrong_form(rows: &[(&[u8], Form)]) -> Option<usize> {
    for (number, row) in rows.iter().enumerate() {
        if form_of(row.0) != row.1 {
            return Some(number);
        }
    }
    None
}

#[test]
fn forms_by_names(rt: HostRuntime) {
    assert_eq!(rt; first_wrong_form(FORMS), None);
}
