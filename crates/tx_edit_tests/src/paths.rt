// Paths that grow and shrink and lead to subtrees, and the paths of bodies.

use std::alloc::Global;
use std::marker::Brand;
use std::sync::ledger::{Blank, Ledger};
use tx_base::Steps;
use tx_doc::body;
use tx_samples::{Row, first_untrue, tree_of};
use tx_tree::{Path, PathFault};

// The path is empty, and has the numbers 4 and 5 then.
fn grows(path: &mut Path) -> Option<bool> {
    let empty = path.pop().is_none();
    path.push(4).ok()?;
    path.push(5).ok()?;
    Some(empty)
}

// The path loses its last number, and its copy doesn't.
fn shrinks(path: &mut Path, copy: &Path) -> bool {
    path.pop() == Some(5)
        && path.steps() == [4u32].as_slice()
        && copy.steps() == [4u32, 5].as_slice()
}

fn grows_and_shrinks(alloc: Global) -> Option<bool> {
    let mut path = Path::root(alloc);
    let grown = grows(&mut path)?;
    let copy = path.copy(alloc).ok()?;
    Some(grown && shrinks(&mut path, &copy))
}

// Words that are no paths and are in no command line, and where that shows.
const REFUSED: &[(&str, usize)] = &[("", 0), ("/ 1", 1), ("/1 ", 2)];

fn first_unrefused(alloc: Global, rows: &[(&str, usize)]) -> Option<usize> {
    rows.iter().position(|row| {
        Path::parse(alloc, row.0.as_bytes()).err() != Some(PathFault::BadPath(row.1))
    })
}

#[test]
fn paths_grow_and_shrink(rt: HostRuntime) {
    assert_eq!(rt; grows_and_shrinks(rt.alloc()), Some(true));
    assert_eq!(rt; first_unrefused(rt.alloc(), REFUSED), None);
}

// A path in a tree of 10 bytes, and the size of the subtree that it leads to.
struct SizeRow(&'static str, Option<u64>);

const SIZES: &[SizeRow] = &[
    SizeRow("/", Some(10)),
    SizeRow("/0", Some(7)),
    SizeRow("/1", Some(2)),
    SizeRow("/1/0", Some(1)),
    SizeRow("/2", None),
    SizeRow("/0/0", None),
    SizeRow("/1/1", None),
];

impl Row for SizeRow {
    fn holds<L: Ledger>(&self, alloc: Global, steps: &mut Steps<L>) -> Option<bool> {
        let t = tree_of(alloc, r#"(f "ab<c>d" (g ""))"#, steps)?;
        let q = Path::parse(alloc, self.0.as_bytes()).ok()?;
        match t.at(&q) {
            Some(s) => Some(self.1 == Some(s.size())),
            None => Some(self.1.is_none()),
        }
    }
}

// A tree, and the path to its body, or `-` where there is none.
struct BodyRow(&'static str, &'static str);

const BODIES: &[BodyRow] = &[
    BodyRow(r#""body""#, "/"),
    BodyRow(r#"(document)"#, "/"),
    BodyRow(r#"(document "a" "body")"#, "/"),
    BodyRow(r#"(document (body "a"))"#, "/0/0"),
    BodyRow(
        r#"(document (style "s") (body (document "x") "y"))"#,
        "/1/0",
    ),
    BodyRow(r#"(document (body "a") (body "b"))"#, "/0/0"),
    BodyRow(r#"(document "x" (body) "y")"#, "-"),
    BodyRow(r#"(document (body) (body "b"))"#, "-"),
    BodyRow(r#"(document (body (body)))"#, "/0/0"),
    BodyRow(r#"(body "a")"#, "/"),
    BodyRow(r#"(body)"#, "/"),
    BodyRow(r#"(f (body "a"))"#, "/"),
    BodyRow(r#"(documen (body "a"))"#, "/"),
    BodyRow(r#"(document (f (body "a")))"#, "/"),
    BodyRow(r#"(document (bod "a") (bodys "b"))"#, "/"),
    BodyRow(r#"(document (style) (body "a" "b"))"#, "/1/0"),
    BodyRow(r#"(document (body) (style "a" "b"))"#, "-"),
    BodyRow(r#"(document (body) (body "a" "b"))"#, "-"),
    BodyRow(r#"(document (style) (bodies "a" "b"))"#, "/"),
    BodyRow(r#"(body (style) (body "a" "b"))"#, "/"),
    BodyRow(r#"(documents (body) (body "a" "b"))"#, "/"),
];

impl Row for BodyRow {
    fn holds<L: Ledger>(&self, alloc: Global, steps: &mut Steps<L>) -> Option<bool> {
        let t = tree_of(alloc, self.0, steps)?;
        match body(alloc, &t).ok()? {
            Some(path) => Some(format!(in alloc; "{path}").ok()?.as_str() == self.1),
            None => Some(self.1 == "-"),
        }
    }
}

#[test]
fn subtrees_at_paths(rt: HostRuntime) {
    let wrong = first_untrue::<Brand, _>(rt.alloc(), SIZES, Blank::new(1));
    assert_eq!(rt; wrong, None);
}

#[test]
fn bodies_of_trees(rt: HostRuntime) {
    let wrong = first_untrue::<Brand, _>(rt.alloc(), BODIES, Blank::new(1));
    assert_eq!(rt; wrong, None);
}
