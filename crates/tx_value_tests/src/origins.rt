// Origins of nested parts, places below a path, and values without their origins.
ghost use Rattle.std.specs.Prelude.{◌≡◌};

use std::alloc::Global;
use std::marker::Brand;
use std::sync::ledger::{Blank, Ledger};
use tx_base::Steps;
use tx_origin::{At, Ip, Spot, Tagged, Value};
use tx_scm::read;
use tx_tree::{Label, Path, Place, Text, Tree};

// A tree, where it is, a way down, and the origin of what the value of the tree has there. `-` is no origin.
const ORIGINS: &[(&str, &str, &str, &str)] = &[
    ("\"abc\"", "/", "/", "/"),
    ("\"abc\"", "-", "/", "-"),
    ("(f)", "/7", "/", "/7"),
    ("(f \"a\" \"b\" \"c\")", "/", "/2", "/2"),
    (
        "(f \"a\" (g \"b\" (h \"c\" \"d\")))",
        "/3/0",
        "/1/1/1",
        "/3/0/1/1/1",
    ),
    (
        "(f \"a\" (g \"b\" (h \"c\" \"d\")))",
        "/3/0",
        "/1/0",
        "/3/0/1/0",
    ),
    ("(f \"a\" (g \"b\" (h \"c\" \"d\")))", "-", "/1/1", "-"),
    (
        "(f (g (h (i (j (k \"x\"))))))",
        "/4294967295",
        "/0/0/0/0/0/0",
        "/4294967295/0/0/0/0/0/0",
    ),
];

// A path, an origin below it or none, an offset, and the place of both.
const PLACES: &[(&str, &str, u32, &str)] = &[
    ("/", "-", 0, "/0"),
    ("/", "/", 3, "/3"),
    ("/1", "-", 4, "/1/4"),
    ("/1/0", "/2/5/7", 0, "/1/0/2/5/7/0"),
    ("/", "/2/0", 1, "/2/0/1"),
    ("/9", "/4294967295", 4294967295, "/9/4294967295/4294967295"),
];

fn ip_of(alloc: Global, path: &Path) -> Option<Ip> {
    let mut ip = Ip::root();
    for number in path.steps() {
        ip = ip.child(alloc, *number).ok()?;
    }
    Some(ip)
}

// The origin of a word, where `-` is none.
fn origin(alloc: Global, word: &str) -> Option<Option<Ip>> {
    if word == "-" {
        return Some(None);
    }
    let path = Path::parse(alloc, word.as_bytes()).ok()?;
    Some(Some(ip_of(alloc, &path)?))
}

// Whether the origin is the one of this word, number by number and as a path.
fn is_origin(alloc: Global, ip: Option<&Ip>, word: &str) -> Option<bool> {
    let Some(ip) = ip else {
        return Some(word == "-");
    };
    if word == "-" {
        return Some(false);
    }
    let want = Path::parse(alloc, word.as_bytes()).ok()?;
    let steps = want.steps();
    for i in 0..=ip.len() {
        if ip.step(i) != steps.get(i).copied() {
            return Some(false);
        }
    }
    let shared = ip.share().ok()?;
    let same = shared.path(alloc).ok()?;
    Some(same.steps() == steps)
}

fn part<'a>(value: &'a Value, way: &Path) -> Option<&'a Value> {
    let mut value = value;
    for step in way.steps() {
        value = value.child(*step)?;
    }
    Some(value)
}

// The tree that the way leads to, by one tagged child after the other.
fn tagged_part(alloc: Global, tagged: Tagged, way: &Path) -> Option<Tagged> {
    let mut tagged = tagged;
    for step in way.steps() {
        tagged = tagged.child(alloc, *step).ok()??;
    }
    Some(tagged)
}

fn is_plain<L: Ledger>(
    alloc: Global,
    value: &Value,
    tree: &Tree,
    steps: &mut Steps<L>,
) -> Option<bool> {
    let shared = value.share().ok()?;
    let plain = shared.plain(alloc, steps).ok()?;
    Some(plain.same(tree))
}

fn holds<L: Ledger>(
    alloc: Global,
    row: &(&str, &str, &str, &str),
    steps: &mut Steps<L>,
) -> Option<bool> {
    let tree = read(alloc, row.0.as_bytes(), steps).ok()?;
    let at = origin(alloc, row.1)?;
    let way = Path::parse(alloc, row.2.as_bytes()).ok()?;
    let value = Value::whole(alloc, &tree, &at).ok()?;
    let found = is_origin(alloc, part(&value, &way)?.origin(), row.3)?;
    let plain = is_plain(alloc, &value, &tree, steps)?;
    let tagged = tagged_part(alloc, Tagged { tree, at }, &way)?;
    Some(found && plain && is_origin(alloc, tagged.at.as_ref(), row.3)?)
}

fn first_wrong_origin<L: Ledger>(alloc: Global, blank: Blank) -> Option<usize>
    requires name { blank.name ≡ L.name }
    requires parts { blank.parts ≡ L.parts }
    requires whole { blank.parts ≡ 1 }
{
    let mut steps = Steps::<L>::new(blank);
    for (i, row) in ORIGINS.iter().enumerate() {
        if holds(alloc, row, &mut steps) != Some(true) {
            return Some(i);
        }
    }
    None
}

fn is_printed(alloc: Global, place: &Place, want: &str) -> Option<bool> {
    let printed = format!(in alloc; "{place}").ok()?;
    Some(printed.as_str() == want)
}

// The place of an origin alone, which has to be that of a spot at the root.
fn is_at(alloc: Global, origin: Ip, offset: u32) -> Option<bool> {
    let root = Path::root(alloc);
    let want = Spot::new(&root, Some(&origin), offset).place(alloc).ok()?;
    let at = At::new(origin.share().ok()?, offset);
    let place = at.place(alloc).ok()?;
    let alike = at.len() == origin.len() && at.step(0) == origin.step(0) && at.offset() == offset;
    Some(alike && place.path.steps() == want.path.steps() && place.offset == offset)
}

fn is_place(alloc: Global, row: &(&str, &str, u32, &str)) -> Option<bool> {
    let base = Path::parse(alloc, row.0.as_bytes()).ok()?;
    let origin = origin(alloc, row.1)?;
    let place = Spot::new(&base, origin.as_ref(), row.2).place(alloc).ok()?;
    let printed = is_printed(alloc, &place, row.3)?;
    match origin {
        None => Some(printed),
        Some(origin) => Some(printed && is_at(alloc, origin, row.2)?),
    }
}

fn first_wrong_place(alloc: Global) -> Option<usize> {
    for (i, row) in PLACES.iter().enumerate() {
        if is_place(alloc, row) != Some(true) {
            return Some(i);
        }
    }
    None
}

// A node round a value, where there is room for one.
fn around(alloc: Global, value: Value) -> Option<Value> {
    if value.depth() >= 400 || value.size() >= 8_000_000 {
        return None;
    }
    let label = Label::new(alloc, b"f").ok()?;
    let mut parts = Vec::new(alloc);
    parts.push(value).ok()?;
    Value::node(alloc, label, parts, None).ok()
}

// As many nodes round the text `ab`.
fn nested(alloc: Global, levels: u32) -> Option<Value> {
    let words = Text::new(alloc, b"ab").ok()?;
    let mut value = Value::leaf(alloc, words, Some(Ip::root())).ok()?;
    for _ in 0..levels {
        value = around(alloc, value)?;
    }
    Some(value)
}

// The size, the depth and the nodes of the deepest value, and the size and the depth of its tree.
fn deepest<L: Ledger>(alloc: Global, blank: Blank) -> Option<[u64; 5]>
    requires name { blank.name ≡ L.name }
    requires parts { blank.parts ≡ L.parts }
    requires whole { blank.parts ≡ 1 }
{
    let mut steps = Steps::<L>::new(blank);
    let value = nested(alloc, 399)?;
    let tree = value.plain(alloc, &mut steps).ok()?;
    Some([
        value.size(),
        u64::from(value.depth()),
        value.nodes(),
        tree.size(),
        u64::from(tree.depth()),
    ])
}

#[test]
fn origins_of_nested_parts(rt: HostRuntime) {
    assert!(rt; first_wrong_origin::<Brand>(rt.alloc(), Blank::new(1)) == None);
}

#[test]
fn places_below_a_path(rt: HostRuntime) {
    assert!(rt; first_wrong_place(rt.alloc()) == None);
}

#[test]
fn a_value_of_the_greatest_depth(rt: HostRuntime) {
    assert!(rt; deepest::<Brand>(rt.alloc(), Blank::new(1)) == Some([402, 400, 399, 402, 400]));
    assert!(rt; nested(rt.alloc(), 400).is_none());
}
