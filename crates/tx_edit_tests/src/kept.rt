// Values at paths: carried through each kind of modification, found, set and replaced.
ghost use Rattle.std.specs.Prelude.{◌≡◌, IfSome, Some};
ghost use Rattle.tx_tree.specs.WideTree.{WideTree};
ghost use Rattle.tx_mod.specs.Followed.{changed_by_all};
ghost use Rattle.tx_kept.specs.Entries.{AllLead};

use std::alloc::Global;
use std::marker::Brand;
use std::sync::ledger::{Blank, Ledger};
use tx_base::Steps;
use tx_cmd::{Command, parse};
use tx_kept::{Entry, PathMap, are_in_order, trees_before};
use tx_mod::{Mod, applicable};
use tx_samples::{Row, first_untrue, tree_of};
use tx_tree::{Path, Tree};

// The modification that a command line spells.
fn mod_of<L: Ledger>(alloc: Global, line: &str, steps: &mut Steps<L>) -> Option<Mod> {
    match parse(alloc, line.as_bytes(), steps).ok()? {
        Command::Change(m) => Some(m),
        _ => None,
    }
}

// The modification in a list. None where it doesn't apply to the tree.
#[tactic(auto, using(crate::proofs::Applied::one_applies))]
fn alone(alloc: Global, t: &Tree, m: Mod) -> Option<Vec<Mod>>
    ensures { IfSome result (λ ms. (u : WideTree) × (changed_by_all ms.items t.now ≡ Some u)) }
{
    applicable(t, &m).ok()?;
    vec![in alloc; m].ok()
}

// A map with an entry at the path. None where that leads nowhere.
fn one_at(alloc: Global, t: &Tree, path: Path) -> Option<PathMap<u8>>
    ensures { IfSome result (λ map. AllLead t.now map) }
{
    t.at(&path)?;
    let entries = vec![in alloc; Entry { path, value: 7 }].ok()?;
    Some(PathMap::new(entries))
}

// Whether `carry` moves an entry at the path to the place, or takes it out where that is `-`.
fn is_carried<L: Ledger>(
    alloc: Global,
    t: &Tree,
    m: Mod,
    path: Path,
    place: &str,
    steps: &mut Steps<L>,
) -> Option<bool> {
    let mods = alone(alloc, t, m)?;
    let mut map = one_at(alloc, t, path)?;
    map.carry(alloc, t, &mods, steps).ok()?;
    is_alone_at(alloc, map.entries(), place)
}

// Whether `carry_along` does so, with the trees that `trees_before` finds.
fn is_carried_along<L: Ledger>(
    alloc: Global,
    t: &Tree,
    m: Mod,
    path: Path,
    place: &str,
    steps: &mut Steps<L>,
) -> Option<bool> {
    let mods = alone(alloc, t, m)?;
    let mut map = one_at(alloc, t, path)?;
    let trees = trees_before(alloc, t, &mods, steps).ok()?;
    map.carry_along(alloc, t, &mods, &trees).ok()?;
    Some(trees.len() == 1 && is_alone_at(alloc, map.entries(), place)?)
}

// A tree, a modification, a path, and where an entry at the path is afterwards, or `-` where it is dropped.
struct CarryRow(&'static str, &'static str, &'static str, &'static str);

const CARRIED: &[CarryRow] = &[
    CarryRow(r#"(f "a" (g "b"))"#, r#"assign /1 "c""#, "/1/0", "-"),
    CarryRow(r#"(f "a" (g "b"))"#, r#"assign /1 "c""#, "/1", "-"),
    CarryRow(r#"(f "a" (g "b"))"#, r#"assign /1 "c""#, "/", "-"),
    CarryRow(r#"(f "a" (g "b"))"#, r#"assign /1 "c""#, "/0", "/0"),
    CarryRow(
        r#"(f "a" "b")"#,
        r#"insert / 1 (tuple "c" "d")"#,
        "/1",
        "/3",
    ),
    CarryRow(
        r#"(f "a" "b")"#,
        r#"insert / 1 (tuple "c" "d")"#,
        "/0",
        "/0",
    ),
    CarryRow(r#"(f "a" "b")"#, r#"insert /0 1 "c""#, "/0", "-"),
    CarryRow(r#"(f "a" "b" (g "c"))"#, "remove / 0 1", "/2/0", "/1/0"),
    CarryRow(r#"(f "a" (g "b") "c")"#, "remove / 1 1", "/1/0", "-"),
    CarryRow(r#"(f (g "a" "b") "c")"#, "split / 0 1", "/0/1", "/1/0"),
    CarryRow(r#"(f (g "a" "b") "c")"#, "split / 0 1", "/0/0", "/0/0"),
    CarryRow(r#"(f (g "a" "b") "c")"#, "split / 0 1", "/0", "-"),
    CarryRow(r#"(f (g "a" "b") "c")"#, "split / 0 1", "/1", "/2"),
    CarryRow(r#"(f (g "a") (g "b" "c") "d")"#, "join / 0", "/1/1", "/0/2"),
    CarryRow(r#"(f (g "a") (g "b" "c") "d")"#, "join / 0", "/0/0", "/0/0"),
    CarryRow(r#"(f (g "a") (g "b" "c") "d")"#, "join / 0", "/1", "-"),
    CarryRow(r#"(f (g "a") (g "b" "c") "d")"#, "join / 0", "/2", "/1"),
    CarryRow(r#"(f (g "a"))"#, "assign-node /0 h", "/0/0", "/0/0"),
    CarryRow(r#"(f (g "a"))"#, "assign-node /0 h", "/0", "-"),
    CarryRow(
        r#"(f (g "a"))"#,
        r#"insert-node /0 1 (h "b")"#,
        "/0/0",
        "/0/1/0",
    ),
    CarryRow(
        r#"(f (g "a"))"#,
        r#"insert-node /0 1 (h "b")"#,
        "/0",
        "/0/1",
    ),
    CarryRow(
        r#"(f (f (f (f (f (f "a"))))))"#,
        r#"insert-node / 2 (h "b" "c")"#,
        "/0/0/0/0/0/0",
        "/2/0/0/0/0/0/0",
    ),
    CarryRow(r#"(f "a" (g "b"))"#, "remove-node / 1", "/1/0", "/0"),
    CarryRow(r#"(f "a" (g "b"))"#, "remove-node / 1", "/1", "/"),
    CarryRow(r#"(f "a" (g "b"))"#, "remove-node / 1", "/0", "-"),
];

// Whether there is one entry, which has the value and is there, or none where the place is `-`.
fn is_alone_at(alloc: Global, entries: &[Entry<u8>], place: &str) -> Option<bool> {
    match entries {
        [] => Some(place == "-"),
        [only] => {
            let path = format!(in alloc; "{}", only.path).ok()?;
            Some(only.value == 7 && path.as_str() == place)
        }
        _ => Some(false),
    }
}

impl Row for CarryRow {
    fn holds<L: Ledger>(&self, alloc: Global, steps: &mut Steps<L>) -> Option<bool> {
        let t = tree_of(alloc, self.0, steps)?;
        let m = mod_of(alloc, self.1, steps)?;
        let path = Path::parse(alloc, self.2.as_bytes()).ok()?;
        let copy = path.copy(alloc).ok()?;
        let carried = is_carried(alloc, &t, m, path, self.3, steps)?;
        let m = mod_of(alloc, self.1, steps)?;
        Some(carried && is_carried_along(alloc, &t, m, copy, self.3, steps)?)
    }
}

#[test]
fn entries_carried(rt: HostRuntime) {
    let wrong = first_untrue::<Brand, _>(rt.alloc(), CARRIED, Blank::new(1));
    assert_eq!(rt; wrong, None);
}

// An entry at each path, of which the value is its number.
fn entries_of(alloc: Global, paths: &str) -> Option<Vec<Entry<usize>>> {
    let mut entries = Vec::new(alloc);
    for (value, words) in paths.split(' ').enumerate() {
        let path = Path::parse(alloc, words.as_bytes()).ok()?;
        entries.push(Entry { path, value }).ok()?;
    }
    Some(entries)
}

// The map with an entry at each path. None where they aren't in order.
fn map_of(alloc: Global, paths: &str) -> Option<PathMap<usize>> {
    let entries = entries_of(alloc, paths)?;
    if are_in_order(&entries) {
        Some(PathMap::new(entries))
    } else {
        None
    }
}

const PATHS: &str = "/0 /0/1 /0/1/4 /1/2 /2 /2/0 /10";

// A path, the number of its entry, and the numbers from which on and before which entries are at it or below.
struct FindRow(&'static str, Option<usize>, usize, usize);

const FOUND: &[FindRow] = &[
    FindRow("/", None, 0, 7),
    FindRow("/0", Some(0), 0, 3),
    FindRow("/0/1", Some(1), 1, 3),
    FindRow("/0/1/4", Some(2), 2, 3),
    FindRow("/0/1/3", None, 2, 2),
    FindRow("/0/2", None, 3, 3),
    FindRow("/1", None, 3, 4),
    FindRow("/1/2", Some(3), 3, 4),
    FindRow("/2", Some(4), 4, 6),
    FindRow("/2/0", Some(5), 5, 6),
    FindRow("/9", None, 6, 6),
    FindRow("/10", Some(6), 6, 7),
    FindRow("/11", None, 7, 7),
];

impl Row for FindRow {
    fn holds<L: Ledger>(&self, alloc: Global, _steps: &mut Steps<L>) -> Option<bool> {
        let map = map_of(alloc, PATHS)?;
        let path = Path::parse(alloc, self.0.as_bytes()).ok()?;
        let range = map.range(&path);
        let same = map.find(&path, 2) == self.1 && map.find(&path, 99) == self.1;
        Some(same && range.start == self.2 && range.end == self.3)
    }
}

#[test]
fn entries_found(rt: HostRuntime) {
    let wrong = first_untrue::<Brand, _>(rt.alloc(), FOUND, Blank::new(1));
    assert_eq!(rt; wrong, None);
}

#[test]
fn paths_out_of_order(rt: HostRuntime) {
    assert_eq!(rt; map_of(rt.alloc(), "/0/1 /0").is_none(), true);
    assert_eq!(rt; map_of(rt.alloc(), "/0 /0").is_none(), true);
    assert_eq!(rt; map_of(rt.alloc(), "/2 /10 /2/1").is_none(), true);
}

// Whether the entries have these values.
fn have_values(entries: &[Entry<usize>], values: &[usize]) -> bool {
    entries.len() == values.len()
        && entries
            .iter()
            .zip(values)
            .all(|(entry, value)| entry.value == *value)
}

// Whether a value is put in the place of another one, which is returned.
fn is_set(alloc: Global) -> Option<bool> {
    let mut map = map_of(alloc, "/0 /1 /1/0")?;
    if map.entries().len() < 2 {
        return None;
    }
    let old = map.set(1, 9);
    Some(old == 1 && have_values(map.entries(), &[0, 9, 2]))
}

// Whether entries replace none.
fn is_replaced(alloc: Global) -> Option<bool> {
    let entries = entries_of(alloc, "/0 /1 /1/0")?;
    if !are_in_order(&entries) {
        return None;
    }
    let mut map = PathMap::empty(alloc);
    map.replace(0, 0, entries).ok()?;
    Some(have_values(map.entries(), &[0, 1, 2]))
}

#[test]
fn values_and_entries_replaced(rt: HostRuntime) {
    assert_eq!(rt; is_set(rt.alloc()), Some(true));
    assert_eq!(rt; is_replaced(rt.alloc()), Some(true));
}
