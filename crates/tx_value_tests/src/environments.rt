// Environments with scopes, many names, and pairs that are set in order.
ghost use Rattle.std.specs.Prelude.{◌≡◌, ◌+◌, ◌<◌, ◌^◌, [], IfSome};

use std::alloc::Global;
use tx_base::Memory;
use tx_env::{Env, Writes};
use tx_tree::{Text, Tree};

// Changes in no scope, then in each of three open scopes, and what the names a, b and c have: in the third scope, and
// after each is left. A change is a name and its value, or a name alone that is unset. An unset name shows as `-`.
const SCOPES: &[(&str, &str, &str, &str, &str)] = &[
    ("", "", "", "", "--- --- --- ---"),
    ("a1 b2 c3", "", "", "", "123 123 123 123"),
    ("a1", "a2", "a3", "a4", "4-- 3-- 2-- 1--"),
    ("a1 b1", "a b2", "c3 a3", "b c", "3-- 323 -2- 11-"),
    ("a1", "a a2 a", "a3 a a4", "a a5 a6", "6-- 4-- --- 1--"),
    ("a1 a", "a2", "a", "a2 a", "--- --- 2-- ---"),
    ("b7", "a b c", "a1 b1 c1", "a b2 c", "-2- 111 --- -7-"),
    ("", "a1", "", "a2 b2", "22- 1-- 1-- ---"),
];

// Changes before, pairs that are set, and what the names have then, without a scope and in one that is then left.
const OVERLAYS: &[(&str, &str, &str)] = &[
    ("", "", "--- ---"),
    ("a1", "b2 c3", "123 1--"),
    ("a1 b1", "a2 a3 a4", "41- 11-"),
    ("c1", "a1 b1 c2 a5", "512 --1"),
];

fn name_of(alloc: Global, word: &[u8]) -> Option<Text> {
    Text::new(alloc, word).ok()
}

fn leaf_of(alloc: Global, word: &[u8]) -> Option<Tree> {
    Tree::leaf(alloc, name_of(alloc, word)?).ok()
}

// One change. The scopes are unchanged in any case.
fn change(alloc: Global, env: &mut Env, word: &[u8]) -> Option<()>
    ensures { env.new.scopes ≡ env.old.scopes }
{
    match word {
        [name, value] => {
            let value = leaf_of(alloc, &[*value])?;
            env.set(name_of(alloc, &[*name])?, value).ok()
        }
        [name] => env.unset(&name_of(alloc, &[*name])?).ok(),
        _ => None,
    }
}

fn change_all(alloc: Global, env: &mut Env, words: &str) -> Option<()>
    ensures { IfSome result (λ _. env.new.scopes ≡ env.old.scopes) }
{
    for word in words.split_whitespace() {
        change(alloc, env, word.as_bytes())?;
    }
    Some(())
}

// What the name has is a text of one byte; `-` where it is unset.
fn shown(alloc: Global, env: &Env, name: &[u8]) -> Option<u8> {
    match env.get(&name_of(alloc, name)?) {
        None => Some(b'-'),
        Some(tree) => tree.text()?.bytes().first().copied(),
    }
}

fn show(alloc: Global, env: &Env, out: &mut Vec<u8>) -> Option<()> {
    if !out.is_empty() {
        out.push(b' ').ok()?;
    }
    out.push(shown(alloc, env, b"a")?).ok()?;
    out.push(shown(alloc, env, b"b")?).ok()?;
    out.push(shown(alloc, env, b"c")?).ok()
}

// The changes of three scopes, one in the other, each left again.
fn three_deep(
    alloc: Global,
    env: &mut Env,
    row: &(&str, &str, &str, &str, &str),
    out: &mut Vec<u8>,
) -> Option<()>
    requires { env.old.scopes ≡ [] }
{
    change_all(alloc, env, row.0)?;
    let outer = env.enter();
    change_all(alloc, env, row.1)?;
    let middle = env.enter();
    change_all(alloc, env, row.2)?;
    let inner = env.enter();
    change_all(alloc, env, row.3)?;
    show(alloc, env, out)?;
    env.leave(inner);
    show(alloc, env, out)?;
    env.leave(middle);
    show(alloc, env, out)?;
    env.leave(outer);
    show(alloc, env, out)
}

fn first_wrong_scope(alloc: Global) -> Option<usize> {
    for (i, row) in SCOPES.iter().enumerate() {
        let mut env = Env::new(alloc);
        let mut out = Vec::new(alloc);
        if three_deep(alloc, &mut env, row, &mut out).is_none()
            || out.as_slice() != row.4.as_bytes()
        {
            return Some(i);
        }
    }
    None
}

fn pair_of(alloc: Global, word: &[u8]) -> Option<(Text, Tree)> {
    match word {
        [name, value] => Some((name_of(alloc, &[*name])?, leaf_of(alloc, &[*value])?)),
        _ => None,
    }
}

fn writes_of(alloc: Global, words: &str) -> Option<Writes> {
    let mut pairs = Vec::new(alloc);
    for word in words.split_whitespace() {
        pairs.push(pair_of(alloc, word.as_bytes())?).ok()?;
    }
    Some(Writes::new(pairs))
}

fn overlaid(alloc: Global, env: &mut Env, writes: &Writes, out: &mut Vec<u8>) -> Option<()>
    requires { env.old.scopes ≡ [] }
{
    let mark = env.enter();
    env.overlay(writes).ok()?;
    show(alloc, env, out)?;
    env.leave(mark);
    show(alloc, env, out)
}

fn is_overlaid(alloc: Global, row: &(&str, &str, &str)) -> Option<bool> {
    let mut env = Env::new(alloc);
    let mut out = Vec::new(alloc);
    let writes = writes_of(alloc, row.1)?;
    change_all(alloc, &mut env, row.0)?;
    overlaid(alloc, &mut env, &writes, &mut out)?;
    if out.as_slice() != row.2.as_bytes() {
        return Some(false);
    }
    env.overlay(&writes).ok()?;
    let mut after = Vec::new(alloc);
    show(alloc, &env, &mut after)?;
    Some(row.2.as_bytes().starts_with(&after))
}

fn first_wrong_overlay(alloc: Global) -> Option<usize> {
    for (i, row) in OVERLAYS.iter().enumerate() {
        if is_overlaid(alloc, row) != Some(true) {
            return Some(i);
        }
    }
    None
}

// Names that all have one hash by the hasher that `indexmap` has of itself, whose key is fixed.
fn numbered(alloc: Global, number: u32) -> Option<Text> {
    let word = format!(in alloc; "n00000000002786800P7yDtM{number:08}abcdefghijklmnop").ok()?;
    name_of(alloc, word.as_bytes())
}

// Sets the name of one number to another number. The scopes are unchanged in any case.
fn set_name(alloc: Global, env: &mut Env, number: u32, value: u32) -> Option<()>
    ensures { env.new.scopes ≡ env.old.scopes }
{
    let value = Tree::leaf(alloc, numbered(alloc, value)?).ok()?;
    env.set(numbered(alloc, number)?, value).ok()
}

// Gives each of the first names its number, counted on from `from`.
fn set_names(alloc: Global, env: &mut Env, count: u32, from: u32) -> Option<()>
    requires { count + from < 2 ^ 32 }
    ensures { IfSome result (λ _. env.new.scopes ≡ env.old.scopes) }
{
    for number in 0..count {
        set_name(alloc, env, number, number + from)?;
    }
    Some(())
}

// Whether each of the first names has its number, counted on from `from`, and the name after them is unset.
fn have_names(alloc: Global, env: &Env, count: u32, from: u32) -> Option<bool>
    requires { count + from < 2 ^ 32 }
{
    for number in 0..count {
        let want = numbered(alloc, number + from)?;
        let found = env.get(&numbered(alloc, number)?)?;
        if found.text()?.bytes() != want.bytes() {
            return Some(false);
        }
    }
    Some(env.get(&numbered(alloc, count)?).is_none())
}

// Whether a thousand names keep their values over a scope in which each has another.
fn keep_names(alloc: Global, env: &mut Env) -> Option<bool>
    requires { env.old.scopes ≡ [] }
{
    set_names(alloc, env, 1000, 0)?;
    let mark = env.enter();
    set_names(alloc, env, 1000, 5000)?;
    let inside = have_names(alloc, env, 1000, 5000)?;
    env.leave(mark);
    Some(inside && have_names(alloc, env, 1000, 0)?)
}

#[test]
fn scopes_three_deep(rt: HostRuntime) {
    assert!(rt; first_wrong_scope(rt.alloc()) == None);
}

#[test]
fn pairs_set_in_order(rt: HostRuntime) {
    assert!(rt; first_wrong_overlay(rt.alloc()) == None);
}

#[test]
fn a_thousand_names(rt: HostRuntime) {
    let mut env = Env::new(rt.alloc());
    let kept = keep_names(rt.alloc(), &mut env);
    assert!(rt; kept == Some(true));
}

// It takes a fraction of a second, and minutes where names are hashed by a fixed key.
#[test]
fn names_chosen_to_collide(rt: HostRuntime) {
    let mut env = Env::new(rt.alloc());
    let set = set_names(rt.alloc(), &mut env, 65535, 0);
    assert!(rt; set == Some(()));
    assert!(rt; have_names(rt.alloc(), &env, 65535, 0) == Some(true));
}
