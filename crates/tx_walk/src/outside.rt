// What is looked up and set at other names than those of a `with`.
ghost use Rattle.std.specs.Prelude.{◌≡◌, ◌∷◌, ◌++◌, [], IfOk, OnOk, if◌then◌else◌};
ghost use Rattle.std.specs.List.{list_any};
ghost use Rattle.std.specs.Str.{bytes_eq};
ghost use Rattle.tx_walk.specs.Outside.{is_among, outside};

use std::alloc::Global;
use tx_base::Memory;
use tx_env::Writes;
use tx_exec::Looks;
use tx_tree::{Text, Tree, share_tree};

// Whether the name is one of these.
fn is_among(pairs: &[(Text, Tree)], name: &Text) -> bool
    ensures { result ≡ list_any (λ p. bytes_eq p.0 name.now) pairs.now }
{
    pairs.iter().any(|pair| pair.0.bytes() == name.bytes())
}

// Adds a look, unless the name is one of these.
fn keep_look(
    pairs: &[(Text, Tree)],
    kept: &mut Vec<(Text, Option<Tree>)>,
    name: &Text,
    found: &Option<Tree>,
) -> Result<(), Memory>
    ensures { OnOk result (kept.new.items
        ≡ (if is_among pairs.now name.now then kept.old.items else kept.old.items ++ (name.now, found.now) ∷ [])) }
{
    if is_among(pairs, name) {
        return Ok(());
    }
    kept.push((name.copy()?, share_tree(found)?))?;
    Ok(())
}

// Adds a name that is set, unless it is one of these.
fn keep_write(
    pairs: &[(Text, Tree)],
    kept: &mut Vec<(Text, Tree)>,
    name: &Text,
    tree: &Tree,
) -> Result<(), Memory>
    ensures { OnOk result (kept.new.items
        ≡ (if is_among pairs.now name.now then kept.old.items else kept.old.items ++ (name.now, tree.now) ∷ [])) }
{
    if is_among(pairs, name) {
        return Ok(());
    }
    kept.push((name.copy()?, tree.share()?))?;
    Ok(())
}

/// The looks at other names than these.
pub(crate) fn looks_outside(
    alloc: Global,
    pairs: &[(Text, Tree)],
    looks: &Looks,
) -> Result<Looks, Memory>
    ensures { IfOk result (λ l. l ≡ outside pairs.now looks.now) }
{
    let mut kept = Vec::new(alloc);
    for (name, found) in looks.pairs() {
        keep_look(pairs, &mut kept, name, found)?;
    }
    Ok(Looks::new(kept))
}

/// What is set at other names than these.
pub(crate) fn writes_outside(
    alloc: Global,
    pairs: &[(Text, Tree)],
    writes: &Writes,
) -> Result<Writes, Memory>
    ensures { IfOk result (λ w. w ≡ outside pairs.now writes.now) }
{
    let mut kept = Vec::new(alloc);
    for (name, tree) in writes.pairs() {
        keep_write(pairs, &mut kept, name, tree)?;
    }
    Ok(Writes::new(kept))
}
