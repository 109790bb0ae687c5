// Which places modifications are found to leave as they are.
ghost use Rattle.std.specs.Prelude.{◌≡◌, ◌++◌, true, not, is_some};
ghost use Rattle.std.specs.Option.{option_map_or};
ghost use Rattle.tx_mod.specs.Mods.{path_of};
ghost use Rattle.tx_mod.specs.Moves.{rest_behind};
ghost use Rattle.tx_bridge.specs.InPlace.{begins_path, are_within};
ghost use Rattle.tx_bridge.specs.Keeping.{is_below, stands_before, keeps_by_split, keeps_by_join, keeps_at};
ghost use Rattle.tx_bridge.specs.Keeping.{keeps_place, all_keep_place};

use tx_mod::Mod;
use tx_tree::Path;

fn is_below(rest: &[u32]) -> bool
    ensures { result ≡ is_below rest.now }
{
    match rest {
        [] => false,
        [_, ..] => true,
    }
}

fn stands_before(i: u32, rest: &[u32]) -> bool
    ensures { result ≡ stands_before i rest.now }
{
    match rest {
        [] => false,
        [k, ..] => *k < i,
    }
}

fn keeps_by_split(i: u32, j: u32, rest: &[u32]) -> bool
    ensures { result ≡ keeps_by_split i j rest.now }
{
    match rest {
        [] => false,
        [k, below @ ..] => *k < i || *k == i && stands_before(j, below),
    }
}

fn keeps_by_join(i: u32, rest: &[u32]) -> bool
    ensures { result ≡ keeps_by_join i rest.now }
{
    match rest {
        [] => false,
        [k, below @ ..] => *k < i || *k == i && is_below(below),
    }
}

// Whether the modification keeps the place `rest`, seen from its path.
fn keeps_at(m: &Mod, rest: &[u32]) -> bool
    ensures { result ≡ keeps_at m.now rest.now }
{
    match m {
        Mod::Insert(_, i, _) => stands_before(*i, rest),
        Mod::Remove(_, i, _) => stands_before(*i, rest),
        Mod::Split(_, i, j) => keeps_by_split(*i, *j, rest),
        Mod::Join(_, i) => keeps_by_join(*i, rest),
        Mod::AssignNode(_, _) => is_below(rest),
        Mod::Assign(_, _) | Mod::InsertNode(_, _, _) | Mod::RemoveNode(_, _) => false,
    }
}

// Whether the modification keeps the place `below`, where its own path is `own`, both seen from one path.
fn keeps_below(m: &Mod, own: &[u32], below: &[u32]) -> bool
    ensures { result ≡ option_map_or (keeps_at m.now) (rest_behind own.now below.now)
        (not (is_some (rest_behind below.now own.now))) }
{
    if below.starts_with(own) {
        return keeps_at(m, &below[own.len()..]);
    }
    !own.starts_with(below)
}

// Whether the modification keeps the place `below`, seen from `base`. The modification is inside the subtree at `base`.
fn keeps_place(m: &Mod, base: &Path, below: &Path) -> bool
    requires { begins_path base.now (path_of m.now) ≡ true }
    ensures { result ≡ keeps_place m.now (base.now ++ below.now) }
{
    keeps_below(m, &m.path().steps()[base.steps().len()..], below.steps())
}

/// Whether the place `below`, seen from the path `base`, is found to be unchanged by all modifications, which are all
/// inside the subtree at `base`. It goes by paths and numbers alone: it looks at no tree, and takes no memory.
///
/// Where the modifications apply, the subtree at a place that is found to be unchanged is carried to its own path
/// (`keeping_law`). False says nothing.
pub fn all_keep_place(mods: &[Mod], base: &Path, below: &Path) -> bool
    requires within { are_within base.now mods.now ≡ true }
    ensures { result ≡ all_keep_place mods.now (base.now ++ below.now) }
{
    for m in mods {
        if !keeps_place(m, base, below) {
            return false;
        }
    }
    true
}
