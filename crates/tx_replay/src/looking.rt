// What is looked up, noted once.
ghost use Rattle.std.specs.Prelude.{◌≡◌, OnOk};
ghost use Rattle.std.specs.FinMap.{from_entries};
ghost use Rattle.tx_env.specs.Changes.{map_of};
ghost use Rattle.tx_exec_form.specs.Maps.{noted};
ghost use Rattle.tx_parts.specs.Atop.{both_looks};
ghost use Rattle.tx_replay.specs.Looking.{look_behind};

use tx_base::Memory;
use tx_env::Pairs;
use tx_exec::Looks;
use tx_tree::{Text, Tree, share_tree};

/// A look more, where the name has none yet.
pub(crate) fn note_look(looks: &mut Pairs, name: &Text, found: &Option<Tree>) -> Result<(), Memory>
    ensures { OnOk result (from_entries looks.new ≡ noted (from_entries looks.old) name.now found.now) }
{
    if looks.lists(name) {
        return Ok(());
    }
    looks.put(name.copy()?, share_tree(found)?)
}

/// Adds a look after others, unless the name is one of those that were set.
pub(crate) fn join_look(
    own: &Pairs,
    looks: &mut Pairs,
    name: &Text,
    found: &Option<Tree>,
) -> Result<(), Memory>
    ensures { OnOk result (from_entries looks.new
        ≡ look_behind (map_of own.now) (from_entries looks.old) name.now found.now) }
{
    match own.get(name) {
        Some(_) => Ok(()),
        None => note_look(looks, name, found),
    }
}

/// Adds looks after others, but those at names that were set.
pub(crate) fn join_looks(own: &Pairs, looks: &mut Pairs, more: &Looks) -> Result<(), Memory>
    ensures { OnOk result (from_entries looks.new
        ≡ both_looks (from_entries looks.old) (map_of own.now) (from_entries more.now)) }
{
    for (name, found) in more.pairs() {
        join_look(own, looks, name, found)?;
    }
    Ok(())
}
