// The names and texts of a `with`, and what is given back after it.
ghost use Rattle.std.specs.Prelude.{◌≡◌, Some, IfOk, OnOk};
ghost use Rattle.tx_tree.specs.WideTree.{WideTree, children_of};
ghost use Rattle.tx_parts.specs.Openness.{Settings as TextSettings, With, openness, settings_in};
ghost use Rattle.tx_part_items.specs.ShownParts.{settings_set, settings_given_back};
ghost use Rattle.tx_part_layout.specs.Laying.{given_back_by};

use std::alloc::Global;
use tx_base::Memory;
use tx_items::Attrs;
use tx_tree::{Text, Tree};
use tx_walk::text_at;

/// A `with` round parts: its names and texts in order, and the attributes before it.
#[derive(Drop)]
pub(crate) struct Frame {
    pub(crate) settings: Vec<(Text, Text)>,
    pub(crate) before: Attrs,
}

/// The names and texts of a `with`, in order.
pub(crate) fn settings_of(alloc: Global, t: &Tree) -> Result<Vec<(Text, Text)>, Memory>
    requires opens { (ps : TextSettings) × (b : WideTree) × (settings_in (children_of t.now) ≡ Some (ps, b)) }
    ensures { (ps : TextSettings) (b : WideTree) → settings_in (children_of t.now) ≡ Some (ps, b) →
        IfOk result (λ s. s.items ≡ ps) }
{
    let mut settings = Vec::new(alloc);
    for i in 0..t.arity() / 2 {
        let Some(name) = text_at(t, 2 * i) else {
            unreachable!()
        };
        let Some(words) = text_at(t, 2 * i + 1) else {
            unreachable!()
        };
        settings.push((name.copy()?, words.copy()?))?;
    }
    Ok(settings)
}

/// The last child of a `with`.
pub(crate) fn inner_of(t: &Tree) -> &Tree
    requires opens { (ps : TextSettings) × (b : WideTree) × (settings_in (children_of t.now) ≡ Some (ps, b)) }
    ensures { (ps : TextSettings) (b : WideTree) → settings_in (children_of t.now) ≡ Some (ps, b) → result.now ≡ b }
{
    let count = t.arity();
    if count == 0 {
        unreachable!()
    }
    let Some(inner) = t.child(count - 1) else {
        unreachable!()
    };
    inner
}

/// Sets each name to its text, in order.
pub(crate) fn set_each(
    alloc: Global,
    settings: &[(Text, Text)],
    attrs: &mut Attrs,
) -> Result<(), Memory>
    ensures { OnOk result (attrs.new ≡ settings_set settings.now attrs.old) }
{
    for (name, words) in settings {
        attrs.set(alloc, name, Some(words))?;
    }
    Ok(())
}

/// What the names set is again what it was before.
pub(crate) fn restore_each(
    settings: &[(Text, Text)],
    before: &Attrs,
    attrs: &mut Attrs,
) -> Result<(), Memory>
    ensures { OnOk result (attrs.new ≡ settings_given_back settings.now before.now attrs.old) }
{
    let count = settings.len();
    for i in 0..count {
        attrs.restore(&settings[count - 1 - i].0, before)?;
    }
    Ok(())
}

/// What the `with`s set is again what it was before each, the inner ones first.
pub(crate) fn give_back(frames: &[Frame], attrs: &mut Attrs) -> Result<(), Memory>
    ensures { OnOk result (attrs.new ≡ given_back_by frames.now attrs.old) }
{
    let count = frames.len();
    for i in 0..count {
        let frame = &frames[count - 1 - i];
        restore_each(&frame.settings, &frame.before, attrs)?;
    }
    Ok(())
}
