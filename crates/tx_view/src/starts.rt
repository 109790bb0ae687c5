// The attributes at the start of a unit.
ghost use Rattle.std.specs.Prelude.{◌≡◌, IfOk, OnOk, codes};
ghost use Rattle.tx_items.specs.Attributes.{initial, attribute_named, with_named};
ghost use Rattle.tx_view_form.specs.Started.{attributes_of, set_to};
ghost use Rattle.tx_view.specs.Variables.{AreVariables};

use std::alloc::Global;
use tx_base::Memory;
use tx_env::Env;
use tx_items::Attrs;
use tx_tree::{Text, text_of};

/// The names of the seven variables, and the attributes where none of them is set.
#[derive(Drop)]
pub(crate) struct Variables {
    series: Text,
    shape: Text,
    color: Text,
    mode: Text,
    left: Text,
    right: Text,
    first: Text,
    unset: Attrs,
}

// Sets an attribute to what its variable has.
fn take(alloc: Global, attrs: &mut Attrs, env: &Env, name: &Text) -> Result<(), Memory>
    ensures { OnOk result (attrs.new
        ≡ with_named (attribute_named name.now) (set_to env.now.map name.now) attrs.old) }
{
    match env.get(name) {
        None => attrs.set(alloc, name, None),
        Some(tree) => attrs.set(alloc, name, tree.text()),
    }
}

impl Variables {
    pub(crate) fn new(alloc: Global) -> Result<Variables, Memory>
        ensures { IfOk result AreVariables }
    {
        Ok(Variables {
            series: text_of(alloc, b"font-series".as_slice())?,
            shape: text_of(alloc, b"font-shape".as_slice())?,
            color: text_of(alloc, b"color".as_slice())?,
            mode: text_of(alloc, b"par-mode".as_slice())?,
            left: text_of(alloc, b"par-left".as_slice())?,
            right: text_of(alloc, b"par-right".as_slice())?,
            first: text_of(alloc, b"par-first".as_slice())?,
            unset: Attrs::initial(alloc)?,
        })
    }

    /// The attributes at the start of a unit with this environment.
    pub(crate) fn attributes(&self, alloc: Global, env: &Env) -> Result<Attrs, Memory>
        requires { AreVariables self.now }
        ensures { IfOk result (λ a. a ≡ attributes_of env.now.map) }
    {
        let mut attrs = self.unset.copy()?;
        take(alloc, &mut attrs, env, &self.series)?;
        take(alloc, &mut attrs, env, &self.shape)?;
        take(alloc, &mut attrs, env, &self.color)?;
        take(alloc, &mut attrs, env, &self.mode)?;
        take(alloc, &mut attrs, env, &self.left)?;
        take(alloc, &mut attrs, env, &self.right)?;
        take(alloc, &mut attrs, env, &self.first)?;
        Ok(attrs)
    }
}
