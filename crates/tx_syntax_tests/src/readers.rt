// What bytes are read as in each syntax.
ghost use Rattle.std.specs.Prelude.{◌≡◌};

use std::alloc::Global;
use std::marker::Brand;
use std::sync::ledger::{Blank, Ledger};
use tx_base::Steps;
use tx_doc::Form;
use tx_tree::{ReadFault, Tree};

fn tree_of<L: Ledger>(
    alloc: Global,
    form: Form,
    bytes: &[u8],
    blank: Blank,
) -> Result<Tree, ReadFault>
    requires name { blank.name ≡ L.name }
    requires parts { blank.parts ≡ L.parts }
    requires whole { blank.parts ≡ 1 }
{
    let mut steps = Steps::<L>::new(blank);
    match form {
        Form::Tm => tx_tm_read::read(alloc, bytes, &mut steps),
        Form::Scheme => tx_scm::read(alloc, bytes, &mut steps),
    }
}

/// The tree that the bytes spell.
pub(crate) fn read(alloc: Global, form: Form, bytes: &[u8]) -> Result<Tree, ReadFault> {
    tree_of::<Brand>(alloc, form, bytes, Blank::new(1))
}

/// Why the bytes spell no tree, or None where they spell one.
pub(crate) fn refusal(alloc: Global, form: Form, bytes: &[u8]) -> Option<ReadFault> {
    read(alloc, form, bytes).err()
}
