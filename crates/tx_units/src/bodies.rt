// The units of the document's body.
ghost use Rattle.std.specs.Prelude.{◌≡◌, ◌++◌, true, OnOk};
ghost use Rattle.tx_units.specs.Documents.{is_document};
ghost use Rattle.tx_units.specs.Units.{units_at, body_units};

use crate::documents::is_document;
use crate::kinds::Unit;
use std::alloc::Global;
use tx_base::Memory;
use tx_doc::body;
use tx_tree::{Path, Tree};

// Adds the paragraphs of a body that is a `document` at this path.
fn add_paragraphs(
    alloc: Global,
    units: &mut Vec<Unit>,
    path: &Path,
    body: &Tree,
) -> Result<(), Memory>
    requires { is_document body.now ≡ true }
    ensures { OnOk result (units.new.items ≡ units.old.items ++ units_at path.now body.now) }
{
    let _arity = body.arity();
    let paragraphs = body.children();
    for (i, paragraph) in paragraphs.iter().enumerate() {
        let own = path.child(alloc, i as u32)?;
        units.push(Unit::of_body(paragraph.share()?, own))?;
    }
    Ok(())
}

/// Adds the paragraphs of the document's body. They share its trees, and each needs no memory but its place in the
/// list while its path has at most six numbers.
pub(crate) fn add_body(alloc: Global, units: &mut Vec<Unit>, document: &Tree) -> Result<(), Memory>
    ensures { OnOk result (units.new.items ≡ units.old.items ++ body_units document.now) }
{
    let Some(path) = body(alloc, document)? else {
        return Ok(());
    };
    let Some(body) = document.at(&path) else {
        return Ok(());
    };
    if is_document(body) {
        units.reserve(body.children().len())?;
        add_paragraphs(alloc, units, &path, body)
    } else {
        units.push(Unit::of_body(body.share()?, path))?;
        Ok(())
    }
}
