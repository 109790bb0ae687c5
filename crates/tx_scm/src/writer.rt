// The canonical text of a tree.
ghost use Rattle.std.specs.Prelude.{◌≡◌, ◌++◌, length, take, OnOk, OnErr};
ghost use Rattle.std.specs.List.{flat_map};
ghost use Rattle.tx_scm.specs.Spelling.{escaped, string_of};
ghost use Rattle.tx_scm.specs.Canonical.{scheme_text};

use tx_base::Memory;
use tx_tree::Tree;

// Appends the bytes of a text as they are written in a string.
fn append_escaped(bytes: &[u8], out: &mut Vec<u8>) -> Result<(), Memory>
    ensures ok { OnOk result (out.new.items ≡ out.old.items ++ flat_map escaped bytes.now) }
    ensures grows { take (length out.old.items) out.new.items ≡ out.old.items }
{
    for byte in bytes {
        if *byte == b'"' || *byte == b'\\' {
            out.push(b'\\')?;
        }
        out.push(*byte)?;
    }
    Ok(())
}

// Appends the string of a text.
pub(crate) fn append_string(bytes: &[u8], out: &mut Vec<u8>) -> Result<(), Memory>
    ensures ok { OnOk result (out.new.items ≡ out.old.items ++ string_of bytes.now) }
    ensures grows { take (length out.old.items) out.new.items ≡ out.old.items }
{
    out.push(b'"')?;
    append_escaped(bytes, out)?;
    out.push(b'"')?;
    Ok(())
}

// Appends the text of a tree.
#[tactic(auto, using(crate::proofs::Writing::text_rules))]
fn append_tree(t: &Tree, out: &mut Vec<u8>) -> Result<(), Memory>
    ensures ok { OnOk result (out.new.items ≡ out.old.items ++ scheme_text t.now) }
    ensures grows { take (length out.old.items) out.new.items ≡ out.old.items }
{
    if let Some(text) = t.text() {
        return append_string(text.bytes(), out);
    }
    out.push(b'(')?;
    let Some(label) = t.label() else {
        unreachable!()
    };
    out.extend_from_slice(label.bytes())?;
    for child in t.children() {
        out.push(b' ')?;
        append_tree(child, out)?;
    }
    out.push(b')')?;
    Ok(())
}

/// Appends the canonical text of the tree: one space before each child, and no other white. After `Memory`
/// `out` is as before.
pub fn write(t: &Tree, out: &mut Vec<u8>) -> Result<(), Memory>
    ensures ok { OnOk result (out.new.items ≡ out.old.items ++ scheme_text t.now) }
    ensures err { OnErr result (out.new.items ≡ out.old.items) }
{
    let before = out.len();
    let written = append_tree(t, out);
    if written.is_err() {
        out.truncate(before);
    }
    written
}
