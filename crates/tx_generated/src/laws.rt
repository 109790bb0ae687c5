// What the generated text spells.
ghost use Rattle.std.specs.Prelude.{◌≡◌, ◌≤◌, ℕ};
ghost use Rattle.tx_tree.specs.Limits.{IsWellFormed, IsWithinLimits};
ghost use Rattle.tx_tm_write.specs.Canonical.{tm_text};
ghost use Rattle.tx_tm_write.specs.Alone.{SpellsAlone};
ghost use Rattle.tx_generated.specs.Document.{document_text};
ghost use Rattle.tx_generated.specs.Tree.{document};

use tx_tm_write::canonical_laws;
use tx_tree::text_laws;

/// A law: the text of a document is the canonical TM text of its tree, and spells that tree alone. The tree is well
/// formed, and within the limits where it has 60,000 paragraphs at most.
pub fn document_laws()
    ensures canonical { (number count : ℕ) → document_text number count ≡ tm_text (document number count) }
    ensures spelled { (number count : ℕ) → SpellsAlone (document_text number count) (document number count) }
    ensures formed { (number count : ℕ) → IsWellFormed (document number count) }
    ensures within { (number count : ℕ) → count ≤ 60000 → IsWithinLimits (document number count) }
{
    canonical_laws();
    text_laws();
}
