// A law of the numbers of lines, items and errors.
ghost use Rattle.std.specs.Prelude.{ℕ, ◌<◌, ◌≤◌, ◌^◌, length};
ghost use Rattle.std.specs.List.{flat_map};
ghost use Rattle.tx_view_form.specs.Views.{WideView, IsView, lines_of};
ghost use Rattle.tx_view_form.specs.Errors.{errors_of};
ghost use Rattle.tx_line_count.specs.Items.{items_of};

use tx_doc::{Buffer, formed_law};
use tx_units::unit_count_law;

/// A law: a view has fewer than 2^32 lines, items and errors. The items are those of all paragraphs of all units, and
/// the lines are those of all pages.
pub fn line_count_law(buffers: &[Buffer])
    requires few { length buffers.now ≤ 64 }
    ensures lines { (width height : ℕ) (v : WideView) → IsView buffers.now width height v →
        length (lines_of v.units) < 2 ^ 32 }
    ensures items { (width height : ℕ) (v : WideView) → IsView buffers.now width height v →
        length (items_of v.units) < 2 ^ 32 }
    ensures errors { (width height : ℕ) (v : WideView) → IsView buffers.now width height v →
        length (errors_of v.units) < 2 ^ 32 }
{
    formed_law(buffers);
    unit_count_law(buffers);
}
