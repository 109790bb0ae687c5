// The former layout of a part.
ghost use Rattle.std.specs.Prelude.{◌≡◌, ◌<◌, None, MatchOption, IsTrue, length, false};
ghost use Rattle.std.specs.List.{IsDistinct};
ghost use Rattle.std.specs.Str.{bytes_eq};
ghost use Rattle.tx_part_layout.specs.LaidParts.{laid_paths, before_at, is_reused};
ghost use Rattle.tx_part_layout.specs.Finding.{IsAt, IsReused};

use crate::attributes::same_attrs;
use crate::laid::PlacedPart;
use tx_items::Attrs;
use tx_tree::Path;
use tx_walk::Part;

// Whether it is the layout of the part at this path.
fn stands_at(placed: &PlacedPart, path: &Path) -> bool
    ensures { result ≡ bytes_eq placed.now.path path.now }
{
    placed.path.steps() == path.steps()
}

// The number of the part at this path.
fn number_at(old: &[PlacedPart], path: &Path) -> Option<usize>
    ensures { MatchOption result (before_at old.now path.now ≡ None)
        (λ i. (i < length old.now) × IsAt old.now path.now i) }
{
    for i in 0..old.len() {
        if stands_at(&old[i], path) {
            return Some(i);
        }
    }
    None
}

// The number of the part at this path. It mostly is the hint.
fn number_near(old: &[PlacedPart], path: &Path, hint: usize) -> Option<usize>
    requires distinct { IsDistinct bytes_eq (laid_paths old.now) }
    ensures { MatchOption result (before_at old.now path.now ≡ None)
        (λ i. (i < length old.now) × IsAt old.now path.now i) }
{
    if let Some(placed) = old.get(hint) {
        if stands_at(placed, path) {
            return Some(hint);
        }
    }
    number_at(old, path)
}

// Whether the part of this number, if there is one, is at the path.
fn is_at(old: &[PlacedPart], path: &Path, hint: usize) -> bool
    ensures { IsTrue result → hint < length old.now }
{
    match old.get(hint) {
        None => false,
        Some(placed) => stands_at(placed, path),
    }
}

/// The number of the former layout of the part with these attributes before it, if it wasn't renewed. `near` is the
/// number that is likely next.
pub(crate) fn reused(
    old: &[PlacedPart],
    part: &Part,
    attrs: &Attrs,
    near: &mut usize,
) -> Option<usize>
    requires distinct { IsDistinct bytes_eq (laid_paths old.now) }
    ensures { MatchOption result (is_reused old.now part.now attrs.now ≡ false)
        (λ i. (i < length old.now) × IsReused old.now part.now attrs.now i) }
{
    let renewed = part.renewed;
    if renewed {
        if is_at(old, &part.path, *near) {
            *near += 1;
        }
        return None;
    }
    match number_near(old, &part.path, *near) {
        None => None,
        Some(i) => {
            *near = i + 1;
            if same_attrs(&old[i].brief.before, attrs) {
                Some(i)
            } else {
                None
            }
        }
    }
}
