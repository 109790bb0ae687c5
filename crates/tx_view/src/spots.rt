// Where the clusters of units begin and end, in order, without a path of their own.
ghost use Rattle.std.specs.Prelude.{◌≡◌, ◌++◌, All, IfOk, OnOk, is_some, map, option_copied};
ghost use Rattle.std.specs.List.{flat_map};
ghost use Rattle.tx_part_items.specs.ItemsUnder.{item_under, paragraph_under};
ghost use Rattle.tx_view_form.specs.Positions.{IsShort, mark_of, marks_of};
ghost use Rattle.tx_view_form.specs.Stops.{unit_stops};
ghost use Rattle.tx_unit_layout.specs.Stretches.{part_or_root};
ghost use Rattle.tx_unit_layout.specs.Views.{unit_view, IsReadable};
ghost use Rattle.tx_view.specs.Marks.{first_of, stops_at, stops_on, spot_places};
ghost use Rattle.tx_view.specs.Units.{unit_views};

use crate::marks::{first_mark, mark_of};
use crate::places::base_of;
use std::alloc::Global;
use tx_base::Memory;
use tx_items::{Item, Paragraph};
use tx_origin::Spot;
use tx_tree::Path;
use tx_unit_layout::Shown;

// Adds where the cluster of an item of this part begins and ends, if it has a place, in a unit with this path.
fn add_item<'a>(
    spots: &mut Vec<Spot<'a>>,
    path: &'a Path,
    part: Option<&'a Path>,
    item: &'a Item,
) -> Result<(), Memory>
    requires { IsShort item.now }
    ensures { OnOk result (spot_places spots.new.items ≡ spot_places spots.old.items
        ++ stops_at path.now (mark_of (item_under (part_or_root (option_copied part.entry)) item.now))) }
{
    if let Some(mark) = mark_of(part, item) {
        spots.push(Spot::behind(base_of(path, mark.part), Some(mark.origin), mark.start))?;
        spots.push(Spot::behind(base_of(path, mark.part), Some(mark.origin), mark.stop))?;
    }
    Ok(())
}

// Adds where the clusters of items begin and end.
fn add_items<'a>(
    spots: &mut Vec<Spot<'a>>,
    path: &'a Path,
    part: Option<&'a Path>,
    items: &'a [Item],
) -> Result<(), Memory>
    requires { All IsShort items.now }
    ensures { OnOk result (spot_places spots.new.items ≡ spot_places spots.old.items
        ++ stops_on path.now (marks_of (map (item_under (part_or_root (option_copied part.entry))) items.now))) }
{
    for item in items {
        add_item(spots, path, part, item)?;
    }
    Ok(())
}

// Adds where the clusters of paragraphs begin and end.
fn add_paragraphs<'a>(
    spots: &mut Vec<Spot<'a>>,
    path: &'a Path,
    part: Option<&'a Path>,
    paragraphs: &'a [Paragraph],
) -> Result<(), Memory>
    requires { All (λ p. All IsShort p.items) paragraphs.now }
    ensures { OnOk result (spot_places spots.new.items ≡ spot_places spots.old.items
        ++ stops_on path.now (marks_of (flat_map (λ p. p.items)
        (map (paragraph_under (part_or_root (option_copied part.entry))) paragraphs.now)))) }
{
    for paragraph in paragraphs {
        add_items(spots, path, part, paragraph.items.all())?;
    }
    Ok(())
}

// Whether a cluster of paragraphs has a place.
fn have_mark(paragraphs: &[Paragraph]) -> bool
    requires { All (λ p. All IsShort p.items) paragraphs.now }
    ensures { result ≡ is_some (first_of (marks_of (flat_map (λ p. p.items) paragraphs.now))) }
{
    for paragraph in paragraphs {
        if first_mark(None, paragraph.items.all()).is_some() {
            return true;
        }
    }
    false
}

// Whether a cluster of a unit has a place.
fn has_mark(unit: &Shown) -> bool
    requires { IsReadable unit.now }
    ensures { result ≡ is_some (first_of (marks_of (flat_map (λ p. p.items) (unit_view unit.now).paragraphs))) }
{
    for i in 0..unit.stretch_count() {
        if have_mark(unit.stretch(i).paragraphs) {
            return true;
        }
    }
    false
}

// Adds where the clusters of a unit with this path begin and end.
fn add_stretches<'a>(
    spots: &mut Vec<Spot<'a>>,
    path: &'a Path,
    unit: &'a Shown,
) -> Result<(), Memory>
    requires { IsReadable unit.now }
    ensures { OnOk result (spot_places spots.new.items ≡ spot_places spots.old.items
        ++ stops_on path.now (marks_of (flat_map (λ p. p.items) (unit_view unit.now).paragraphs))) }
{
    for i in 0..unit.stretch_count() {
        let stretch = unit.stretch(i);
        add_paragraphs(spots, path, stretch.part, stretch.paragraphs)?;
    }
    Ok(())
}

// Adds the places at which a cursor stops in a unit.
fn add_unit<'a>(spots: &mut Vec<Spot<'a>>, unit: &'a Shown) -> Result<(), Memory>
    requires { IsReadable unit.now }
    ensures { OnOk result
        (spot_places spots.new.items ≡ spot_places spots.old.items ++ unit_stops (unit_view unit.now)) }
{
    let Some(path) = &unit.path else {
        return Ok(());
    };
    if !has_mark(unit) {
        spots.push(Spot::new(path, None, 0))?;
        return Ok(());
    }
    add_stretches(spots, path, unit)
}

/// The places at which a cursor stops in units, in order, and each as often as it occurs there.
pub(crate) fn spots_of<'a>(alloc: Global, units: &'a [Shown]) -> Result<Vec<Spot<'a>>, Memory>
    requires { All IsReadable units.now }
    ensures { IfOk result (λ ss. spot_places ss.items ≡ flat_map unit_stops (unit_views units.now)) }
{
    let mut spots = Vec::new(alloc);
    for unit in units {
        add_unit(&mut spots, unit)?;
    }
    Ok(spots)
}
