// Where the parts of a unit are, inside which all modifications are.
ghost use Rattle.std.specs.Prelude.{◌≡◌, length, map, IfOk, IfSome, option_map};
ghost use Rattle.std.specs.List.{All};
ghost use Rattle.tx_mod.specs.Moves.{rest_behind};
ghost use Rattle.tx_walk.specs.Walked.{IsTidy};
ghost use Rattle.tx_bridge.specs.HeldParts.{kept_part};
ghost use Rattle.tx_bridge.specs.CarryingParts.{part_at};
ghost use Rattle.tx_bridge.specs.Others.{path_of_part, kept_there, kept_others, stored_of};

use std::alloc::Global;
use tx_base::Memory;
use tx_origin::Base;
use tx_tree::Path;
use tx_walk::Part;

// The path in the document of the part of this number, if there is one, where the unit is at this path.
fn path_of_part(
    alloc: Global,
    path: &Path,
    parts: &[Part],
    number: usize,
) -> Result<Option<Path>, Memory>
    ensures { IfOk result (λ p. p ≡ path_of_part path.now parts.now number) }
{
    match parts.get(number) {
        None => Ok(None),
        Some(part) => Ok(Some(Base::joined(path, &part.path).path(alloc)?)),
    }
}

/// The paths in the document of the parts of these numbers, where the unit is at this path.
pub(crate) fn paths_of_parts(
    alloc: Global,
    path: &Path,
    parts: &[Part],
    numbers: &[usize],
) -> Result<Vec<Option<Path>>, Memory>
    ensures { IfOk result (λ v. v.items ≡ map (path_of_part path.now parts.now) numbers.now) }
{
    let mut paths = Vec::with_capacity(alloc, numbers.len())?;
    for number in numbers {
        paths.push(path_of_part(alloc, path, parts, *number)?)?;
    }
    Ok(paths)
}

// The path with these numbers.
fn path_along(alloc: Global, steps: &[u32]) -> Result<Path, Memory>
    ensures { IfOk result (λ p. p ≡ steps.now) }
{
    let mut path = Path::root(alloc);
    for step in steps {
        path.push(*step)?;
    }
    Ok(path)
}

// The rest of the path after the front, if the path begins with it.
pub(crate) fn rest_of(alloc: Global, front: &Path, path: &Path) -> Result<Option<Path>, Memory>
    ensures { IfOk result (λ r. r ≡ rest_behind front.now path.now) }
{
    if !path.steps().starts_with(front.steps()) {
        return Ok(None);
    }
    Ok(Some(path_along(alloc, &path.steps()[front.steps().len()..])?))
}

// The part of the unit at this path, which is at the place in the document now, if it is still in the unit.
fn part_at(
    alloc: Global,
    path: &Path,
    place: &Option<Path>,
    part: &Part,
) -> Result<Option<Part>, Memory>
    requires tidy { IsTidy part.now }
    ensures part { IfOk result (λ o. option_map kept_part o ≡ part_at path.now place.now (kept_part part.now)) }
    ensures tidy { IfOk result (λ o. IfSome o IsTidy) }
{
    let Some(place) = place else {
        return Ok(None);
    };
    match rest_of(alloc, path, place)? {
        None => Ok(None),
        Some(rest) => Ok(Some(part.moved(alloc, rest)?)),
    }
}

// The part of this number of the unit at this path, if there is one, and it is still in the unit.
fn other_at(
    alloc: Global,
    path: &Path,
    place: &Option<Path>,
    parts: &[Part],
    number: usize,
) -> Result<Option<Part>, Memory>
    requires tidy { All IsTidy parts.now }
    ensures part { IfOk result (λ o. option_map kept_part o ≡ kept_there path.now parts.now number place.now) }
    ensures tidy { IfOk result (λ o. IfSome o IsTidy) }
{
    match parts.get(number) {
        None => Ok(None),
        Some(part) => part_at(alloc, path, place, part),
    }
}

/// The parts of these numbers of the unit at this path, which are at these places in the document now. None is for one
/// that isn't in the unit any more.
pub(crate) fn others_at(
    alloc: Global,
    path: &Path,
    places: &[Option<Path>],
    parts: &[Part],
    numbers: &[usize],
) -> Result<Vec<(usize, Option<Part>)>, Memory>
    requires number { length places.now ≡ length numbers.now }
    requires tidy { All IsTidy parts.now }
    ensures parts { IfOk result (λ v. stored_of v.items ≡ kept_others path.now parts.now numbers.now places.now) }
    ensures tidy { IfOk result (λ v. All (λ o. IfSome o.1 IsTidy) v.items) }
{
    let mut others = Vec::with_capacity(alloc, numbers.len())?;
    for j in 0..numbers.len() {
        let part = other_at(alloc, path, &places[j], parts, numbers[j])?;
        others.push((numbers[j], part))?;
    }
    Ok(others)
}
