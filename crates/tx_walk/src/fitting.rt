// Whether the cached trace of a part can be used.
ghost use Rattle.std.specs.Prelude.{◌≡◌, true, false, Some, None, MatchOption};
ghost use Rattle.std.specs.List.{list_all, All, IsDistinct};
ghost use Rattle.std.specs.FinMap as maps;
ghost use Rattle.std.specs.Str.{bytes_eq};
ghost use Rattle.tx_exec.specs.States.{before_of};
ghost use Rattle.tx_exec.specs.Outcomes.{wide_trace};
ghost use Rattle.tx_walk.specs.SameTrees.{same};
ghost use Rattle.tx_walk.specs.Held.{agrees, fits};
ghost use Rattle.tx_walk.specs.Walked.{IsTidy, kept_in, paths_of};
ghost use Rattle.tx_walk.specs.Finding.{AreFindable, IsHeldBy, IsHeldIn, IsUnheld};
ghost use Rattle.tx_walk.specs.LayerTraces.{serves_for};
ghost use Rattle.tx_walk.specs.Prior.{stores_of, holder_of};

use crate::layer_traces::{LayerTrace, found_layer};
use crate::part::Part;
use crate::prior::{PriorParts, PriorStores};
use crate::progress::NextNumbers;
use tx_env::Env;
use tx_exec::Looks;
use tx_tree::{Path, Text, Tree};

/// Whether the trees are equal.
#[tactic(auto, using(crate::proofs::Trees::same_result, std::proofs::lemmas::Grind::common_steps))]
pub fn same_trees(t: &Tree, u: &Tree) -> bool
    ensures { result ≡ same (Some t.now) (Some u.now) }
{
    t.same(u)
}

// Whether the name has what was found there.
fn agrees_at(env: &Env, name: &Text, found: &Option<Tree>) -> bool
    ensures { result ≡ same (maps.get env.now.map name.now) found.now }
{
    match (env.get(name), found) {
        (None, None) => true,
        (Some(tree), Some(found)) => same_trees(tree, found),
        _ => false,
    }
}

/// Whether each name has what was found where it was looked up.
pub fn looks_agree(env: &Env, looks: &Looks) -> bool
    ensures { result ≡ list_all (λ look. same (maps.get env.now.map look.0) look.1) looks.now }
{
    looks
        .pairs()
        .iter()
        .all(|look| agrees_at(env, &look.0, &look.1))
}

// Whether the part's trace fits what names have.
fn fits(env: &Env, part: &Part) -> bool
    requires { IsTidy part.now }
    ensures { result ≡ agrees (before_of env.now) (wide_trace part.now.trace).looks }
{
    looks_agree(env, &part.trace.looks)
}

// The cached part at the path, if its trace fits what names have. `next` is the number that is likely next.
fn found<'a>(env: &Env, kept: &PriorParts<'a>, path: &Path, next: &mut usize) -> Option<&'a Part>
    requires tidy { All IsTidy kept.now }
    requires distinct { IsDistinct bytes_eq (paths_of kept.now) }
    ensures { MatchOption result (fits (before_of env.now) (kept_in kept.now path.now) ≡ false)
        (λ p. IsHeldBy (before_of env.now) path.now (kept_in kept.now path.now) p.now) }
{
    let parts = kept.all();
    match kept.number_near(path, *next) {
        None => None,
        Some(i) => {
            *next = i + 1;
            if fits(env, &parts[i]) {
                Some(&parts[i])
            } else {
                None
            }
        }
    }
}

/// A part that holds the one at its path. `renewed` says that no cached trace there fits, so that this is the spare's.
#[derive(Drop)]
pub(crate) struct HeldPart<'a> {
    pub part: &'a Part,
    pub renewed: bool,
}

/// What holds the part at the path where names have this: the cached part there, or else the spare's. `next` has the
/// numbers that are likely next.
pub(crate) fn held<'a>(
    env: &Env,
    kept: &PriorStores<'a>,
    path: &Path,
    next: &mut NextNumbers,
) -> Option<HeldPart<'a>>
    requires own { AreFindable kept.now.own }
    requires spare { AreFindable kept.now.spare }
    ensures { MatchOption result (IsUnheld (before_of env.now) path.now (stores_of kept.now))
        (λ h. IsHeldIn (before_of env.now) path.now (stores_of kept.now) h.part.now h.renewed) }
{
    if let Some(part) = found(env, &kept.own, path, &mut next.own) {
        return Some(HeldPart {
            part,
            renewed: false,
        });
    }
    let part = found(env, &kept.spare, path, &mut next.spare)?;
    Some(HeldPart {
        part,
        renewed: true,
    })
}

/// What holds the layer's tree where names have this: a cached trace, or else the spare's. `next` has the numbers that
/// are likely next.
pub(crate) fn held_layer<'a>(
    env: &Env,
    kept: &PriorStores<'a>,
    t: &Tree,
    next: &mut NextNumbers,
) -> Option<&'a LayerTrace>
    ensures { MatchOption result (holder_of kept.now t.now (before_of env.now) ≡ false)
        (λ m. (serves_for t.now (before_of env.now) m.now ≡ true)
        × (holder_of kept.now t.now (before_of env.now) ≡ true)) }
{
    if let Some(found) = found_layer(env, kept.layers, t, &mut next.layers) {
        return Some(found);
    }
    found_layer(env, kept.spare_layers, t, &mut next.spare_layers)
}
