// One edit is left out, and a tree between two of its modifications passes a limit without the later edits.
ghost use Rattle.std.specs.Prelude.{◌≡◌, ◌∷◌, [], Ok, IfSome};
ghost use Rattle.tx_commute.specs.Leaving.{lists_in_turn};

use std::alloc::Global;
use std::marker::Brand;
use std::sync::ledger::{Blank, Ledger};
use tx_base::Steps;
use tx_commute::{Left, leave};
use tx_mod::{ApplyFault, Mod, ModFault, ModList, apply};
use tx_samples::{Row, first_untrue, tree_of};
use tx_tree::{Path, Text, Tree};

// A document of one text. An edit puts bytes into it and takes just these out again. A later edit puts bytes in at the
// text's start.
struct LeftRow {
    text: usize,
    // where the edit puts how many bytes
    at: u32,
    put: u32,
    later: u32,
    // the length of a text that is refused where the edit is then taken back, modification by modification
    too_long: Option<u64>,
}

const LEFT: &[LeftRow] = &[
    LeftRow {
        text: 400,
        at: 100,
        put: 10_080,
        later: 100,
        too_long: None,
    },
    LeftRow {
        text: 40_000,
        at: 10_000,
        put: 1_008_000,
        later: 10_000,
        too_long: Some(1_058_000),
    },
];

fn text_of(alloc: Global, byte: u8, count: usize) -> Option<Tree> {
    let bytes = vec![in alloc; byte; count].ok()?;
    Tree::leaf(alloc, Text::new(alloc, &bytes).ok()?).ok()
}

fn first_child(alloc: Global) -> Option<Path> {
    Path::parse(alloc, b"/0".as_slice()).ok()
}

fn document<L: Ledger>(
    alloc: Global,
    byte: u8,
    count: usize,
    steps: &mut Steps<L>,
) -> Option<Tree> {
    let empty = tree_of(alloc, "(document \"\")", steps)?;
    let text = text_of(alloc, byte, count)?;
    apply(
        alloc,
        &empty,
        &Mod::Assign(first_child(alloc)?, text),
        steps,
    )
    .ok()
}

// The document after three modifications.
fn after_three<L: Ledger>(
    alloc: Global,
    t: &Tree,
    a: &Mod,
    b: &Mod,
    c: &Mod,
    steps: &mut Steps<L>,
) -> Option<Tree>
    ensures { IfSome result (λ u. lists_in_turn ((a.now ∷ b.now ∷ []) ∷ (c.now ∷ []) ∷ []) t.now ≡ Ok u) }
{
    let once = apply(alloc, t, a, steps).ok()?;
    let twice = apply(alloc, &once, b, steps).ok()?;
    apply(alloc, &twice, c, steps).ok()
}

// The present document, and what comes of leaving the edit out.
fn left_of<L: Ledger>(
    alloc: Global,
    t: &Tree,
    edit: &[Mod],
    later: &[ModList],
    steps: &mut Steps<L>,
) -> Option<(Tree, Left)> {
    let [a, b] = edit else {
        return None;
    };
    let [list] = later else {
        return None;
    };
    let [c] = list.as_slice() else {
        return None;
    };
    let present = after_three(alloc, t, a, b, c, steps)?;
    let left = leave(alloc, t, edit, later, steps).ok()?;
    Some((present, left))
}

// The document after a list of modifications.
fn after<L: Ledger>(
    alloc: Global,
    t: &Tree,
    mods: &[Mod],
    steps: &mut Steps<L>,
) -> Result<Tree, ApplyFault> {
    let mut now = t.share()?;
    for m in mods {
        now = apply(alloc, &now, m, steps)?;
    }
    Ok(now)
}

impl LeftRow {
    fn edit(&self, alloc: Global) -> Option<Vec<Mod>> {
        let text = text_of(alloc, b'x', self.put as usize)?;
        let put = Mod::Insert(first_child(alloc)?, self.at, text);
        let taken = Mod::Remove(first_child(alloc)?, self.at, self.put);
        vec![in alloc; put, taken].ok()
    }

    fn later(&self, alloc: Global) -> Option<Vec<ModList>> {
        let text = text_of(alloc, b'y', self.later as usize)?;
        let mods = vec![in alloc; Mod::Insert(first_child(alloc)?, 0, text)].ok()?;
        vec![in alloc; ModList::from(mods)].ok()
    }

    // Whether the modifications put the bytes in and take them out again, after those of the later edit.
    fn are_moved(&self, mods: &[Mod]) -> bool {
        let [Mod::Insert(there, i, text), Mod::Remove(here, j, n)] = mods else {
            return false;
        };
        let at = u64::from(self.at) + u64::from(self.later);
        u64::from(*i) == at
            && *j == *i
            && *n == self.put
            && text.size() == u64::from(self.put) + 1
            && there.steps() == [0u32].as_slice()
            && here.steps() == [0u32].as_slice()
    }

    // Whether they give this tree of the present one, or are refused where a text is too long.
    fn give<L: Ledger>(
        &self,
        alloc: Global,
        present: &Tree,
        mods: &[Mod],
        alone: &Tree,
        steps: &mut Steps<L>,
    ) -> bool {
        match after(alloc, present, mods, steps) {
            Ok(tree) => self.too_long.is_none() && tree.same(alone),
            Err(ApplyFault::Refused(ModFault::TooLong(n))) => self.too_long == Some(n),
            Err(_) => false,
        }
    }

    fn is_left_out<L: Ledger>(
        &self,
        alloc: Global,
        t: &Tree,
        later: &[ModList],
        steps: &mut Steps<L>,
    ) -> Option<bool> {
        let (present, left) = left_of(alloc, t, &self.edit(alloc)?, later, steps)?;
        let [list] = later else {
            return None;
        };
        let alone = after(alloc, t, list.as_slice(), steps).ok()?;
        match &left {
            Left::Mods(mods) => Some(
                self.are_moved(mods.as_slice())
                    && self.give(alloc, &present, mods.as_slice(), &alone, steps),
            ),
            _ => Some(false),
        }
    }
}

impl Row for LeftRow {
    fn holds<L: Ledger>(&self, alloc: Global, steps: &mut Steps<L>) -> Option<bool> {
        let t = document(alloc, b'a', self.text, steps)?;
        self.is_left_out(alloc, &t, &self.later(alloc)?, steps)
    }
}

#[test]
fn an_edit_is_left_out_past_a_limit(rt: HostRuntime) {
    let wrong = first_untrue::<Brand, _>(rt.alloc(), LEFT, Blank::new(1));
    assert_eq!(rt; wrong, None);
}
