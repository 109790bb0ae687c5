// Sums of numbers of children and bytes.
ghost use Rattle.std.specs.Prelude.{◌≡◌, ◌≤◌, ◌+◌, IfOk, None, Some};
ghost use Rattle.tx_mod.specs.Mods.{extent};
ghost use Rattle.tx_mod.specs.Moves.{shifted};

use tx_base::Memory;
use tx_tree::Tree;

// The sum. Trees that no limit holds have as many children and bytes as memory has room for, so where the sum is no
// number of the program, there is none.
pub(crate) fn sum(a: u32, b: u32) -> Result<u32, Memory>
    ensures { IfOk result (λ c. c ≡ a + b) }
{
    match a.checked_add(b) {
        Some(c) => Ok(c),
        None => Err(Memory),
    }
}

// The number, and n more from i on.
pub(crate) fn shifted(i: u32, n: u32, k: u32) -> Result<u32, Memory>
    ensures { IfOk result (λ c. c ≡ shifted i n k) }
{
    if i <= k { sum(k, n) } else { Ok(k) }
}

#[tactic(auto, using(crate::proofs::Seen::seen, std::proofs::lemmas::Grind::common_steps))]
fn extent(t: &Tree) -> usize
    ensures { result ≡ extent t.now }
{
    match t.text() {
        Some(text) => text.bytes().len(),
        None => t.children().len(),
    }
}

// The bytes of a leaf, or the children of a node.
#[tactic(auto, using(tx_mod::proofs::Undone::extent_small, std::proofs::lemmas::Grind::common_steps))]
pub(crate) fn extent_of(t: &Tree) -> u32
    ensures { result ≡ extent t.now }
{
    let _size = t.size();
    extent(t) as u32
}
