// Words that ask for a generated document.
ghost use Rattle.std.specs.Prelude.{◌≡◌, ◌↔◌, ◌++◌, ℕ, false, codes, IfSome, MatchOption, None};
ghost use Rattle.tx_words.specs.Words.{Generates, IsNumberIn, is_generator};

use crate::sizes::number_in;

/// The rest of a word that begins with `gen:`.
pub(crate) fn behind_gen<'a>(word: &'a str) -> Option<&'a str>
    ensures { MatchOption result (is_generator word.entry.now ≡ false)
        (λ rest. word.entry.now ≡ codes "gen:" ++ rest.now) }
{
    word.strip_prefix("gen:")
}

// The parts before and after the first colon.
fn parts<'a>(rest: &'a str) -> Option<(&'a str, &'a str)>
    ensures some { IfSome result (λ both. (number count : ℕ) → (Generates (codes "gen:" ++ rest.entry.now) number count
        ↔ (IsNumberIn 0 2147483647 both.0.now number × IsNumberIn 1 60000 both.1.now count))) }
    ensures none { result ≡ None
        → (number count : ℕ) → Generates (codes "gen:" ++ rest.entry.now) number count → ⊥ }
{
    rest.split_once(':')
}

/// The number and the count of paragraphs after `gen:`.
pub(crate) fn numbers(rest: &str) -> Option<(u32, u32)>
    ensures some { IfSome result (λ both. Generates (codes "gen:" ++ rest.now) both.0 both.1) }
    ensures none { result ≡ None → (number count : ℕ) → Generates (codes "gen:" ++ rest.now) number count → ⊥ }
{
    let Some((digits, others)) = parts(rest) else {
        return None;
    };
    let Some(number) = number_in(digits, 0, 2_147_483_647) else {
        return None;
    };
    let Some(count) = number_in(others, 1, 60_000) else {
        return None;
    };
    Some((number, count))
}
