// Sizes as options give them.
ghost use Rattle.std.specs.Prelude.{◌≡◌, ℕ, None, IfSome, option_map};
ghost use Rattle.tx_tree.specs.PathSpelling.{IsNumber};
ghost use Rattle.tx_words.specs.Words.{IsNumberIn, IsSize};

use tx_tree::MOST_DIGITS;

// The number that the digits write.
fn number(digits: &str) -> Option<u32>
    ensures some { IfSome result (λ n. IsNumber digits.now n) }
    ensures none { result ≡ None → (n : ℕ) → IsNumber digits.now n → ⊥ }
{
    if digits.len() > MOST_DIGITS || digits.starts_with('+') {
        return None;
    }
    digits.parse().ok()
}

/// The number that the digits write, where it is between these.
pub(crate) fn number_in(digits: &str, least: u32, most: u32) -> Option<u32>
    ensures some { IfSome result (λ n. IsNumberIn least most digits.now n) }
    ensures none { result ≡ None → (n : ℕ) → IsNumberIn least most digits.now n → ⊥ }
{
    match number(digits) {
        Some(n) if least <= n && n <= most => Some(n),
        _ => None,
    }
}

/// The size that an option with this value asks for.
pub(crate) fn size(value: Option<&str>, usual: u32, least: u32, most: u32) -> Option<u32>
    ensures some { IfSome result (λ n. IsSize usual least most (option_map (λ s. s.now) value.entry) n) }
    ensures none { result ≡ None → (n : ℕ) → IsSize usual least most (option_map (λ s. s.now) value.entry) n → ⊥ }
{
    let Some(digits) = value else {
        return Some(usual);
    };
    number_in(digits, least, most)
}
