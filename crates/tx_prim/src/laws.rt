// Laws of the definitions that the table uses.
ghost use Rattle.std.specs.Prelude.{◌≡◌, ◌<◌, ◌≤◌, ◌^◌, ◌↔◌, ℤ, true, Some, None, unsigned_abs};
ghost use Rattle.std.specs.Fmt.{signed_decimal};
ghost use Rattle.tx_tree.specs.WideTree.{WideTree};
ghost use Rattle.tx_prim.specs.Numbers.{fits_word, integer_of};
ghost use Rattle.tx_prim.specs.Lengths.{length_of, length_text};
ghost use Rattle.tx_prim.specs.Same.{is_same};
ghost use Rattle.tx_prim.specs.declared.names.Prim.{Prim};
ghost use Rattle.tx_prim.specs.Names.{name_of, named};

/// Each number of 64 bits, as it is printed, is read as that number.
pub fn number_law()
    ensures { (z : ℤ) → fits_word z ≡ true → integer_of (signed_decimal z) ≡ Some z }
{}

/// A length of at most 18 digits, as it is printed, is read as that length, and a longer one is no length.
pub fn length_laws()
    ensures read { (z : ℤ) → unsigned_abs z < 10 ^ 18 → length_of (length_text z) ≡ Some z }
    ensures unread { (z : ℤ) → fits_word z ≡ true → 10 ^ 18 ≤ unsigned_abs z → length_of (length_text z) ≡ None }
{}

/// The test by which the table compares trees says whether they are equal.
pub fn sameness_law()
    ensures { (s t : WideTree) → (is_same s t ≡ true) ↔ (s ≡ t) }
{}

/// Each primitive is found by its name.
pub fn name_law()
    ensures { (p : Prim) → named (name_of p) ≡ Some p }
{}
