// What holds of all words.
ghost use Rattle.std.specs.Prelude.{◌≡◌, [], ◌∷◌, ℕ, List, true, false, map};
ghost use Rattle.std.specs.List.{list_all};
ghost use Rattle.tx_words.specs.Words.{Ask, Generates, MayOpen, is_generator, named_file};
ghost use Rattle.tx_words.specs.Plain.{is_plain_word};
ghost use Rattle.tx_words.specs.declared.asked.Source.{Source};
ghost use Rattle.tx_words.specs.declared.asked.Source.TheVariants.{Files, Generated};

/// A law: words ask for one thing at most.
pub fn one_asking()
    ensures { (words : List (List ℕ)) (width height w h : ℕ) (source other : Source) → Ask words width height source
        → Ask words w h other → (width ≡ w) × (height ≡ h) × (source ≡ other) }
{}

/// A law: words that don't begin with a hyphen are files, after the program's name and where they may be opened, and
/// pages are 80 by 24. The first of them begins with no `gen:`. Where it does, and is the only one, it asks for the
/// document that is generated from its numbers.
pub fn plain_words()
    ensures files { (program file : List ℕ) (styles : List (List ℕ)) → list_all is_plain_word (file ∷ styles) ≡ true
        → is_generator file ≡ false → MayOpen (map named_file (file ∷ styles))
        → Ask (program ∷ file ∷ styles) 80 24 (Files (map named_file (file ∷ styles))) }
    ensures generated { (program word : List ℕ) (number count : ℕ) → Generates word number count
        → Ask (program ∷ word ∷ []) 80 24 (Generated number count) }
{}
