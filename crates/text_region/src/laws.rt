// How many blocks a region makes.

ghost use Rattle.std.specs.Prelude.{◌≡◌, ℕ, List, ◌∷◌};
ghost use Rattle.text_region.specs.{Region.Texts, Region.made, Peak.IsHistory, Peak.peak};

/// After any calls on a new region, as many blocks of a class were made as were ever in use at once.
pub fn made_is_the_peak()
    ensures { (texts : Texts) (before : List Texts) → IsHistory (texts ∷ before) → (class : ℕ) → made texts class ≡ peak (texts ∷ before) class }
{}
