// What holds of the grammar itself. Each law is the contract of a function that does nothing.

ghost use Rattle.std.specs.Prelude.{◌≡◌, ℕ, ◌≤◌, List, length, true};
ghost use Rattle.std.specs.Str.{IsUtf8};
ghost use Rattle.json_spell.specs.{Tree.Tree, Grammar.Reads, Nesting.Nests, Deep.IsDeep};
ghost use Rattle.json_spell.specs.Weight.{weight, weights_at, are_distinct};

/// A text has at most one value.
#[tactic(auto, using(crate::proofs::Complete::one_tree))]
pub fn has_one_tree()
    ensures { (bytes : List ℕ) (t u : Tree) → Reads bytes t → Reads bytes u → t ≡ u }
{}

/// The strings, numbers and names of a value have together no more bytes than the text that it is read from.
#[tactic(auto, using(crate::proofs::Weights::reads_weight))]
pub fn weighs_no_more_than_text()
    ensures { (bytes : List ℕ) (t : Tree) → Reads bytes t → weight t ≤ length bytes }
{}

/// Members of a value with different names have together no more bytes than the value.
#[tactic(auto, using(crate::proofs::Names::names_weight))]
pub fn members_weigh_no_more_than_value()
    ensures { (names : List (List ℕ)) (t : Tree) → are_distinct names ≡ true → weights_at names t ≤ weight t }
{}

/// A text that has a value is UTF-8.
#[tactic(auto, using(crate::proofs::Utf8Texts::reads_utf8))]
pub fn text_is_utf8()
    ensures { (bytes : List ℕ) (t : Tree) → Reads bytes t → IsUtf8 bytes }
{}

/// A text whose value nests at most 64 arrays and objects isn't deep.
pub fn nesting_to_64_is_not_deep()
    ensures { (bytes : List ℕ) (t : Tree) → Reads bytes t → Nests 64 t → ¬ (IsDeep bytes) }
{}
