// What holds of the definitions themselves. Each law is the contract of a function that does nothing.

ghost use Rattle.std.specs.Prelude.{◌≡◌, ℕ, List, map};
ghost use Rattle.std.specs.Str.{encode_utf8_all};
ghost use Rattle.statement_facts.specs.Node.{name_char, statement_name};

/// Each character of a statement's id becomes one character in the name of its node.
#[tactic(auto, using(crate::proofs::Names::name_chars))]
pub fn statement_names_keep_characters()
    ensures { (id : List ℕ) → statement_name (encode_utf8_all id) ≡ map name_char id }
{}
