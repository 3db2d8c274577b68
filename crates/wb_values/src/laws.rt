// What holds of the definitions themselves. Each law is the contract of a function that does nothing.

ghost use Rattle.std.specs.Prelude.{ℕ, Bool, List};
ghost use Rattle.wb_values.specs.Literal.{IsOnlyLiteral, time_literal};

/// The literal of a time is the one that the rules allow, and they allow no other.
#[tactic(auto, using(crate::proofs::LiteralLemmas::the_literal))]
pub fn a_time_has_one_literal()
    ensures { (text : List ℕ) (precision : ℕ) (julian : Bool) → IsOnlyLiteral text precision julian (time_literal text precision julian) }
{}
