// What holds of the reading itself. Each law is the contract of a function that does nothing.

ghost use Rattle.std.specs.Prelude.{◌≡◌, ◌↔◌, ℕ, List, Some, true};
ghost use Rattle.rdf_term.specs.{declared.term.Term.Term, Fit.is_fit, Text.term_text};
ghost use Rattle.term_reading.specs.{Reader.read, Written.IsWritten};

/// Reading gives exactly the terms that a text writes by the grammar of N-Triples.
#[tactic(auto, using(crate::proofs::Reading::reads))]
pub fn reading_is_by_the_grammar()
    ensures { (text : List ℕ) (term : Term) → (read text ≡ Some term) ↔ IsWritten text term }
{}

/// Reading the canonical text of a fit term gives the term.
#[tactic(auto, using(crate::proofs::ReadBack::reads_back))]
pub fn canonical_text_reads_back()
    ensures { (term : Term) → is_fit term ≡ true → read (term_text term) ≡ Some term }
{}
