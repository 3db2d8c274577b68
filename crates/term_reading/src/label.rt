// Labels of blank nodes.

ghost use Rattle.std.specs.Prelude.{◌≡◌};
ghost use Rattle.rdf_term.specs.Grammar.{is_label};

use base::are_alphanumeric;

/// Whether the bytes are a label: one or more ASCII letters and digits.
#[tactic(auto, using(rdf_term::proofs::Words::is_word_filled))]
pub fn is_label(label: &[u8]) -> bool
    ensures { result ≡ is_label label.now }
{
    !label.is_empty() && are_alphanumeric(label)
}
