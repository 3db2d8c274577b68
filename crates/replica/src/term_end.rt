// Where a term ends in a line.

ghost use Rattle.std.specs.Prelude.{◌≡◌, ◌≤◌, ◌∷◌, ◌++◌, List, ℕ, IfSome, MatchOption, false, length, position, take, true};
ghost use Rattle.std.specs.List.{list_any};
ghost use Rattle.std.specs.Option.{option_map};
ghost use Rattle.rdf_term.specs.{declared.term.Term.Term, Fit.is_fit, Text.term_text};
ghost use Rattle.replica.specs.{declared.term_end.TermState.TheVariants.Outside, TermEnd.is_edge, TermEnd.next_state, TermEnd.term_state_after, TermEnd.split_term};

// Where a byte of a line stands.
#[derive(Clone, Copy, Drop)]
enum TermState {
    // Not between quotes.
    Outside,
    // Between quotes.
    Quoted,
    // Behind a backslash, between quotes.
    Escaped,
}

impl TermState {
    // The state behind a byte.
    #[tactic(auto, unfolding(crate::specs::TermEnd::term_state_after))]
    fn after(self, byte: u8) -> TermState
        ensures { result ≡ term_state_after self byte }
    {
        match (self, byte) {
            (TermState::Outside, b'"') | (TermState::Escaped, _) => TermState::Quoted,
            (TermState::Outside, _) | (TermState::Quoted, b'"') => TermState::Outside,
            (TermState::Quoted, b'\\') => TermState::Escaped,
            (TermState::Quoted, _) => TermState::Quoted,
        }
    }

    // The same, and none behind a space that ends a term.
    #[tactic(auto, unfolding(crate::specs::TermEnd::next_state))]
    fn next(self, byte: u8) -> Option<TermState>
        ensures { result ≡ next_state self byte }
    {
        match self {
            TermState::Outside if byte == b' ' => None,
            _ => Some(self.after(byte)),
        }
    }
}

/// The bytes before the first space that isn't between quotes, and the bytes after it. If the bytes begin with a fit term and a space,
/// these are the term's text and the rest.
pub fn split_term(bytes: &[u8]) -> Option<(&[u8], &[u8])>
    ensures parts { IfSome result (λ parts. bytes.now ≡ parts.0.now ++ 32 ∷ parts.1.now) }
    ensures term { (term : Term) (rest : List ℕ) → is_fit term ≡ true → bytes.now ≡ term_text term ++ 32 ∷ rest → MatchOption result ⊥ (λ parts. (parts.0.now ≡ term_text term) × (parts.1.now ≡ rest)) }
{
    split_first(bytes)
}

// The same: at once if no quote stands before the space, and else byte by byte.
fn split_first(bytes: &[u8]) -> Option<(&[u8], &[u8])>
    ensures { option_map (λ parts. (parts.0.now, parts.1.now)) result ≡ split_term Outside bytes.now }
{
    match split_unquoted(bytes) {
        Some(parts) => Some(parts),
        None => split_at_space(bytes),
    }
}

// The bytes before the first space and those after it, if no quote stands before it.
fn split_unquoted(bytes: &[u8]) -> Option<(&[u8], &[u8])>
    ensures { IfSome result (λ parts. (bytes.now ≡ parts.0.now ++ 32 ∷ parts.1.now) × (list_any is_edge parts.0.now ≡ false)) }
{
    let end = edge_at(bytes)?;
    let (front, rest) = bytes.split_at(end);
    match rest {
        [b' ', rest @ ..] => Some((front, rest)),
        _ => None,
    }
}

// The place of the first space or quote.
fn edge_at(bytes: &[u8]) -> Option<usize>
    ensures { IfSome result (λ end. (end ≤ length bytes.now) × (list_any is_edge (take end bytes.now) ≡ false)) }
{
    first_edge(bytes)
}

// The same place, by std's search.
fn first_edge(bytes: &[u8]) -> Option<usize>
    ensures { result ≡ position is_edge bytes.now }
{
    bytes.iter().position(|byte| matches!(*byte, b' ' | b'"'))
}

// The parts, byte by byte.
fn split_at_space(bytes: &[u8]) -> Option<(&[u8], &[u8])>
    ensures { option_map (λ parts. (parts.0.now, parts.1.now)) result ≡ split_term Outside bytes.now }
{
    let mut state = TermState::Outside;
    for index in 0..bytes.len() {
        match state.next(bytes[index]) {
            Some(next) => state = next,
            None => return Some((&bytes[..index], &bytes[index + 1..])),
        }
    }
    None
}
