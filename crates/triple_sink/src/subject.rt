// Subjects of several triples.

ghost use Rattle.std.specs.Prelude.{◌≡◌, None};

use crate::term_ref::TermRef;

/// The subject of several triples, and the index of one that has it, among those that a sink holds, where one is known. So a sink that
/// writes texts needn't look at the text of such a subject.
#[derive(Clone, Copy)]
pub struct Subject<'a> {
    /// The subject.
    pub term: TermRef<'a>,
    /// The index of a triple that has it, from 0.
    pub index: Option<usize>,
}

impl<'a> Subject<'a> {
    /// The subject, of which no triple is known.
    pub fn new(term: TermRef<'a>) -> Subject<'a>
        ensures { result ≡ record { term = term.entry; index = None } }
    {
        Subject { term, index: None }
    }
}
