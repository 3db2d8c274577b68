// The texts of a triple.

/// The canonical texts of a triple's terms, as N-Triples writes them.
#[derive(Clone, Copy)]
pub struct TripleText<'a> {
    /// That of what the triple speaks of.
    pub subject: &'a [u8],
    /// That of the property.
    pub predicate: &'a [u8],
    /// That of the property's value.
    pub object: &'a [u8],
}
