// The versions of the rules by which a page is mapped.

/// The version of the rules by which a page is mapped to triples: which text the nodes of values are named by.
#[derive(Clone, Copy, PartialEq, Eq)]
pub enum MappingVersion {
    /// The parts of a value as the page spells them.
    One,
    /// The same behind a `2`, with the number one's IRI in place of the unit `1`.
    Two,
}
