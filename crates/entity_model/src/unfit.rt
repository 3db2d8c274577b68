// Why bytes are no document.

/// Why the bytes of a page are no document of the entity that they were fetched for.
#[derive(Clone, Copy, PartialEq, Eq, Debug)]
pub enum Unfit {
    /// There are more than 8,388,608 bytes.
    Large,
    /// Arrays and objects are nested more than 64 deep.
    Deep,
    /// The bytes are not one JSON text (RFC 8259).
    NotJson,
    /// The JSON is no entity page.
    Shape,
    /// The page is that of another entity.
    Foreign,
}
