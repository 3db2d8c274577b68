// The snaks that statements are made of.

use crate::id::EntityId;
use crate::value::Value;
use base::CowText;

/// A property and what is said of its value.
#[derive(Drop)]
pub struct Snak<'a> {
    /// The property.
    pub property: EntityId,
    /// The place from 0 in the list of snaks under its property; 0 for the main snak of a statement.
    pub place: u32,
    /// The datatype of the property's values, as `wikibase-item`; empty where the page doesn't say it.
    pub datatype: CowText<'a>,
    /// What is said of the value.
    pub content: Content<'a>,
}

/// What is said of a property's value.
#[derive(Drop)]
pub enum Content<'a> {
    /// It is this.
    Value(Value<'a>),
    /// There is none.
    NoValue,
    /// There is one that isn't known.
    SomeValue,
}
