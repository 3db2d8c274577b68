// The statements of entities.

use crate::id::EntityId;
use crate::snak::Snak;
use base::{CowText, List};

/// How much a statement counts among those of its property.
#[derive(Clone, Copy, PartialEq, Eq, PartialOrd, Ord)]
pub enum Rank {
    /// It is known to be wrong or outdated.
    Deprecated,
    /// It counts where no other is preferred.
    Normal,
    /// It is preferred to the others.
    Preferred,
}

/// A statement: a snak, what qualifies it, and where it is from.
#[derive(Drop)]
pub struct Statement<'a> {
    /// The statement's id, as `Q42$f078e5b3-f9a8-480e-b7ac-d97778cbbef9`.
    pub id: CowText<'a>,
    /// The property.
    pub property: EntityId,
    /// The rank.
    pub rank: Rank,
    /// What is stated.
    pub main: Snak<'a>,
    /// What qualifies it.
    pub qualifiers: List<Snak<'a>>,
    /// Where it is from.
    pub references: List<Reference<'a>>,
}

/// Where a statement is from.
#[derive(Drop)]
pub struct Reference<'a> {
    /// The hash of its snaks, 1 to 64 ASCII letters and digits.
    pub hash: CowText<'a>,
    /// What it says of the source.
    pub snaks: List<Snak<'a>>,
}
