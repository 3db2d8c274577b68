// The ids of entities: their text and their order.

ghost use Rattle.std.specs.Prelude.{◌≡◌, ◌≢◌, ℕ, ◌<◌, ◌^◌, List, ◌∷◌, IfSome, IfNone, Some, IfOk};
ghost use Rattle.std.specs.{Fmt.decimal, Ordering.nat_cmp, Ordering.on};
ghost use Rattle.entity_model.specs.IdKind.{id_kind_place, letter_of};

use base::{OutOfMemory, Text};
use digits::starts_above_zero;
use std::alloc::Global;
use std::cmp::Ordering;

/// The kind of an entity, by the letter of its id.
#[derive(Clone, Copy, PartialEq, Eq, PartialOrd, Ord, Hash, Debug)]
pub enum IdKind {
    /// A property, as P31.
    P,
    /// An item, as Q42.
    Q,
    /// A lexeme, as L99.
    L,
}

impl IdKind {
    /// Compares by the order in which the kinds are declared.
    fn compare(self, other: IdKind) -> Ordering
        ensures { result ≡ on id_kind_place nat_cmp self other }
    {
        self.cmp(&other)
    }
}

/// The id of an entity of Wikidata: a letter and a number from 1, as Q42.
#[derive(Clone, Copy, Hash, Debug)]
pub struct EntityId {
    /// The letter.
    pub kind: IdKind,
    /// The number.
    pub number: u32,
}

impl EntityId {
    ghost use Rattle.entity_model.specs.{EntityId.id_text, EntityId.IsId, IdOf.id_of};

    /// Reads an id: the letter P, Q or L, and then a number from 1 to 4,294,967,295 in decimal without
    /// a leading zero. Any other text is none.
    pub fn read(text: &str) -> Option<EntityId>
        ensures sound { IfSome result (λ id. IsId id × (id_text id ≡ text.now)) }
        ensures complete { (id : EntityId) → IsId id → id_text id ≡ text.now → result ≡ Some id }
        ensures value { result ≡ id_of text.now }
    {
        EntityId::parse(text)
    }

    // The same, by its parts.
    fn parse(text: &str) -> Option<EntityId>
        ensures sound { IfSome result (λ id. IsId id × (id_text id ≡ text.now)) }
        ensures complete { (id : EntityId) → IsId id → id_text id ≡ text.now → result ≡ Some id }
    {
        let (kind, digits) = split_letter(text)?;
        let number = read_number(digits)?;
        Some(EntityId { kind, number })
    }

    /// The text of the id: the letter and the number in decimal.
    pub fn text(&self, alloc: Global) -> Result<Text, OutOfMemory>
        ensures { IfOk result (λ text. text ≡ id_text self.now) }
    {
        let number = self.number;
        let string = match self.kind {
            IdKind::P => format!(in alloc; "P{number}")?,
            IdKind::Q => format!(in alloc; "Q{number}")?,
            IdKind::L => format!(in alloc; "L{number}")?,
        };
        Ok(Text::from_string(string))
    }
}

/// The kind that the first letter says, and the rest of the text.
fn split_letter(text: &str) -> Option<(IdKind, &str)>
    ensures none { IfNone result ((kind : IdKind) (rest : List ℕ) → text.now ≢ letter_of kind ∷ rest) }
    ensures parts { IfSome result (λ parts. text.now ≡ letter_of parts.0 ∷ parts.1.now) }
{
    if let Some(rest) = text.strip_prefix('P') {
        return Some((IdKind::P, rest));
    }
    if let Some(rest) = text.strip_prefix('Q') {
        return Some((IdKind::Q, rest));
    }
    let rest = text.strip_prefix('L')?;
    Some((IdKind::L, rest))
}

/// Reads a number from 1 to 4,294,967,295 in decimal without a leading zero.
pub(crate) fn read_number(digits: &str) -> Option<u32>
    ensures sound { IfSome result (λ n. (0 < n) × (n < 2 ^ 32) × (decimal n ≡ digits.now)) }
    ensures complete { (n : ℕ) → 0 < n → n < 2 ^ 32 → decimal n ≡ digits.now → result ≡ Some n }
{
    if starts_above_zero(digits) {
        digits.parse().ok()
    } else {
        None
    }
}

impl PartialEq for EntityId {
    ghost use Rattle.std.specs.{Ordering.eq_by_cmp, Cmp.partial_equiv_from_equiv, Cmp.eq_by_cmp_equiv};
    ghost use Rattle.entity_model.specs.EntityId.{entity_cmp, entity_cmp_total};

    ghost eq = { eq_by_cmp entity_cmp };

    ghost laws = { partial_equiv_from_equiv (eq_by_cmp_equiv entity_cmp_total) };

    fn eq(&self, other: &EntityId) -> bool {
        self.cmp(other) == Ordering::Equal
    }
}

impl Eq for EntityId {
    ghost use Rattle.std.specs.Cmp.{eq_by_cmp_equiv};
    ghost use Rattle.entity_model.specs.EntityId.{entity_cmp_total};

    ghost laws = { eq_by_cmp_equiv entity_cmp_total };
}

impl PartialOrd for EntityId {
    ghost use Rattle.std.specs.{Ordering.as_partial_cmp, Cmp.partial_order_from_total};
    ghost use Rattle.entity_model.specs.EntityId.{entity_cmp, entity_cmp_total};

    ghost partial_cmp = { as_partial_cmp entity_cmp };

    ghost laws = { partial_order_from_total entity_cmp_total };

    fn partial_cmp(&self, other: &EntityId) -> Option<Ordering> {
        Some(self.cmp(other))
    }
}

impl Ord for EntityId {
    ghost use Rattle.std.specs.Prelude.{refl};
    ghost use Rattle.entity_model.specs.EntityId.{entity_cmp, entity_cmp_total};

    ghost cmp = { entity_cmp };

    ghost total = { entity_cmp_total };

    ghost matches_partial_cmp = { λ x y. refl };

    ghost matches_eq = { λ x y. refl };

    fn cmp(&self, other: &EntityId) -> Ordering {
        self.kind
            .compare(other.kind)
            .then(self.number.cmp(&other.number))
    }
}
