// What the page of a lexeme says.

ghost use Rattle.std.specs.Prelude.{◌≡◌};
ghost use Rattle.entity_model.specs.Lexeme.{is_id_number, is_part_id};

use crate::id::{EntityId, read_number};
use crate::statement::Statement;
use crate::value::Tagged;
use base::{CowText, List};

/// A lexeme, after Wikibase's JSON format for lexemes. Lists are in the order of the page.
#[derive(Drop)]
pub struct Lexeme<'a> {
    /// The id.
    pub id: EntityId,
    /// When the page was changed last, as `2024-05-01T10:00:00Z`.
    pub modified: Option<CowText<'a>>,
    /// The lemmas, one for a language code.
    pub lemmas: List<Tagged<'a>>,
    /// The item of the lexical category, as that of verbs.
    pub category: EntityId,
    /// The item of the language, as that of English.
    pub language: EntityId,
    /// The statements of the lexeme itself.
    pub statements: List<Statement<'a>>,
    /// The forms.
    pub forms: List<Part<'a>>,
    /// The senses, which have no features.
    pub senses: List<Part<'a>>,
}

/// A form or a sense of a lexeme.
#[derive(Drop)]
pub struct Part<'a> {
    /// The id, as `L1-F1` for a form and `L1-S1` for a sense.
    pub id: CowText<'a>,
    /// The representations of a form and the glosses of a sense, one for a language code.
    pub texts: List<Tagged<'a>>,
    /// The items of the grammatical features of a form.
    pub features: List<EntityId>,
    /// The statements of the part itself.
    pub statements: List<Statement<'a>>,
}

/// Whether the text begins so, and a number from 1 to 4,294,967,295 follows in decimal without a leading zero. The
/// id of a form of the lexeme L1 is such a text that begins with `L1-F`, and that of a sense one that begins with `L1-S`.
#[tactic(auto, using(crate::proofs::PartIds::behind, crate::proofs::PartIds::not_behind))]
pub fn is_part_id(front: &str, text: &str) -> bool
    ensures { result ≡ is_part_id front.now text.now }
{
    match text.strip_prefix(front) {
        Some(digits) => is_id_number(digits),
        None => false,
    }
}

// Whether the digits are a number from 1 to 4,294,967,295 in decimal without a leading zero.
fn is_id_number(digits: &str) -> bool
    ensures { result ≡ is_id_number digits.now }
{
    read_number(digits).is_some()
}
