// The data values of statements.

use base::CowText;

/// A data value, after Wikibase's JSON format. Numbers are as they are spelled there.
#[derive(Drop)]
pub enum Value<'a> {
    /// An entity, by its id.
    Entity(CowText<'a>),
    /// A text.
    Str(CowText<'a>),
    /// A point in time.
    Time(TimeParts<'a>),
    /// A number with a unit.
    Quantity(QuantityParts<'a>),
    /// A point on a globe.
    Globe(GlobeParts<'a>),
    /// A text in a language.
    Mono(Tagged<'a>),
    /// A value of another type, which has no RDF.
    Other,
}

/// A text and its language.
#[derive(Drop)]
pub struct Tagged<'a> {
    /// The text.
    pub text: CowText<'a>,
    /// The language's code.
    pub language: CowText<'a>,
}

/// The parts of a time.
#[derive(Drop)]
pub struct TimeParts<'a> {
    /// The time, as `+2001-12-31T00:00:00Z`.
    pub time: CowText<'a>,
    /// How much of the time is known: 9 is a year, 10 a month, 11 a day.
    pub precision: u8,
    /// The precision as it is spelled.
    pub precision_text: CowText<'a>,
    /// The offset from UTC in minutes, as it is spelled.
    pub timezone: CowText<'a>,
    /// The calendar model, by the IRI of its entity.
    pub calendar: CowText<'a>,
}

/// The parts of a quantity.
#[derive(Drop)]
pub struct QuantityParts<'a> {
    /// The number.
    pub amount: CowText<'a>,
    /// The unit, by the IRI of its entity, or `1` for none.
    pub unit: CowText<'a>,
    /// The number's upper bound.
    pub upper: Option<CowText<'a>>,
    /// The number's lower bound.
    pub lower: Option<CowText<'a>>,
}

/// The parts of a coordinate.
#[derive(Drop)]
pub struct GlobeParts<'a> {
    /// The latitude in degrees, as it is spelled.
    pub latitude: CowText<'a>,
    /// The longitude in degrees, as it is spelled.
    pub longitude: CowText<'a>,
    /// The precision in degrees, as it is spelled.
    pub precision: Option<CowText<'a>>,
    /// The globe, by the IRI of its entity.
    pub globe: CowText<'a>,
}
