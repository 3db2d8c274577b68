//! The texts that Wikibase's data values become in RDF: the literal of a time, the test for a decimal
//! amount and the point of a coordinate. The sources are Wikibase RDF Dump Format, value representation;
//! XML Schema 1.1, part 2, for times and decimal numbers; and OGC GeoSPARQL for the texts of points.
//!
//! `written` reads the text of a time, `calendar` counts the days of the Julian and the Gregorian
//! calendar, `gregorian_day` finds the day that a written date means, and `literal` writes it;
//! `decimal` tests amounts, and `point` writes points.
#![tactic(auto)]

mod calendar;
mod decimal;
mod gregorian_day;
mod laws;
mod literal;
mod point;
mod written;

pub use decimal::is_decimal;
pub use laws::a_time_has_one_literal;
pub use literal::{TimeText, time_literal};
pub use point::point_text;
