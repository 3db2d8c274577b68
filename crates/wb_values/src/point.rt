// The text of a point on a globe.

ghost use Rattle.std.specs.Prelude.{◌≡◌, ◌++◌, IfOk, OnOk, string_bytes};
ghost use Rattle.rdf_term.specs.Grammar.{percent_encoded};
ghost use Rattle.wb_values.specs.Point.{globe_text, point_text};

use rdf_term::{OutOfMemory, Term, Text, iri};
use std::alloc::Global;

/// The globe of a point that has no globe in its text.
const EARTH: &str = "http://www.wikidata.org/entity/Q2";

/// The text of a point in degrees, as a `geo:wktLiteral` of OGC GeoSPARQL: `Point(13.4 52.5)`, with
/// the longitude first. A point on another globe than the Earth has the globe's IRI in front, as
/// `<http://www.wikidata.org/entity/Q405> Point(1 2)`; what may not stand in an IRI is percent-encoded.
pub fn point_text(
    alloc: Global,
    latitude: &str,
    longitude: &str,
    globe: &str,
) -> Result<Text, OutOfMemory>
    ensures { IfOk result (λ text. text ≡ point_text latitude.now longitude.now globe.now) }
{
    let mut text = globe_text(alloc, globe)?;
    text.push_str("Point(")?;
    text.push_str(longitude)?;
    text.push_str(" ")?;
    text.push_str(latitude)?;
    text.push_str(")")?;
    Ok(Text::from_string(text))
}

// What stands in front of a point: nothing for one on the Earth.
#[tactic(auto, unfolding(crate::specs::Point::earth))]
fn globe_text(alloc: Global, globe: &str) -> Result<String, OutOfMemory>
    ensures { IfOk result (λ text. string_bytes text ≡ globe_text globe.now) }
{
    let mut text = String::new(alloc);
    if globe != EARTH {
        text.push_str("<")?;
        push_iri(alloc, globe, &mut text)?;
        text.push_str("> ")?;
    }
    Ok(text)
}

fn push_iri(alloc: Global, text: &str, out: &mut String) -> Result<(), OutOfMemory>
    ensures { OnOk result (string_bytes out.new ≡ string_bytes out.old ++ percent_encoded text.now) }
{
    if let Term::Iri(encoded) = iri(alloc, text)? {
        out.push_str(encoded.as_str())?;
    }
    Ok(())
}
