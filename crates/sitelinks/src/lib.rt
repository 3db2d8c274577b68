//! The sites that the pages of Wikidata link to, and what a link to an article becomes in RDF ("Wikibase RDF
//! Dump Format", Sitelinks).
//!
//! `special` and `project` name the sites, `language` reads a site's language, `lookup` puts these together to a
//! site of `sites`; `replaced` puts one character in the place of another, borrows a text that lacks it, and splits a text there; `article` has the triples of a link.
//! `laws` has what holds of the definitions themselves.
#![tactic(auto)]

mod article;
mod language;
mod laws;
mod lookup;
mod project;
mod replaced;
mod sites;
mod special;

pub use article::emit_article;
pub use laws::ids_name_their_sites;
pub use lookup::site;
pub use sites::Site;
