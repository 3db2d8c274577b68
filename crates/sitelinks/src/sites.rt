// Where articles are.

use rdf_term::CowText;

/// A site with articles. What its id spells out is borrowed from there.
#[derive(Drop)]
pub struct Site<'a> {
    /// What the IRIs of the site begin with, as `https://en.wikipedia.org/`.
    pub base: CowText<'a>,
    /// The language of the articles, as `en`.
    pub language: CowText<'a>,
    /// The group of sites that it belongs to, as `wikipedia`.
    pub group: CowText<'a>,
}
