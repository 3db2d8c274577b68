// What the page of an item or a property says.

use crate::id::EntityId;
use crate::statement::Statement;
use crate::value::Tagged;
use base::{CowText, List};

/// An item or a property, after Wikibase's JSON format. Lists are in the order of the page.
#[derive(Drop)]
pub struct Entity<'a> {
    /// The id: its letter says which of the two it is.
    pub id: EntityId,
    /// The datatype of a property's values, as `wikibase-item`. An item has none.
    pub datatype: Option<CowText<'a>>,
    /// When the page was changed last, as `2024-05-01T10:00:00Z`.
    pub modified: Option<CowText<'a>>,
    /// The labels, one for a language.
    pub labels: List<Tagged<'a>>,
    /// The descriptions, one for a language.
    pub descriptions: List<Tagged<'a>>,
    /// The aliases, any number for a language.
    pub aliases: List<Tagged<'a>>,
    /// The statements.
    pub statements: List<Statement<'a>>,
    /// The links to articles, one for a site. A property has none.
    pub links: List<Link<'a>>,
}

/// A link to an article of a site.
#[derive(Drop)]
pub struct Link<'a> {
    /// The site's id, as `enwiki`.
    pub site: CowText<'a>,
    /// The article's title.
    pub title: CowText<'a>,
    /// The items of the badges that the article has.
    pub badges: List<EntityId>,
}
