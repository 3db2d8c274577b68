// What a page says.

use crate::entity::Entity;
use crate::id::EntityId;
use crate::lexeme::Lexeme;

/// The document of an entity's page. Its texts are parts of the page where they can be.
#[derive(Drop)]
pub enum Document<'a> {
    /// The item or property, with all that its page says of it.
    Entity(Entity<'a>),
    /// The entity was merged into another, which is named.
    Redirect(EntityId),
    /// The lexeme, with all that its page says of it, its forms and its senses.
    Lexeme(Lexeme<'a>),
}
