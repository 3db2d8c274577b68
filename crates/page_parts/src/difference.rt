// What two pages of an entity have of their own.

use crate::parts::PageParts;

/// What the page that an entity held has of its own, and what the one that comes has: each in two parts. What both pages have may stand in
/// both of these, and then it stands in both.
#[derive(Drop)]
pub struct PageDifference {
    pub gone: PageParts,
    pub come: PageParts,
}
