// What a walk over a page is told besides the page.

use entity_model::MappingVersion;
use std::alloc::Global;

/// What a walk over a page is told besides the page.
#[derive(Clone, Copy)]
pub struct Setting {
    /// Where memory is taken from.
    pub alloc: Global,
    /// The rules that the page is mapped by.
    pub version: MappingVersion,
}
