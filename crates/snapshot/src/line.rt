// What one line of a snapshot holds.

use crate::counts::Counts;
use entity_model::{EntityId, Event, MappingVersion};
use entity_state::{Entry, Record};
use rdf_term::Text;

/// What a snapshot says before its other lines.
#[derive(Clone, Copy)]
pub struct Head {
    /// The greatest watermark so far, in microseconds since 1970-01-01T00:00:00Z.
    pub mark: Option<i64>,
    /// How many microseconds behind the mark events are forgotten, if they ever are.
    pub horizon: Option<u64>,
    /// The version of the mapping in force, by which each held page is mapped.
    pub mapping: MappingVersion,
    /// The counts that the next run goes on with.
    pub counts: Counts,
}

/// One line of a snapshot.
#[derive(Drop)]
pub enum Line {
    /// What is said once, before everything else.
    Head(Head),
    /// An event that is remembered. It waits to be applied where the mark hasn't reached its time.
    Remembered(Event),
    /// The record of an entity.
    Entity(EntityId, Record<Text>),
    /// An entry of the side output.
    Side(Entry),
    /// The number of lines before this one, which is the last.
    End(u64),
}
