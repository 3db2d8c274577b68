// What a document says where the counts of its parts are given.

ghost use Rattle.std.specs.Prelude.{◌≡◌, ◌++◌, IfOk};
ghost use Rattle.std.specs.List.{flat_map};
ghost use Rattle.munger.specs.Munging.{munged};
ghost use Rattle.entity_rdf.specs.Counted.{counted_kept, counted_triples};

use crate::walk::emit_entity;
use entity_model::EntityId;
use munger::{Munged, Page};
use page_rdf::Counted;
use rdf_term::OutOfMemory;
use triple_sink::{Setting, TripleSink};
use triple_texts::TripleTexts;

/// The triples that munging leaves of what a part of a document says, with the counts of the whole document, by their texts. A triple
/// may stand there more than once.
pub fn counted_texts(
    setting: Setting,
    id: EntityId,
    counted: Counted<'_, '_>,
) -> Result<TripleTexts, OutOfMemory>
    ensures { IfOk result (λ texts. texts ≡ counted_kept setting.version id counted.entry.rev counted.entry.counts counted.entry.entity.now) }
{
    munge_counted_into(setting, id, counted, TripleTexts::new(setting.alloc))
}

/// The sink with what it keeps of what is left of each triple that the part says, with the counts of the whole document.
pub fn munge_counted_into<S: TripleSink + Drop>(
    setting: Setting,
    id: EntityId,
    counted: Counted<'_, '_>,
    inner: S,
) -> Result<S, OutOfMemory>
    ensures { IfOk result (λ sink. S.items sink ≡ S.items inner ++ flat_map (λ triple. flat_map (S.keeps inner) (munged id triple)) (counted_triples setting.version id counted.entry.rev counted.entry.counts counted.entry.entity.now)) }
{
    let mut out = Munged {
        page: Page::new(setting.alloc, id)?,
        inner,
    };
    emit_entity(setting, id, counted, &mut out)?;
    Ok(out.inner)
}
