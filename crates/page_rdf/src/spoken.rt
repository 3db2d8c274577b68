// What the page of an item or a property says but for its site links and statements.

ghost use Rattle.std.specs.Prelude.{OnOk};
ghost use Rattle.triple_sink.specs.Gains.{Gains, KeepsFront};
ghost use Rattle.page_rdf.specs.Spoken.{counted_spoken};

use crate::about::emit_texts;
use crate::counted_dataset::emit_dataset;
use crate::counts::Counted;
use crate::property::emit_property;
use entity_model::EntityId;
use rdf_term::OutOfMemory;
use triple_sink::{Setting, TripleSink};

/// Emits what a part of the document of an item or a property says but for its site links and statements, or what the whole says: the class
/// and the texts, the dataset with the counts of the whole, and the predicates of a property. After `OutOfMemory` the sink holds what it held,
/// and perhaps more behind that.
pub fn emit_spoken<S: TripleSink>(
    setting: Setting,
    id: EntityId,
    counted: Counted<'_, '_>,
    out: &mut S,
) -> Result<(), OutOfMemory>
    ensures gains { OnOk result (Gains S.items S.keeps out.old out.new (counted_spoken id counted.entry.rev counted.entry.counts counted.entry.entity.now)) }
    ensures front { KeepsFront S.items out.old out.new }
{
    emit_texts(setting, id, counted.entity, out)?;
    emit_dataset(setting, id, counted, out)?;
    emit_property(setting, id, counted.entity.datatype.as_ref(), out)
}
