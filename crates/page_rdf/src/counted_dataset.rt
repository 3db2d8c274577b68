// What the page of an item or a property says of the dataset that it is.

ghost use Rattle.std.specs.Prelude.{OnOk};
ghost use Rattle.triple_sink.specs.{Gains.Gains, Gains.KeepsFront, TermRef.meant};
ghost use Rattle.page_rdf.specs.{About.link_count, Counted.counted_dataset, Counted.counted_numbers};

use crate::counts::{Counted, Counts};
use crate::dataset::{emit_change, emit_number, emit_page};
use entity_model::{EntityId, IdKind};
use rdf_term::OutOfMemory;
use rdf_vocabulary::{Predicate, Prefix};
use triple_sink::{Setting, TermRef, TripleSink};

/// Emits what is said of the dataset of the revision's page.
pub(crate) fn emit_dataset<S: TripleSink>(
    setting: Setting,
    id: EntityId,
    counted: Counted<'_, '_>,
    out: &mut S,
) -> Result<(), OutOfMemory>
    ensures gains { OnOk result (Gains S.items S.keeps out.old out.new (counted_dataset id counted.entry.rev counted.entry.counts counted.entry.entity.now)) }
    ensures front { KeepsFront S.items out.old out.new }
{
    let dataset = TermRef::Id(Prefix::Data, id);
    let counts = counted.counts;
    emit_page(setting, id, out)?;
    emit_counts(setting, counted.rev, &dataset, counts, out)?;
    emit_link_count(setting, id.kind, &dataset, counts.links, out)?;
    emit_change(setting, &dataset, counted.entity.modified.as_ref(), out)
}

// Emits the revision and the counts of statements.
fn emit_counts<S: TripleSink>(
    setting: Setting,
    rev: u64,
    dataset: &TermRef<'_>,
    counts: Counts,
    out: &mut S,
) -> Result<(), OutOfMemory>
    ensures gains { OnOk result (Gains S.items S.keeps out.old out.new (counted_numbers (meant dataset.now) rev counts)) }
    ensures front { KeepsFront S.items out.old out.new }
{
    emit_number(setting, dataset, Predicate::Version, rev, out)?;
    let count = counts.statements as u64;
    emit_number(setting, dataset, Predicate::Statements, count, out)?;
    let count = counts.identifiers as u64;
    emit_number(setting, dataset, Predicate::Identifiers, count, out)
}

// Emits how many site links an item has.
fn emit_link_count<S: TripleSink>(
    setting: Setting,
    kind: IdKind,
    dataset: &TermRef<'_>,
    count: usize,
    out: &mut S,
) -> Result<(), OutOfMemory>
    ensures gains { OnOk result (Gains S.items S.keeps out.old out.new (link_count kind (meant dataset.now) count)) }
    ensures front { KeepsFront S.items out.old out.new }
{
    match kind {
        IdKind::P | IdKind::L => Ok(()),
        IdKind::Q => emit_number(setting, dataset, Predicate::Sitelinks, count as u64, out),
    }
}
