// What the page of a lexeme says of the dataset that it is.

ghost use Rattle.std.specs.Prelude.{OnOk};
ghost use Rattle.triple_sink.specs.Gains.{Gains, KeepsFront};
ghost use Rattle.page_rdf.specs.LexemePage.{lexeme_page_triples};

use crate::dataset::{emit_change, emit_numbers, emit_page};
use entity_model::{EntityId, Lexeme};
use rdf_term::OutOfMemory;
use rdf_vocabulary::Prefix;
use triple_sink::{Setting, TermRef, TripleSink};

/// Emits what is said of the dataset of the revision's page. A lexeme has no site links, so no count of them. After `OutOfMemory` the sink
/// holds what it held, and perhaps more behind that.
pub fn emit_lexeme_page<S: TripleSink>(
    setting: Setting,
    id: EntityId,
    rev: u64,
    lexeme: &Lexeme,
    out: &mut S,
) -> Result<(), OutOfMemory>
    ensures gains { OnOk result (Gains S.items S.keeps out.old out.new (lexeme_page_triples id rev lexeme.now)) }
    ensures front { KeepsFront S.items out.old out.new }
{
    let dataset = TermRef::Id(Prefix::Data, id);
    emit_page(setting, id, out)?;
    emit_numbers(setting, rev, &dataset, lexeme.statements.as_slice(), out)?;
    emit_change(setting, &dataset, lexeme.modified.as_ref(), out)
}
