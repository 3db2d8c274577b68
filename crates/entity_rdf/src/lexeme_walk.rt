// The walk over a lexeme, which emits what each rule of the dump gives.

ghost use Rattle.std.specs.Prelude.{OnOk};
ghost use Rattle.triple_sink.specs.Gains.{Gains, KeepsFront};
ghost use Rattle.entity_rdf.specs.LexemeDump.{lexdump};

use crate::lexeme_statements::emit_all_statements;
use entity_model::{EntityId, Lexeme};
use page_rdf::{PartKind, emit_entry, emit_lexeme_page, emit_parts, emit_texts};
use rdf_term::OutOfMemory;
use rdf_vocabulary::{Predicate, Prefix};
use triple_sink::{Setting, TermRef, TripleSink};

/// Emits the triples that the rules of the dump give for the lexeme of a revision of `id`, one rule after the other. A
/// triple may come more than once. After `OutOfMemory` the sink holds what it held, and perhaps more behind that.
#[tactic(auto, unfolding(crate::specs::LexemeDump::lexdump))]
pub(crate) fn emit_lexeme<S: TripleSink>(
    setting: Setting,
    id: EntityId,
    rev: u64,
    lexeme: &Lexeme,
    out: &mut S,
) -> Result<(), OutOfMemory>
    ensures gains { OnOk result (Gains S.items S.keeps out.old out.new (lexdump setting.version id rev lexeme.now)) }
    ensures front { KeepsFront S.items out.old out.new }
{
    let entity = TermRef::Id(Prefix::Wd, id);
    emit_entry(setting, id, lexeme, out)?;
    let lemmas = lexeme.lemmas.as_slice();
    emit_texts(setting, &entity, Predicate::Lemma, lemmas, out)?;
    emit_lexeme_page(setting, id, rev, lexeme, out)?;
    let (forms, senses) = (lexeme.forms.as_slice(), lexeme.senses.as_slice());
    emit_parts(setting, &entity, PartKind::Form, forms, out)?;
    emit_parts(setting, &entity, PartKind::Sense, senses, out)?;
    emit_all_statements(setting, id, lexeme, out)
}
