// What a page says of the lexeme itself.

ghost use Rattle.std.specs.Prelude.{OnOk};
ghost use Rattle.triple_sink.specs.Gains.{Gains, KeepsFront};
ghost use Rattle.page_rdf.specs.Entry.{entry_triples};

use entity_model::{EntityId, Lexeme};
use rdf_term::OutOfMemory;
use rdf_vocabulary::{Predicate, Prefix, Resource};
use triple_sink::{Setting, TermRef, TripleSink, emit_about, emit_class};

/// Emits the classes of the lexeme, its language and its lexical category. After `OutOfMemory` the sink holds what it held, and perhaps
/// more behind that.
pub fn emit_entry<S: TripleSink>(
    setting: Setting,
    id: EntityId,
    lexeme: &Lexeme,
    out: &mut S,
) -> Result<(), OutOfMemory>
    ensures gains { OnOk result (Gains S.items S.keeps out.old out.new (entry_triples id lexeme.now)) }
    ensures front { KeepsFront S.items out.old out.new }
{
    let entity = TermRef::Id(Prefix::Wd, id);
    emit_class(setting.alloc, &entity, Resource::LexicalEntry, out)?;
    emit_class(setting.alloc, &entity, Resource::Lexeme, out)?;
    let language = TermRef::Id(Prefix::Wd, lexeme.language);
    emit_about(setting.alloc, &entity, Predicate::Language, &language, out)?;
    let category = TermRef::Id(Prefix::Wd, lexeme.category);
    emit_about(
        setting.alloc,
        &entity,
        Predicate::LexicalCategory,
        &category,
        out,
    )
}
