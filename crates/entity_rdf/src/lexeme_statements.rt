// The triples of the statements of a lexeme and of its forms and senses.

ghost use Rattle.std.specs.Prelude.{OnOk};
ghost use Rattle.std.specs.List.{flat_map};
ghost use Rattle.triple_sink.specs.Gains.{Gains, KeepsFront};
ghost use Rattle.entity_rdf.specs.LexemeStatements.{all_statements, part_statements};

use entity_model::{EntityId, Lexeme, Part};
use rdf_term::OutOfMemory;
use rdf_vocabulary::Prefix;
use statement_rdf::emit_statements;
use triple_sink::{Setting, TermRef, TripleSink};

/// Emits the statements of the lexeme, then those of its forms, and then those of its senses.
pub(crate) fn emit_all_statements<S: TripleSink>(
    setting: Setting,
    id: EntityId,
    lexeme: &Lexeme,
    out: &mut S,
) -> Result<(), OutOfMemory>
    ensures gains { OnOk result (Gains S.items S.keeps out.old out.new (all_statements setting.version id lexeme.now)) }
    ensures front { KeepsFront S.items out.old out.new }
{
    let entity = TermRef::Id(Prefix::Wd, id);
    emit_statements(setting, &entity, &lexeme.statements, out)?;
    emit_of_parts(setting, lexeme.forms.as_slice(), out)?;
    emit_of_parts(setting, lexeme.senses.as_slice(), out)
}

// Emits the statements of each part.
fn emit_of_parts<S: TripleSink>(
    setting: Setting,
    parts: &[Part],
    out: &mut S,
) -> Result<(), OutOfMemory>
    ensures gains { OnOk result (Gains S.items S.keeps out.old out.new (flat_map (part_statements setting.version) parts.now)) }
    ensures front { KeepsFront S.items out.old out.new }
{
    for part in parts {
        let node = TermRef::Named(Prefix::Wd, part.id.as_str());
        emit_statements(setting, &node, &part.statements, out)?;
    }
    Ok(())
}
