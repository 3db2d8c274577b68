// The triples of all statements of a subject, each judged among them.

ghost use Rattle.std.specs.Prelude.{◌≡◌, ◌<◌, length, map, slice_index, OnOk};
ghost use Rattle.std.specs.List.{flat_map};
ghost use Rattle.triple_sink.specs.{Gains.Gains, Gains.KeepsFront, TermRef.meant};
ghost use Rattle.statement_facts.specs.Ranking.{is_best};
ghost use Rattle.statement_rdf.specs.Statements.{judged_triples, statements_triples};

use crate::statement::emit_statement;
use entity_model::Statement;
use rdf_term::{List, OutOfMemory};
use statement_facts::best;
use triple_sink::{Setting, TermRef, TripleSink};

/// Emits the triples of the statements of the subject, each judged among them alone.
pub fn emit_statements<S: TripleSink>(
    setting: Setting,
    subject: &TermRef<'_>,
    statements: &List<Statement>,
    out: &mut S,
) -> Result<(), OutOfMemory>
    ensures gains { OnOk result (Gains S.items S.keeps out.old out.new (statements_triples setting.version (meant subject.now) statements.now)) }
    ensures front { KeepsFront S.items out.old out.new }
{
    let best = best(setting.alloc, statements)?;
    emit_judged(
        setting,
        subject,
        statements.as_slice(),
        best.as_slice(),
        out,
    )
}

// Emits the triples of the statements, of which these are best.
fn emit_judged<S: TripleSink>(
    setting: Setting,
    subject: &TermRef<'_>,
    statements: &[Statement],
    best: &[bool],
    out: &mut S,
) -> Result<(), OutOfMemory>
    requires { best.now ≡ map (is_best statements.now) statements.now }
    ensures gains { OnOk result (Gains S.items S.keeps out.old out.new (statements_triples setting.version (meant subject.now) statements.now)) }
    ensures front { KeepsFront S.items out.old out.new }
{
    let mut index = 0;
    for statement in statements {
        emit_statement(setting, subject, statement, best[index], out)?;
        index += 1;
    }
    Ok(())
}
