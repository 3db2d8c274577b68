// The triples of statements.

ghost use Rattle.std.specs.Prelude.{◌≡◌, ◌++◌, length, take, OnOk};
ghost use Rattle.std.specs.List.{AllByRecursion};
ghost use Rattle.entity_model.specs.Statement.{IsSmallStatement};
ghost use Rattle.rdf_term.specs.Fit.{HasFitAndShortTerms, IsFitAndShort};
ghost use Rattle.rdf_vocabulary.specs.Prefix.{entity_term};
ghost use Rattle.statement_rdf.specs.Statement.{statement_triples};

use entity_model::{EntityId, Statement};
use rdf_term::{List, OutOfMemory, Term, Triple};
use rdf_vocabulary::Prefix;
use statement_rdf::emit_statement;
use triple_sink::{Setting, TermRef};

/// Appends the triples of a statement of the entity, which may be best among its statements: exactly those that a rule of the dump format
/// gives. Those of a small statement have fit and short terms.
#[tactic(auto, using(triple_sink::proofs::Gained::all_of, crate::proofs::Fronts::front_of))]
pub fn statement_triples(
    setting: Setting,
    entity: EntityId,
    statement: &Statement,
    best: bool,
    out: &mut List<Triple>,
) -> Result<(), OutOfMemory>
    ensures appends { OnOk result (out.new ≡ out.old ++ statement_triples setting.version (entity_term entity) statement.now best) }
    ensures front { take (length out.old) out.new ≡ out.old }
    ensures fit { IsSmallStatement statement.now → AllByRecursion HasFitAndShortTerms (statement_triples setting.version (entity_term entity) statement.now best) }
{
    emit_statement(
        setting,
        &TermRef::Id(Prefix::Wd, entity),
        statement,
        best,
        out,
    )
}

/// The same for a statement of any subject, as of a form or a sense.
#[tactic(auto, using(triple_sink::proofs::Gained::all_of, crate::proofs::Fronts::front_of))]
pub fn statement_triples_at(
    setting: Setting,
    subject: &Term,
    statement: &Statement,
    best: bool,
    out: &mut List<Triple>,
) -> Result<(), OutOfMemory>
    ensures appends { OnOk result (out.new ≡ out.old ++ statement_triples setting.version subject.now statement.now best) }
    ensures front { take (length out.old) out.new ≡ out.old }
    ensures fit { IsFitAndShort subject.now → IsSmallStatement statement.now → AllByRecursion HasFitAndShortTerms (statement_triples setting.version subject.now statement.now best) }
{
    emit_statement(setting, &TermRef::of(subject), statement, best, out)
}
