// What each page says of the dataset that it is.

ghost use Rattle.std.specs.Prelude.{◌≡◌, [], ◌∷◌, OnOk};
ghost use Rattle.std.specs.Option.{option_copied};
ghost use Rattle.rdf_vocabulary.specs.Predicate.{about};
ghost use Rattle.triple_sink.specs.{Gains.Gains, Gains.KeepsFront, TermRef.meant};
ghost use Rattle.rdf_term.specs.declared.term.Term.TheVariants.{Plain};
ghost use Rattle.page_rdf.specs.Dataset.{change_triples, format_version, identifiers, is_identifier, number_term, number_triples, page_triples};

use entity_model::{EntityId, Statement};
use itoa::Buffer;
use rdf_term::{CowText, OutOfMemory};
use rdf_vocabulary::{Datatype, Predicate, Prefix, Resource};
use triple_sink::{Setting, TermRef, TripleSink, emit_about, emit_class};

/// Emits what is said of each dataset, whichever revision it is of.
pub fn emit_page<S: TripleSink>(
    setting: Setting,
    id: EntityId,
    out: &mut S,
) -> Result<(), OutOfMemory>
    ensures gains { OnOk result (Gains S.items S.keeps out.old out.new (page_triples id)) }
    ensures front { KeepsFront S.items out.old out.new }
{
    let dataset = TermRef::Id(Prefix::Data, id);
    emit_class(setting.alloc, &dataset, Resource::Dataset, out)?;
    let entity = TermRef::Id(Prefix::Wd, id);
    emit_about(setting.alloc, &dataset, Predicate::About, &entity, out)?;
    let license = TermRef::Resource(Resource::PublicDomain);
    emit_about(setting.alloc, &dataset, Predicate::License, &license, out)?;
    emit_format(setting, &dataset, out)
}

// Emits the version of the dump's format.
#[tactic(auto, unfolding(crate::specs::Dataset::format_version))]
fn emit_format<S: TripleSink>(
    setting: Setting,
    dataset: &TermRef<'_>,
    out: &mut S,
) -> Result<(), OutOfMemory>
    ensures gains { OnOk result (Gains S.items S.keeps out.old out.new (about (meant dataset.now) Predicate.SoftwareVersion (Plain format_version) ∷ [])) }
    ensures front { KeepsFront S.items out.old out.new }
{
    let version = TermRef::Plain("1.0.0");
    emit_about(
        setting.alloc,
        dataset,
        Predicate::SoftwareVersion,
        &version,
        out,
    )
}

/// Emits a whole number.
pub fn emit_number<S: TripleSink>(
    setting: Setting,
    dataset: &TermRef<'_>,
    predicate: Predicate,
    number: u64,
    out: &mut S,
) -> Result<(), OutOfMemory>
    ensures gains { OnOk result (Gains S.items S.keeps out.old out.new (about (meant dataset.now) predicate (number_term number) ∷ [])) }
    ensures front { KeepsFront S.items out.old out.new }
{
    let mut buffer = Buffer::new();
    let number = TermRef::Typed(buffer.format(number), Datatype::Integer.text());
    emit_about(setting.alloc, dataset, predicate, &number, out)
}

/// How many statements are identifiers in other databases.
pub fn identifiers(statements: &[Statement]) -> usize
    ensures { result ≡ identifiers statements.now }
{
    statements
        .iter()
        .filter(|statement| is_identifier(statement))
        .count()
}

// Whether the statement is an identifier in another database.
#[tactic(auto, unfolding(crate::specs::Dataset::external_id))]
fn is_identifier(statement: &Statement) -> bool
    ensures { result ≡ is_identifier statement.now }
{
    statement.main.datatype.as_str() == "external-id"
}

/// Emits the revision, and how many statements and identifiers there are.
pub fn emit_numbers<S: TripleSink>(
    setting: Setting,
    rev: u64,
    dataset: &TermRef<'_>,
    statements: &[Statement],
    out: &mut S,
) -> Result<(), OutOfMemory>
    ensures gains { OnOk result (Gains S.items S.keeps out.old out.new (number_triples (meant dataset.now) rev statements.now)) }
    ensures front { KeepsFront S.items out.old out.new }
{
    emit_number(setting, dataset, Predicate::Version, rev, out)?;
    let count = statements.len() as u64;
    emit_number(setting, dataset, Predicate::Statements, count, out)?;
    let count = identifiers(statements) as u64;
    emit_number(setting, dataset, Predicate::Identifiers, count, out)
}

/// Emits when the page was changed last.
pub fn emit_change<S: TripleSink>(
    setting: Setting,
    dataset: &TermRef<'_>,
    time: Option<&CowText<'_>>,
    out: &mut S,
) -> Result<(), OutOfMemory>
    ensures gains { OnOk result (Gains S.items S.keeps out.old out.new (change_triples (meant dataset.now) (option_copied time.entry))) }
    ensures front { KeepsFront S.items out.old out.new }
{
    match time {
        Some(time) => {
            let time = TermRef::Typed(time.as_str(), Datatype::DateTime.text());
            emit_about(setting.alloc, dataset, Predicate::DateModified, &time, out)
        }
        None => Ok(()),
    }
}
