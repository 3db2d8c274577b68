// What the store keeps of the dump of a lexeme, as a set.

ghost use Rattle.std.specs.Prelude.{◌≡◌, IfOk};
ghost use Rattle.std.specs.List.{AllByRecursion, flat_map};
ghost use Rattle.rdf_term.specs.{Fit.HasFitAndShortTerms, Order.triple_cmp};
ghost use Rattle.sorted_sets.specs.Rising.{sorted};
ghost use Rattle.munger.specs.Munging.{munge, munged};
ghost use Rattle.entity_model.specs.Lexeme.{IsSmallLexeme};
ghost use Rattle.entity_rdf.specs.LexemeDump.{lexdump};

use crate::lexeme_walk::emit_lexeme;
use entity_model::{EntityId, Lexeme};
use munger::{Munged, Page};
use rdf_term::{List, OutOfMemory, Triple, TripleSet};
use triple_sink::Setting;

/// The set that munging leaves of the dump of the lexeme of a revision of `id`, made by one walk and without the dump.
#[tactic(auto, using(crate::proofs::LexemeKept::kept_set_fit, munger::proofs::MungedList::munge_of_list))]
pub fn lexeme_triples(
    setting: Setting,
    id: EntityId,
    rev: u64,
    lexeme: &Lexeme,
) -> Result<TripleSet, OutOfMemory>
    ensures value { IfOk result (λ set. set ≡ munge id (sorted triple_cmp (lexdump setting.version id rev lexeme.now))) }

    // The terms are fit and short where the lexeme is small.
    ensures fit { IsSmallLexeme lexeme.now → IfOk result (AllByRecursion HasFitAndShortTerms) }
{
    let triples = munged_list(setting, id, rev, lexeme)?;
    TripleSet::from_list(triples)
}

// What is left of the triples of the dump, in their order.
#[tactic(auto, using(munger::proofs::Kept::kept_is))]
fn munged_list(
    setting: Setting,
    id: EntityId,
    rev: u64,
    lexeme: &Lexeme,
) -> Result<List<Triple>, OutOfMemory>
    ensures { IfOk result (λ triples. triples ≡ flat_map (munged id) (lexdump setting.version id rev lexeme.now)) }
{
    let mut out = Munged {
        page: Page::new(setting.alloc, id)?,
        inner: List::new(setting.alloc),
    };
    emit_lexeme(setting, id, rev, lexeme, &mut out)?;
    Ok(out.inner)
}
