// Which statements of a list are best.

ghost use Rattle.std.specs.Prelude.{◌≡◌, ℕ, [], ◌∷◌, ◌||◌, map, IfOk, OnOk};
ghost use Rattle.std.specs.{BTreeMap.get, List.list_any};
ghost use Rattle.entity_model.specs.{declared.id.EntityId.EntityId as Id, EntityId.entity_cmp};
ghost use Rattle.statement_facts.specs.Ranking.{has_rank_above, is_above, is_best, is_highest, is_ranked_above};

use entity_model::{EntityId, Rank, Statement};
use rdf_term::{List, OutOfMemory};
use std::alloc::Global;
use std::collections::BTreeMap;

/// Says of each statement whether it is best: it isn't deprecated, and no statement of its property is
/// ranked higher.
pub fn best(alloc: Global, statements: &List<Statement>) -> Result<List<bool>, OutOfMemory>
    ensures { IfOk result (λ answers. answers ≡ map (is_best statements.now) statements.now) }
{
    let statements = statements.as_slice();
    if let [statement] = statements {
        return judge_alone(alloc, statement);
    }
    let highest = highest_ranks(alloc, statements)?;
    judge_all(alloc, &highest, statements)
}

// Says of a statement that stands alone, as those of forms and senses mostly do, whether it is best.
#[tactic(auto, using(crate::proofs::Alone::alone))]
fn judge_alone(alloc: Global, statement: &Statement) -> Result<List<bool>, OutOfMemory>
    ensures { IfOk result (λ answers. answers ≡ is_best (statement.now ∷ []) statement.now ∷ []) }
{
    let mut answers = List::new(alloc);
    answers.push(is_highest(statement.rank, None))?;
    Ok(answers)
}

// The highest rank among the statements of each property.
fn highest_ranks(
    alloc: Global,
    statements: &[Statement],
) -> Result<BTreeMap<EntityId, Rank>, OutOfMemory>
    ensures { IfOk result (λ highest. (property : Id) (number : ℕ) →
        has_rank_above number (get entity_cmp highest property) ≡ list_any (is_ranked_above property number) statements.now) }
{
    let mut highest = BTreeMap::new(alloc);
    for statement in statements {
        raise(&mut highest, statement)?;
    }
    Ok(highest)
}

// Takes a statement into account.
fn raise(highest: &mut BTreeMap<EntityId, Rank>, statement: &Statement) -> Result<(), OutOfMemory>
    ensures { OnOk result ((property : Id) (number : ℕ) →
        has_rank_above number (get entity_cmp highest.new property)
        ≡ has_rank_above number (get entity_cmp highest.old property) || is_ranked_above property number statement.now) }
{
    let known = highest.get(&statement.property).copied();
    if is_above(statement.rank, known) {
        highest.insert(statement.property, statement.rank)?;
    }
    Ok(())
}

// Whether a rank is above the highest one that is known.
fn is_above(rank: Rank, known: Option<Rank>) -> bool
    ensures { result ≡ is_above rank known }
{
    match known {
        Some(known) => known < rank,
        None => true,
    }
}

// Says of each statement whether it is best, by the highest rank of each property.
fn judge_all(
    alloc: Global,
    highest: &BTreeMap<EntityId, Rank>,
    statements: &[Statement],
) -> Result<List<bool>, OutOfMemory>
    ensures { IfOk result (λ answers. answers
        ≡ map (λ s. is_highest s.rank (get entity_cmp highest.now s.property)) statements.now) }
{
    let mut answers = List::new(alloc);
    for statement in statements {
        let highest = highest.get(&statement.property).copied();
        answers.push(is_highest(statement.rank, highest))?;
    }
    Ok(answers)
}

// Whether a statement of this rank is best where this is the highest rank of its property.
fn is_highest(rank: Rank, highest: Option<Rank>) -> bool
    ensures { result ≡ is_highest rank highest }
{
    match highest {
        Some(highest) => rank > Rank::Deprecated && highest <= rank,
        None => rank > Rank::Deprecated,
    }
}
