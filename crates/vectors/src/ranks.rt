// What no page shows: statements of an item's id, and more statements than a page can have. The crate `cases` tries the rest.

use crate::tester::{Subject, Tester, write_number};
use entity_model::{Content, EntityId, Rank, Snak, Statement};
use rdf_term::{CowText, List};
use statement_facts::best;
use std::alloc::Global;

// How many statements of each property with a rank there are, and how many of all are best.
const TWO: &str = "1 preferred Q1 + 1 normal P1 => 2 of 2";

// To compare each statement with all others would take 90 billion steps.
const MANY: &str = "300000 normal P1 => 300000 of 300000";

#[derive(Drop)]
struct Ranks;

impl Subject for Ranks {
    fn answer(&mut self, alloc: Global, given: &str, found: &mut Vec<u8>) -> Option<()> {
        let mut statements = List::new(alloc);
        let pushed = push_all(alloc, given, &mut statements);
        let answers = best(alloc, &statements);
        drop(statements);
        pushed?;
        let answers = answers.ok()?;
        let length = answers.len();
        let count = answers.as_slice().iter().filter(|answer| **answer).count();
        drop(answers);
        write_number(alloc, "", count as u64, found)?;
        write_number(alloc, " of ", length as u64, found)
    }
}

// Puts all statements into the list; None where the words aren't right, or memory is refused.
fn push_all(alloc: Global, given: &str, statements: &mut List<Statement<'static>>) -> Option<()> {
    for words in given.split(" + ") {
        let (count, words) = words.split_once(' ')?;
        push_ranked(alloc, count.parse().ok()?, words, statements)?;
    }
    Some(())
}

// Puts so many statements of a property with a rank into the list.
fn push_ranked(
    alloc: Global,
    count: u32,
    words: &str,
    statements: &mut List<Statement<'static>>,
) -> Option<()> {
    let (rank, property) = words.split_once(' ')?;
    let rank = if rank == "preferred" {
        Rank::Preferred
    } else {
        Rank::Normal
    };
    let property = EntityId::read(property)?;
    for _ in 0..count {
        statements.push(ranked(alloc, property, rank)).ok()?;
    }
    Some(())
}

// A statement of a property with a rank.
pub(crate) fn ranked(alloc: Global, property: EntityId, rank: Rank) -> Statement<'static> {
    let main = Snak {
        property,
        place: 0,
        datatype: CowText::borrowed("string"),
        content: Content::NoValue,
    };
    Statement {
        id: CowText::borrowed("x"),
        property,
        rank,
        main,
        qualifiers: List::new(alloc),
        references: List::new(alloc),
    }
}

pub(crate) fn try_ranks(tester: &mut Tester<'_>) {
    tester.try_rows("ranks of an item and a property", TWO, &mut Ranks);
    tester.try_rows("many statements", MANY, &mut Ranks);
}
