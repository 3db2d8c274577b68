// A pool that fills up, and that has room again.

ghost use Rattle.std.specs.Prelude.{◌≡◌, true, IfSome};
ghost use Rattle.rdf_term.specs.Fit.{is_fit, IsFitAndShort};
ghost use Rattle.term_pool.specs.Pool.{LiesIn};

use crate::tester::{Tester, write_number, write_text};
use rdf_term::{Term, write_term};
use std::alloc::Global;
use std::hash::RandomState;
use term_pool::{Pool, PoolFault};
use term_reading::read_term;
use text_region::Region;

// For a pool of two terms at most: one more use of a term or one less, how many terms and how many blocks of the least class there are
// then, whether the pool was full, and whether the term is found. The texts are short, so each term has such a block. The same text as an
// IRI and as a literal are two terms.
const STEPS: &str = "\
+ <a> = 1 1 there
+ \"a\" = 2 2 there
+ <b> = 2 2 full gone
+ <a> = 2 2 there
- <a> = 2 2 there
- \"a\" = 1 1 gone
+ <b> = 2 2 there
+ \"a\" = 2 2 full gone
- <a> = 1 1 gone
- <b> = 0 0 gone
+ \"a\" = 1 1 there
";

// Whether a pool takes the term, which is fit, since its text is short; not where memory is refused.
fn is_short(alloc: Global, term: &Term) -> bool
    requires { is_fit term.now ≡ true }
    ensures { result ≡ true → IsFitAndShort term.now }
{
    let mut written = Vec::new(alloc);
    let outcome = write_term(term, &mut written);
    outcome.is_ok() && written.len() <= 33_554_432
}

// The term that a text writes, where it is one that a pool takes; None too where memory is refused.
pub(crate) fn term_of(alloc: Global, text: &str) -> Option<Term>
    ensures { IfSome result IsFitAndShort }
{
    let term = read_term(alloc, text).ok()??;
    if is_short(alloc, &term) {
        return Some(term);
    }
    drop(term);
    None
}

// Counts one more use, and says whether that was refused since the pool is full. There is no answer where the term isn't found in one slot
// before and behind; here and below none too where memory is refused, or where a use is taken from a term that isn't there.
fn is_full_for(pool: &mut Pool, region: &mut Region, term: &Term) -> Option<bool>
    requires lies { LiesIn pool.old region.old }
    requires fit { IsFitAndShort term.now }
    ensures { LiesIn pool.new region.new }
{
    let before = pool.find(region, term);
    match pool.intern(region, term) {
        Ok(slot) => {
            let found = (before.unwrap_or(slot), pool.find(region, term));
            (found == (slot, Some(slot))).then_some(false)
        }
        Err(PoolFault::Full) => Some(true),
        Err(PoolFault::OutOfMemory) => None,
    }
}

// Counts a use less of a term that is there.
fn release(pool: &mut Pool, region: &mut Region, term: &Term) -> Option<()>
    requires { LiesIn pool.old region.old }
    ensures { LiesIn pool.new region.new }
{
    let slot = pool.find(region, term)?;
    pool.release(region, slot);
    Some(())
}

// Counts one more use of a term, or one less, and says whether the pool is full for it.
fn is_full_for_call(pool: &mut Pool, region: &mut Region, more: bool, term: &Term) -> Option<bool>
    requires lies { LiesIn pool.old region.old }
    requires fit { IsFitAndShort term.now }
    ensures { LiesIn pool.new region.new }
{
    if more {
        return is_full_for(pool, region, term);
    }
    release(pool, region, term)?;
    Some(false)
}

// Writes how many terms and blocks there are, whether the pool was full, and whether the term is found.
fn write_pool(
    alloc: Global,
    counts: (u32, u64),
    answers: (bool, bool),
    found: &mut Vec<u8>,
) -> Option<()> {
    let (terms, blocks) = counts;
    write_number(alloc, " = ", u64::from(terms), found)?;
    write_number(alloc, " ", blocks, found)?;
    let answer = match answers {
        (false, true) => " there\n",
        (false, false) => " gone\n",
        (true, true) => " full there\n",
        (true, false) => " full gone\n",
    };
    write_text(answer, found)
}

// Takes a step, and writes it again.
fn take_step(
    alloc: Global,
    pool: &mut Pool,
    region: &mut Region,
    step: &str,
    found: &mut Vec<u8>,
) -> Option<()>
    requires { LiesIn pool.old region.old }
    ensures { LiesIn pool.new region.new }
{
    let (call, _) = step.split_once(" = ")?;
    write_text(call, found)?;
    let (sign, text) = call.split_at_checked(2)?;
    let term = term_of(alloc, text)?;
    let full = is_full_for_call(pool, region, sign.starts_with('+'), &term);
    let there = pool.find(region, &term).is_some();
    drop(term);
    let counts = (pool.len(), region.live(0));
    write_pool(alloc, counts, (full?, there), found)
}

// Takes all steps in turn.
fn take_steps(
    alloc: Global,
    pool: &mut Pool,
    region: &mut Region,
    found: &mut Vec<u8>,
) -> Option<()>
    requires { LiesIn pool.old region.old }
{
    for step in STEPS.lines() {
        take_step(alloc, pool, region, step, found)?;
    }
    Some(())
}

// Fills a new pool.
fn fill_pool(alloc: Global, keys: RandomState, found: &mut Vec<u8>) -> Option<()> {
    let mut region = Region::new(alloc).ok()?;
    let mut pool = Pool::new(alloc, keys, 2);
    let filled = take_steps(alloc, &mut pool, &mut region, found);
    drop(pool);
    drop(region);
    filled
}

pub(crate) fn try_pools(tester: &mut Tester<'_>, keys: RandomState) {
    let ended = fill_pool(tester.alloc(), keys, &mut tester.found);
    tester.try_text("a pool fills up", STEPS, ended);
}
