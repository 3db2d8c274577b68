// The patch from one set to another, by one merge of their triples.

ghost use Rattle.std.specs.Prelude.{◌≡◌, ◌++◌, IfOk};
ghost use Rattle.sorted_sets.specs.Rising.{IsRising, difference};
ghost use Rattle.rdf_term.specs.Order.{triple_cmp};
ghost use Rattle.triple_patch.specs.Patch.{patch_between};

use crate::changes::Patch;
use rdf_term::{List, OutOfMemory, Triple, TripleSet};
use std::alloc::Global;
use std::cmp::Ordering;

// The triples of two sets that the other doesn't have.
#[derive(Drop)]
struct BothWays {
    // Those of the second set.
    adds: List<Triple>,
    // Those of the first set.
    removes: List<Triple>,
}

/// The patch that leads from `old` to `new`, by one merge. The triples of the patch are in memory of their own.
pub fn patch(alloc: Global, old: &TripleSet, new: &TripleSet) -> Result<Patch, OutOfMemory>
    ensures { IfOk result (λ patch. patch ≡ patch_between old.now new.now) }
{
    let BothWays { adds, removes } = differences(alloc, old.items(), new.items())?;
    Ok(Patch {
        adds: TripleSet::from_rising(adds),
        removes: TripleSet::from_rising(removes),
    })
}

// The differences of two lists that rise strictly, both ways, by one merge.
fn differences(alloc: Global, old: &[Triple], new: &[Triple]) -> Result<BothWays, OutOfMemory>
    requires old { IsRising triple_cmp old.now }
    requires new { IsRising triple_cmp new.now }
    ensures adds { IfOk result (λ d. d.adds ≡ difference triple_cmp new.now old.now) }
    ensures removes { IfOk result (λ d. d.removes ≡ difference triple_cmp old.now new.now) }
{
    let mut adds = List::new(alloc);
    let mut removes = List::new(alloc);
    let mut left = old;
    let mut right = new;
    while let Some((x, xs)) = left.split_first() {
        let Some((y, ys)) = right.split_first() else {
            append_copies(alloc, left, &mut removes)?;
            return Ok(BothWays { adds, removes });
        };
        match x.cmp(y) {
            Ordering::Less => {
                removes.push(x.copy(alloc)?)?;
                left = xs;
            }
            Ordering::Equal => {
                left = xs;
                right = ys;
            }
            Ordering::Greater => {
                adds.push(y.copy(alloc)?)?;
                right = ys;
            }
        }
    }
    append_copies(alloc, right, &mut adds)?;
    Ok(BothWays { adds, removes })
}

// Puts copies of the triples at the end.
fn append_copies(
    alloc: Global,
    triples: &[Triple],
    list: &mut List<Triple>,
) -> Result<(), OutOfMemory>
    ensures { IfOk result (λ _. list.new ≡ list.old ++ triples.now) }
{
    for triple in triples {
        list.push(triple.copy(alloc)?)?;
    }
    Ok(())
}
