// How many pages name an entity, where one page comes in the place of another.

ghost use Rattle.std.specs.Prelude.{◌≡◌, ◌+◌, ◌<◌, true, IfOk};
ghost use Rattle.sorted_sets.specs.{Counting.one_if, Rising.IsRising, Rising.has, Rising.sorted};
ghost use Rattle.entity_model.specs.{EntityId.entity_cmp, declared.id.EntityId.EntityId as TheId};
ghost use Rattle.entity_counts.specs.Naming.{pages_naming};
ghost use Rattle.lean_holdings.specs.Holding.{counted_by};

use entity_counts::EntityCounts;
use entity_model::EntityId;
use rdf_term::OutOfMemory;
use std::alloc::Global;

/// A page that names some entities goes, and one that names others comes; each list rises. It takes no memory.
pub fn move_names(names: &mut EntityCounts, gone: &[EntityId], come: &[EntityId])
    requires gone_rise { IsRising entity_cmp gone.now }
    requires come_rise { IsRising entity_cmp come.now }
    requires counted { (x : TheId) → has entity_cmp x come.now ≡ true → has entity_cmp x (counted_by names.old) ≡ true }
    requires named { (x : TheId) → has entity_cmp x gone.now ≡ true → 0 < pages_naming names.old x }
    requires few { (x : TheId) → pages_naming names.old x < 18446744073709551615 }
    ensures named { (x : TheId) → pages_naming names.new x + one_if (has entity_cmp x gone.now)
        ≡ pages_naming names.old x + one_if (has entity_cmp x come.now) }
    ensures counted { counted_by names.new ≡ counted_by names.old }
{
    names.raise(come);
    names.lower(gone);
}
