// What goes on being in step.

ghost use Rattle.std.specs.FinMap as map;
ghost use Rattle.rdf_term.specs.declared.triple.Triple.{Triple};
ghost use Rattle.entity_model.specs.declared.id.EntityId.{EntityId};
ghost use Rattle.entity_state.specs.declared.record.Record.{Record};
ghost use Rattle.text_region.specs.Region.{Texts};
ghost use Rattle.triple_store.specs.StoreState.{StoreState};
ghost use Rattle.replay_model.specs.Union.{Meaning};
ghost use Rattle.entity_counts.specs.Naming.{Naming, counted_in};
ghost use Rattle.lean_holdings.specs.declared.kept.LeanPage.{LeanPage};
ghost use Rattle.lean_holdings.specs.{Going.CountsIn, Going.CountsOut, Going.PutsIn, Holding.IsKept, Kept.KeptRecords};

/// Store, packed pages and names stay in step with the records where an entity is counted in, where one that no page names is counted out,
/// and where a record is put in: by an application, by a mapping of another version, or since nothing is held any longer.
pub fn holdings_stay_in_step()
    ensures counted_in { (m : Meaning Triple) (x : EntityId) (s s2 : StoreState) (pages : Texts) (names : Naming)
        (kept kept2 : KeptRecords) →
        IsKept m s pages names kept → CountsIn m x s s2 pages names kept kept2 → IsKept m s2 pages (counted_in names x) kept2 }
    ensures counted_out { (m : Meaning Triple) (x : EntityId) (s s2 : StoreState) (pages : Texts) (names : Naming)
        (kept kept2 : KeptRecords) →
        IsKept m s pages names kept → CountsOut m x s s2 pages names kept kept2 → IsKept m s2 pages (map.remove names x) kept2 }
    ensures put_in { (m n : Meaning Triple) (x : EntityId) (s s2 : StoreState) (pages pages2 : Texts) (names names2 : Naming)
        (kept : KeptRecords) (r : Record LeanPage) → IsKept m s pages names kept → PutsIn m n x s s2 pages pages2 names names2 kept r →
        IsKept n s2 pages2 names2 (map.insert kept x r) }
{}
