// What holds of the versions by which pages are mapped, and of the changes that are told. Each law is the
// contract of a function that does nothing.

ghost use Rattle.std.specs.Prelude.{◌≡◌, ◌↔◌, ℕ, List, Option};
ghost use Rattle.sorted_sets.specs.Rising.{IsRising};
ghost use Rattle.rdf_term.specs.{declared.triple.Triple.Triple, Order.triple_cmp};
ghost use Rattle.entity_model.specs.{declared.id.EntityId.EntityId, declared.mapping.MappingVersion.MappingVersion};
ghost use Rattle.revisions.specs.Revisions.{Contents};
ghost use Rattle.replay_model.specs.{PlayedVersions.by_two_after_event, PlayedVersions.by_two_remapped, Records.Records, Records.record_of};
ghost use Rattle.replay_model.specs.Versions.{all_by};
ghost use Rattle.triple_store.specs.declared.telling.Change.{Change};
ghost use Rattle.holders.specs.{Changing.IsChangeOf, Holding.AreHolders};
ghost use Rattle.world.specs.{declared.applied.AppliedEvent.AppliedEvent, Applying.Applies, WorldState.WorldState, WorldState.by_two_after};

/// The versions by which a world maps its pages are those of the play: an application makes of them what the play says, with the reply
/// that came; and once every page is mapped by the version in force, they are what the play makes of them at a line that brings this
/// version. So where every page is mapped by the version in force, it is after an application.
pub fn versions_follow_the_play()
    ensures application { (known : Option Contents) (folder : List ℕ) (old new : WorldState) (applied : AppliedEvent) →
        (applies : Applies known folder old.replay new.replay applied) → AreHolders old.by_two old.replay.played.records →
        by_two_after applied.outcome old.mapping applied.event.entity old.by_two
        ≡ by_two_after_event old.mapping (λ _ _. applies.reply) applied.event (record_of old.replay.played.records applied.event.entity) old.by_two }
    ensures remapping { (version : MappingVersion) (by_two : List EntityId) (records : Records) → AreHolders by_two records →
        by_two_remapped version records by_two ≡ all_by version records }
    ensures one_version { (known : Option Contents) (folder : List ℕ) (old new : WorldState) (applied : AppliedEvent) →
        Applies known folder old.replay new.replay applied → new.mapping ≡ old.mapping →
        new.by_two ≡ by_two_after applied.outcome old.mapping applied.event.entity old.by_two →
        old.by_two ≡ all_by old.mapping old.replay.played.records → new.by_two ≡ all_by new.mapping new.replay.played.records }
{}

/// A change that is told has no line exactly where the stored triples are as they were.
pub fn changes_have_lines()
    ensures { (before after : List Triple) (change : Change) → IsRising triple_cmp before → IsRising triple_cmp after → IsChangeOf before after change →
        ((change.came.count ≡ 0) × (change.gone.count ≡ 0)) ↔ (after ≡ before) }
{}
