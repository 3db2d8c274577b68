// What holds of the deliveries of a drill. Each law is the contract of a function that does nothing.

ghost use Rattle.std.specs.Prelude.{◌≡◌, ◌≤◌, ◌+◌, ◌*◌, ◌/◌, ◌++◌, ℕ, List, length};
ghost use Rattle.delivery.specs.declared.Delivery.{Delivery};
ghost use Rattle.entity_model.specs.declared.mapping.MappingVersion.{MappingVersion};
ghost use Rattle.replay_model.specs.Acceptance.{version_in_force};
ghost use Rattle.triple_store.specs.Room.{distinct};
ghost use Rattle.drill_replay.specs.Told.{terms_there};
ghost use Rattle.drill_replay.specs.Drill.{IsSize, contents_of, drill};
ghost use Rattle.rdf_term.specs.Limits.{default_max_terms};

/// The first version of the mapping is in force after all deliveries of a drill, and after each first part of them.
pub fn drill_is_by_the_first_version()
    ensures whole { (size : ℕ) → version_in_force (drill size) ≡ MappingVersion.One }
    ensures part { (size : ℕ) (before after : List Delivery) → drill size ≡ before ++ after → version_in_force before ≡ MappingVersion.One }
{}

/// The pages that the deliveries of a drill bring have together no more distinct terms than its world has room for.
pub fn drill_has_room()
    ensures { (size : ℕ) → IsSize size → distinct (terms_there (contents_of size) (drill size)) ≤ default_max_terms }
{}

/// A drill has three deliveries for each item, one more for each fifth item, and two more for each tenth.
pub fn drill_has_this_length()
    ensures { (n : ℕ) → length (drill n) ≡ 3 * n + n / 5 + 2 * (n / 10) }
{}
