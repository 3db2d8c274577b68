// Laws of the versions of the mapping: by which one each held document is mapped, and which union that gives.

ghost use Rattle.std.specs.Prelude.{◌≡◌, ℕ, Bool, List, Option, true};
ghost use Rattle.std.specs.declared.cmp.Ordering.{Ordering};
ghost use Rattle.delivery.specs.declared.Delivery.{Delivery};
ghost use Rattle.entity_model.specs.{declared.id.EntityId.EntityId, declared.mapping.MappingVersion.MappingVersion};
ghost use Rattle.replay_model.specs.{Acceptance.version_in_force, Play.Replies, Play.played, PlayedVersions.by_two_played};
ghost use Rattle.replay_model.specs.{Records.Records, Records.record_of, Union.Meaning, Union.owners, Union.triples_held, Union.union};
ghost use Rattle.replay_model.specs.Versions.{all_by, is_holder, meaning_by, version_at};

/// The union and the owners depend on what the held pages mean, and on nothing else that a meaning says.
pub fn what_is_held_decides_the_union<Triple>()
    ensures union { (order : Triple → Triple → Ordering) (m n : Meaning Triple) (records : Records) →
        ((x : EntityId) → triples_held n x (record_of records x).held ≡ triples_held m x (record_of records x).held) →
        union order n records ≡ union order m records }
    ensures owners { (order : Triple → Triple → Ordering) (m n : Meaning Triple) (records : Records) →
        ((x : EntityId) → triples_held n x (record_of records x).held ≡ triples_held m x (record_of records x).held) →
        (t : Triple) → owners order n records t ≡ owners order m records t }
{}

/// Where all that is held is mapped by one version, the union and the owners are those of this version alone.
pub fn one_version_gives_its_union<Triple>()
    ensures union { (order : Triple → Triple → Ordering) (meaning : MappingVersion → Meaning Triple) (v : MappingVersion) (records : Records) →
        union order (meaning_by meaning (all_by v records)) records ≡ union order (meaning v) records }
    ensures owners { (order : Triple → Triple → Ordering) (meaning : MappingVersion → Meaning Triple) (v : MappingVersion) (records : Records) (t : Triple) →
        owners order (meaning_by meaning (all_by v records)) records t ≡ owners order (meaning v) records t }
{}

/// After any deliveries, and so at each question, and after the end of the input, each document that is held is mapped by the version
/// of the mapping in force: the entities that hold by version Two are all that hold a document where Two is in force, and none where
/// One is.
pub fn documents_are_by_the_version_in_force()
    ensures ids { (h : Option ℕ) (closed : Bool) (replies : Replies) (ds : List Delivery) →
        by_two_played h closed replies ds ≡ all_by (version_in_force ds) (played h closed replies ds).records }
    ensures each { (h : Option ℕ) (closed : Bool) (replies : Replies) (ds : List Delivery) (x : EntityId) →
        is_holder (played h closed replies ds).records x ≡ true → version_at (by_two_played h closed replies ds) x ≡ version_in_force ds }
{}
