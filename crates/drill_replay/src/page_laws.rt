// What holds of the pages of a drill. Each law is the contract of a function that does nothing.

ghost use Rattle.std.specs.Prelude.{ℕ, ◌<◌, ◌≤◌, ◌^◌};
ghost use Rattle.std.specs.List.{flat_map};
ghost use Rattle.json_spell.specs.Grammar.{Reads};
ghost use Rattle.entity_model.specs.declared.mapping.MappingVersion.{MappingVersion};
ghost use Rattle.triple_store.specs.Room.{distinct, terms_of};
ghost use Rattle.fetched_pages.specs.Meaning.{meaning};
ghost use Rattle.drill_replay.specs.Drill.{earlier_page, item, later_page};
ghost use Rattle.drill_replay.specs.Trees.{earlier_tree, later_tree};

/// The pages of an item of a drill, whose number has at most 64 bits, are JSON texts (RFC 8259) of these values.
pub fn pages_are_json_texts()
    ensures earlier { (i : ℕ) → i < 2 ^ 64 → Reads (earlier_page i) (earlier_tree i) }
    ensures later { (i : ℕ) → i < 2 ^ 64 → Reads (later_page i) (later_tree i) }
{}

/// The triples that an earlier page of a drill means, in each version of the mapping and as a page of any item at any revision, have at
/// most 27 distinct terms, and those that a later page means at most 73. The number of the page's own item has at most 64 bits.
pub fn pages_have_few_terms()
    ensures earlier { (version : MappingVersion) (i rev j : ℕ) → j < 2 ^ 64 → distinct (flat_map terms_of (meaning version (item i) rev (earlier_page j))) ≤ 27 }
    ensures later { (version : MappingVersion) (i rev j : ℕ) → j < 2 ^ 64 → distinct (flat_map terms_of (meaning version (item i) rev (later_page j))) ≤ 73 }
{}
