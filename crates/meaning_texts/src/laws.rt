// What holds of the triples that any bytes mean as a page. Each law is the contract of a function that does nothing.

ghost use Rattle.std.specs.Prelude.{◌≡◌, ◌≤◌, ◌^◌, ℕ, List, Some, length};
ghost use Rattle.std.specs.List.{AllByRecursion};
ghost use Rattle.json_spell.specs.{Tree.Tree, Grammar.Reads};
ghost use Rattle.entity_model.specs.{declared.id.EntityId.EntityId, declared.document.Document.Document};
ghost use Rattle.entity_model.specs.declared.mapping.MappingVersion.{MappingVersion};
ghost use Rattle.entity_json.specs.Document.{document_of};
ghost use Rattle.fetched_pages.specs.Meaning.{meaning};
ghost use Rattle.meaning_texts.specs.{Documents.IsUtf8Document, Terms.HasUtf8Terms, Trees.IsUtf8Tree};

/// Each string, name and number of the value that a JSON text has is UTF-8.
pub fn texts_of_values_are_utf8()
    ensures { (bytes : List ℕ) (t : Tree) → Reads bytes t → IsUtf8Tree t }
{}

/// Each text of a document that a term is made of is UTF-8.
#[tactic(auto, using(crate::proofs::Documents::document_utf8))]
pub fn texts_of_documents_are_utf8()
    ensures { (x : EntityId) (bytes : List ℕ) (document : Document) → document_of x bytes ≡ Some document → IsUtf8Document document }
{}

/// Each term of each triple that bytes mean as a page is UTF-8, by each version of the mapping.
#[tactic(auto, using(crate::proofs::Meanings::meaning_utf8))]
pub fn terms_of_meanings_are_utf8()
    ensures { (version : MappingVersion) (x : EntityId) (rev : ℕ) (bytes : List ℕ) → AllByRecursion HasUtf8Terms (meaning version x rev bytes) }
{}

/// Bytes mean at most 2^31 triples: a page has at most 8 MiB, and no rule gives more than 256 triples for a byte.
#[tactic(auto, using(crate::proofs::Few::meaning_few))]
pub fn meanings_are_few()
    ensures { (version : MappingVersion) (x : EntityId) (rev : ℕ) (bytes : List ℕ) → length (meaning version x rev bytes) ≤ 2 ^ 31 }
{}
