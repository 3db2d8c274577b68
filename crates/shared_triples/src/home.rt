// The entity that a term belongs to, and its laws.

ghost use Rattle.std.specs.Prelude.{◌≡◌, ◌+◌, ◌<◌, ◌^◌, ℕ, List, ◌++◌, ◌∷◌, None, Some, codes, ◌≢◌};
ghost use Rattle.std.specs.{Fmt.decimal, List.before_first};
ghost use Rattle.std.specs.declared.cmp.Ordering.{Ordering};
ghost use Rattle.rdf_term.specs.{declared.term.Term.Term, Order.term_cmp};
ghost use Rattle.rdf_term.specs.declared.term.Term.TheVariants.{Iri};
ghost use Rattle.entity_model.specs.{declared.id.EntityId.EntityId, EntityId.IsId, EntityId.id_text, IdKind.letter_of};
ghost use Rattle.shared_triples.specs.Home.{home, named_id, named_in};

/// An entity's IRI, and what goes on after a `-` behind its id, belongs to the entity, and so does the node of a statement that begins with
/// its id, be its letter large or small. Any other name in the two namespaces is read up to its first `-`. Terms with one canonical text
/// belong to one entity.
pub fn names_have_their_home()
    ensures entity { (x : EntityId) → IsId x → home (Iri (codes "http://www.wikidata.org/entity/" ++ id_text x)) ≡ Some x }
    ensures part { (x : EntityId) → IsId x → (rest : List ℕ) →
        home (Iri (codes "http://www.wikidata.org/entity/" ++ id_text x ++ 45 ∷ rest)) ≡ Some x }
    ensures statement { (x : EntityId) → IsId x → (rest : List ℕ) →
        home (Iri (codes "http://www.wikidata.org/entity/statement/" ++ id_text x ++ 45 ∷ rest)) ≡ Some x }
    ensures small_letter { (x : EntityId) → IsId x → (rest : List ℕ) →
        home (Iri (codes "http://www.wikidata.org/entity/statement/" ++ (letter_of x.kind + 32) ∷ (decimal x.number ++ 45 ∷ rest)))
        ≡ Some x }
    ensures name { (name : List ℕ) → home (Iri (codes "http://www.wikidata.org/entity/" ++ name)) ≡ named_in (Some name) }
    ensures statement_name { (name : List ℕ) → home (Iri (codes "http://www.wikidata.org/entity/statement/" ++ name)) ≡ named_id name }
    ensures elsewhere { (iri : List ℕ) → ((name : List ℕ) → iri ≢ codes "http://www.wikidata.org/entity/" ++ name) → home (Iri iri) ≡ None }
    ensures tied { (a b : Term) → term_cmp a b ≡ Ordering.Equal → home a ≡ home b }
{}
