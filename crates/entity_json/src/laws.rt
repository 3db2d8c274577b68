// What holds of pages and documents. Each law is the contract of a function that does nothing.

ghost use Rattle.std.specs.Prelude.{◌≡◌, ◌↔◌, ℕ, List, Some};
ghost use Rattle.json_spell.specs.Tree.{Tree};
ghost use Rattle.entity_model.specs.{declared.id.EntityId.EntityId, declared.unfit.Unfit.Unfit, declared.document.Document.Document};
ghost use Rattle.entity_model.specs.Document.{IsDocumentOf, IsSmall};
ghost use Rattle.entity_json.specs.{declared.page.Page.Page, Pages.IsPage, Unfit.HasDocument, Unfit.IsUnfit};
ghost use Rattle.entity_json.specs.Document.{document_of, unfit_of};

/// A JSON value is at most one page.
pub fn a_tree_has_one_page()
    ensures { (tree : Tree) (p q : Page) → IsPage tree p → IsPage tree q → p ≡ q }
{}

/// The bytes have a document of an entity exactly where they are a JSON text of the allowed size and depth whose value is
/// the entity's page with this document.
pub fn documents_are_pages()
    ensures { (x : EntityId) (bytes : List ℕ) (document : Document) →
        (document_of x bytes ≡ Some document) ↔ HasDocument x bytes document }
{}

/// Each cause is given exactly where it is the first that the bytes have.
#[tactic(auto, using(crate::proofs::Fitness::causes))]
pub fn unfit_pages_have_causes()
    ensures { (x : EntityId) (bytes : List ℕ) (why : Unfit) → (unfit_of x bytes ≡ Some why) ↔ IsUnfit x bytes why }
{}

/// A document is small.
#[tactic(auto, using(crate::proofs::Fitness::document_small))]
pub fn documents_are_small()
    ensures { (x : EntityId) (bytes : List ℕ) (document : Document) → document_of x bytes ≡ Some document → IsSmall document }
{}

/// A document of an entity is that of an entity with its id, and has the parts that the letter of this id wants and none of
/// another kind. So the rules for the dump of one kind never meet a document of another.
#[tactic(auto, using(crate::proofs::Owned::document_owned))]
pub fn documents_are_of_their_entities()
    ensures { (x : EntityId) (bytes : List ℕ) (document : Document) → document_of x bytes ≡ Some document → IsDocumentOf x document }
{}
