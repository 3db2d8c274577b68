// The sink that takes the triples of a page apart.

ghost use Rattle.std.specs.Prelude.{◌≡◌, [], ◌∷◌, false, true, OnOk};
ghost use Rattle.triple_sink.specs.{Gains.Gains, Gains.KeepsFront, Subject.IsKnown, TermRef.meant_triple};
ghost use Rattle.page_parts.specs.Parts.{AreParts, GoOn};

use crate::homes::{belongs_alone, home_of_term, note_stranger};
use crate::texts::PartTexts;
use entity_model::EntityId;
use rdf_term::OutOfMemory;
use std::alloc::Global;
use std::marker::Model;
use triple_sink::{Subject, TermRef, TripleSink};
use triple_texts::TripleTexts;

// Where a triple lies: in which part, and at which index there.
#[derive(Clone, Copy)]
pub(crate) struct Place {
    pub(crate) is_own: bool,
    pub(crate) index: usize,
}

/// The triples of an entity's page, in two parts: those that stand in this page alone, since they belong to the entity and it isn't
/// counted, and the others. Contracts see the triples in the order in which they came, both parts, and the other entities that triples
/// belong to; where a call failed, nothing is said of the parts.
#[derive(Drop)]
pub struct PageParts {
    entity: EntityId,
    is_counted: bool,
    has_failed: bool,
    texts: PartTexts,
    places: Vec<Place>,
    strangers: Vec<EntityId>,
}

impl Model for PageParts {
    ghost use Rattle.std.specs.Prelude.{map};
    ghost use Rattle.page_parts.specs.{Codes.parts_code, Parts.PartsState, Parts.IsParted, Parts.triple_at};

    ghost Value = { PartsState };

    ghost coded = { parts_code };

    ghost view = { λ p. record {
      entity = p.entity;
      is_counted = p.is_counted;
      has_failed = p.has_failed;
      all = map (triple_at p.texts.own p.texts.shared) p.places.items;
      own = p.texts.own;
      shared = p.texts.shared;
      strangers = p.strangers.items;
    } };

    ghost invariant = { λ p. IsParted p.entity p.is_counted p.has_failed p.texts.own p.texts.shared p.places.items p.strangers.items };
}

impl PageParts {
    /// No triples yet of the page of an entity, which is counted or isn't. It takes no memory.
    pub fn new(alloc: Global, entity: EntityId, is_counted: bool) -> PageParts
        ensures { result ≡ record {
          entity = entity;
          is_counted = is_counted;
          has_failed = false;
          all = [];
          own = [];
          shared = [];
          strangers = [];
        } }
    {
        PageParts {
            entity,
            is_counted,
            has_failed: false,
            texts: PartTexts {
                alloc,
                own: TripleTexts::new(alloc),
                shared: TripleTexts::new(alloc),
            },
            places: Vec::new(alloc),
            strangers: Vec::new(alloc),
        }
    }

    /// Whether these are the parts of a page of the entity, which is counted or isn't, and no call failed: after a fault they may hold too
    /// much.
    pub fn are_whole(&self, entity: EntityId, is_counted: bool) -> bool
        ensures entity { result ≡ true → self.now.entity ≡ entity }
        ensures counted { result ≡ true → self.now.is_counted ≡ is_counted }
        ensures parts { result ≡ true → AreParts self.now }
        ensures failed { result ≡ true → self.now.has_failed ≡ false }
        ensures whole { self.now.entity ≡ entity → self.now.is_counted ≡ is_counted → self.now.has_failed ≡ false → result ≡ true }
    {
        !self.has_failed && self.entity == entity && self.is_counted == is_counted
    }

    /// The triples that stand in the page alone.
    pub fn own(&self) -> &TripleTexts
        ensures { result.now ≡ self.now.own }
    {
        &self.texts.own
    }

    /// The other triples.
    pub fn shared(&self) -> &TripleTexts
        ensures { result.now ≡ self.now.shared }
    {
        &self.texts.shared
    }

    /// The other entities that triples of the page belong to. One may stand there more than once.
    pub fn strangers(&self) -> &[EntityId]
        ensures { result.now ≡ self.now.strangers }
    {
        self.strangers.as_slice()
    }
}

impl TripleSink for PageParts {
    ghost use Rattle.std.specs.Prelude.{[], ◌∷◌};

    ghost items = { λ parts. parts.all };

    ghost keeps = { λ parts triple. triple ∷ [] };

    // After an answer without a fault they are whole if they were.
    fn emit(
        &mut self,
        _alloc: Global,
        subject: &TermRef<'_>,
        predicate: &TermRef<'_>,
        object: &TermRef<'_>,
    ) -> Result<(), OutOfMemory>
        ensures gains { OnOk result (Gains (λ p. p.all) (λ p triple. triple ∷ []) self.old self.new (meant_triple subject.now predicate.now object.now ∷ [])) }
        ensures front { KeepsFront (λ p. p.all) self.old self.new }
        ensures whole { OnOk result (GoOn self.old self.new) }
    {
        let home = home_of_term(subject);
        let is_own = belongs_alone(self.entity, self.is_counted, home);
        self.places.reserve(1)?;
        note_stranger(self.entity, home, &mut self.strangers)?;
        let anew = Subject {
            term: *subject,
            index: None,
        };
        match self.texts.put(is_own, &anew, predicate, object) {
            Ok(index) => {
                self.places.push_reserved(Place { is_own, index });
                Ok(())
            }
            Err(refused) => {
                self.has_failed = true;
                Err(refused)
            }
        }
    }

    // A known subject has the home of the triple that has it.
    fn emit_known(
        &mut self,
        alloc: Global,
        subject: &Subject<'_>,
        predicate: &TermRef<'_>,
        object: &TermRef<'_>,
    ) -> Result<(), OutOfMemory>
        requires known { IsKnown (λ p. p.all) self.old subject.now }
        ensures gains { OnOk result (Gains (λ p. p.all) (λ p triple. triple ∷ []) self.old self.new (meant_triple subject.now.term predicate.now object.now ∷ [])) }
        ensures front { KeepsFront (λ p. p.all) self.old self.new }
        ensures whole { OnOk result (GoOn self.old self.new) }
    {
        let Some(index) = subject.index else {
            return self.emit(alloc, &subject.term, predicate, object);
        };
        self.places.reserve(1)?;
        let Place { is_own, index } = self.places[index];
        let known = Subject {
            term: subject.term,
            index: Some(index),
        };
        match self.texts.put(is_own, &known, predicate, object) {
            Ok(index) => {
                self.places.push_reserved(Place { is_own, index });
                Ok(())
            }
            Err(refused) => {
                self.has_failed = true;
                Err(refused)
            }
        }
    }

    // The last triple is the only one that is looked at.
    fn known_index(&self, subject: &TermRef<'_>) -> Option<usize> {
        let last = self.places.len().checked_sub(1)?;
        let Place { is_own, index } = self.places[last];
        let part = if is_own {
            &self.texts.own
        } else {
            &self.texts.shared
        };
        if part.known_index(subject) == Some(index) {
            Some(last)
        } else {
            None
        }
    }
}
