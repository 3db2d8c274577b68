// Events of entities' pages, and the order in which they are applied.

ghost use Rattle.std.specs.Prelude.{◌≡◌};
ghost use Rattle.std.specs.Ordering.{nat_cmp, on, ordering_then, is_lt};
ghost use Rattle.entity_model.specs.Kind.{kind_place};

use crate::id::EntityId;
use std::cmp::Ordering;

/// What happened to an entity's page. The kinds are in the order in which events of one time and
/// one revision are applied.
#[derive(Clone, Copy, PartialEq, Eq, PartialOrd, Ord, Debug)]
pub enum Kind {
    /// The page got a new revision.
    Edit,
    /// The page was deleted.
    Delete,
    /// The page was restored.
    Undelete,
    /// The page was compared with the wiki, where it is deleted.
    ReconcileDeleted,
    /// The page was compared with the wiki, where it is there.
    ReconcileKept,
}

impl Kind {
    /// Compares by the order in which the kinds are declared.
    fn compare(self, other: Kind) -> Ordering
        ensures { result ≡ on kind_place nat_cmp self other }
    {
        self.cmp(&other)
    }
}

/// One event of an entity's page. Two events are the same where these four are.
#[derive(Clone, Copy, Debug)]
pub struct Event {
    /// The entity whose page it is.
    pub entity: EntityId,
    /// When it happened, in microseconds since 1970-01-01T00:00:00Z.
    pub time: i64,
    /// The revision of the page that it speaks of.
    pub rev: u64,
    /// What happened.
    pub kind: Kind,
}

impl Event {
    ghost use Rattle.entity_model.specs.{Event.event_cmp, EntityId.entity_cmp};

    /// Says whether this event is applied before the other: by time, then by revision, then by
    /// kind, then by entity.
    pub fn key_before(&self, other: &Event) -> bool
        ensures { result ≡ is_lt (event_cmp self.now other.now) }
    {
        self < other
    }

    // The order of events of one time: most events have another, so these are looked at apart.
    fn compare_at_time(&self, other: &Event) -> Ordering
        ensures { result ≡ ordering_then (ordering_then (nat_cmp self.now.rev other.now.rev) (on kind_place nat_cmp self.now.kind other.now.kind)) (entity_cmp self.now.entity other.now.entity) }
    {
        self.rev
            .cmp(&other.rev)
            .then(self.kind.compare(other.kind))
            .then(self.entity.cmp(&other.entity))
    }
}

impl PartialEq for Event {
    ghost use Rattle.std.specs.{Ordering.eq_by_cmp, Cmp.partial_equiv_from_equiv, Cmp.eq_by_cmp_equiv};
    ghost use Rattle.entity_model.specs.Event.{event_cmp, event_cmp_total};

    ghost eq = { eq_by_cmp event_cmp };

    ghost laws = { partial_equiv_from_equiv (eq_by_cmp_equiv event_cmp_total) };

    fn eq(&self, other: &Event) -> bool {
        self.cmp(other) == Ordering::Equal
    }
}

impl Eq for Event {
    ghost use Rattle.std.specs.Cmp.{eq_by_cmp_equiv};
    ghost use Rattle.entity_model.specs.Event.{event_cmp_total};

    ghost laws = { eq_by_cmp_equiv event_cmp_total };
}

impl PartialOrd for Event {
    ghost use Rattle.std.specs.{Ordering.as_partial_cmp, Cmp.partial_order_from_total};
    ghost use Rattle.entity_model.specs.Event.{event_cmp, event_cmp_total};

    ghost partial_cmp = { as_partial_cmp event_cmp };

    ghost laws = { partial_order_from_total event_cmp_total };

    fn partial_cmp(&self, other: &Event) -> Option<Ordering> {
        Some(self.cmp(other))
    }
}

impl Ord for Event {
    ghost use Rattle.std.specs.Prelude.{refl};
    ghost use Rattle.entity_model.specs.Event.{event_cmp, event_cmp_total};

    ghost cmp = { event_cmp };

    ghost total = { event_cmp_total };

    ghost matches_partial_cmp = { λ x y. refl };

    ghost matches_eq = { λ x y. refl };

    fn cmp(&self, other: &Event) -> Ordering {
        match self.time.cmp(&other.time) {
            Ordering::Equal => self.compare_at_time(other),
            decided => decided,
        }
    }
}
