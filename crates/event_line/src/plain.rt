// Lines in the form in which most programs write them.
//
// `{"kind":"edit","entity":"Q1","rev":5,"time":"2024-05-01T10:00:05Z"}`, a watermark, and a question of one pattern: with no escape, the
// members in this order, and spaces only before a token and not before a comma or a colon. Such a line is read where it stands: no value
// is built. Any other line is passed over, and read as JSON.

ghost use Rattle.std.specs.Prelude.{◌≡◌, ◌<◌, ◌^◌, IfSome, Ok, Some};
ghost use Rattle.delivery.specs.declared.Delivery.TheVariants.{Event as Told, Watermark as Raised};
ghost use Rattle.serde_json.specs.Data.{Data};
ghost use Rattle.event_line.specs.{Line.data_of, Line.delivery_in, Line.delivery_of, Line.whole_kind, Pieces.HasNextText, Plain.ask_data, Plain.event_data};

use crate::line::{KindName, kind_named};
use crate::pieces::{
    TextPiece, behind, behind_key, behind_mark, closes, number_member, text, text_member,
};
use crate::time;
use entity_model::{EntityId, Event, Kind};

// The texts of a question: for subject, predicate and object.
#[derive(Clone, Copy, Drop)]
pub(crate) struct AskTexts<'a> {
    pub(crate) subject: &'a str,
    pub(crate) predicate: &'a str,
    pub(crate) object: &'a str,
}

// The event of a line in this form.
pub(crate) fn plain_event(line: &[u8]) -> Option<Event>
    ensures { IfSome result (λ event. delivery_of line.now ≡ Ok (Told event)) }
{
    let kind = text_member(b'{', b"\"kind\":", line)?;
    let entity = text_member(b',', b"\"entity\":", kind.rest)?;
    let rev = number_member(b',', b"\"rev\":", entity.rest)?;
    let time = text_member(b',', b"\"time\":", rev.rest)?;
    if closes(time.rest) {
        event(kind.text, entity.text, rev.number, time.text)
    } else {
        None
    }
}

// The event whose members have these values.
fn event(kind: &str, entity: &str, rev: u64, time: &str) -> Option<Event>
    requires { 0 < rev }
    ensures { IfSome result (λ event. delivery_in (event_data kind.now entity.now rev time.now) ≡ Ok (Told event)) }
{
    let kind = plain_kind(kind_named(kind)?)?;
    let entity = EntityId::read(entity)?;
    let time = time::microseconds(time.as_bytes())?;
    Some(Event {
        entity,
        time,
        rev,
        kind,
    })
}

// The kind with that name, where no other member tells more of it.
fn plain_kind(name: KindName) -> Option<Kind>
    ensures { IfSome result (λ kind. (json : Data) → whole_kind json name ≡ Some kind) }
{
    match name {
        KindName::Edit => Some(Kind::Edit),
        KindName::Delete => Some(Kind::Delete),
        KindName::Undelete => Some(Kind::Undelete),
        KindName::Reconcile => None,
    }
}

// The time of a watermark's line in this form.
pub(crate) fn plain_watermark(line: &[u8]) -> Option<i64>
    ensures { IfSome result (λ time. delivery_of line.now ≡ Ok (Raised time)) }
{
    let time = text_member(b'{', b"\"watermark\":", line)?;
    if closes(time.rest) {
        time::microseconds(time.text.as_bytes())
    } else {
        None
    }
}

// The texts of a question's line in this form.
pub(crate) fn ask_texts(line: &[u8]) -> Option<AskTexts<'_>>
    ensures { IfSome result (λ texts. data_of line.now ≡ Some (ask_data texts.subject.now texts.predicate.now texts.object.now)) }
{
    let list = behind_key(b'{', b"\"ask\":", line)?;
    let subject = text(behind(b"[", list)?)?;
    let predicate = next_text(subject.rest)?;
    let object = next_text(predicate.rest)?;
    if closes(behind(b"]", object.rest)?) {
        Some(AskTexts {
            subject: subject.text,
            predicate: predicate.text,
            object: object.text,
        })
    } else {
        None
    }
}

// The text behind a comma.
fn next_text(bytes: &[u8]) -> Option<TextPiece<'_>>
    ensures { IfSome result (λ piece. HasNextText piece.text.now bytes.now piece.rest.now) }
{
    text(behind_mark(b',', bytes)?)
}
