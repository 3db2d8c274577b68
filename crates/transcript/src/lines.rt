// The lines of the transcript, but for those of the triples.

ghost use Rattle.std.specs.Prelude.{◌≡◌, IfOk, string_bytes};
ghost use Rattle.replay_model.specs.Transcript.{ask_head, entry_line, entry_word, entry_words, event_words, match_head, mode_line, open_word, side_line, state_line, stated_line};

use entity_model::{EntityId, Event};
use entity_state::{Entry, Mode, State};
use rdf_term::OutOfMemory;
use replay_model::{cause_word, kind_word};
use std::alloc::Global;

// The first line of the answer to the question with this number.
#[tactic(auto, unfolding(replay_model::specs::Transcript::ask_head))]
pub(crate) fn answer_line(alloc: Global, number: u64, count: usize) -> Result<String, OutOfMemory>
    ensures { IfOk result (λ line. string_bytes line ≡ ask_head number count) }
{
    Ok(format!(in alloc; "# ask {number}: {count} triples\n")?)
}

// The first line of the answer to the match with this number.
#[tactic(auto, unfolding(replay_model::specs::Transcript::match_head))]
pub(crate) fn match_line(alloc: Global, number: u64, count: usize) -> Result<String, OutOfMemory>
    ensures { IfOk result (λ line. string_bytes line ≡ match_head number count) }
{
    Ok(format!(in alloc; "# match {number}: {count} rows\n")?)
}

// The line of an entity's state with its line feed; empty where no event says which it is.
pub(crate) fn state_line(alloc: Global, id: EntityId, state: State) -> Result<String, OutOfMemory>
    ensures { IfOk result (λ line. string_bytes line ≡ state_line id state) }
{
    mode_line(alloc, id, state.mode, state.rev)
}

// The same, by the mode.
#[tactic(auto, unfolding(replay_model::specs::Transcript::mode_line))]
fn mode_line(alloc: Global, id: EntityId, mode: Mode, rev: u64) -> Result<String, OutOfMemory>
    ensures { IfOk result (λ line. string_bytes line ≡ mode_line id mode rev) }
{
    match mode {
        Mode::Unknown => Ok(String::new(alloc)),
        Mode::Kept => stated_line(alloc, id, "kept", rev),
        Mode::Deleted => stated_line(alloc, id, "deleted", rev),
    }
}

// The line of a state with a word for it.
#[tactic(auto, unfolding(replay_model::specs::Transcript::stated_line))]
fn stated_line(alloc: Global, id: EntityId, word: &str, rev: u64) -> Result<String, OutOfMemory>
    ensures { IfOk result (λ line. string_bytes line ≡ stated_line id word.now rev) }
{
    let id = id.text(alloc)?;
    let id = id.as_str();
    Ok(format!(in alloc; "# state {id} {word} {rev}\n")?)
}

// The line of an entry of the side output with its line feed.
pub(crate) fn entry_line(alloc: Global, entry: &Entry, is_open: bool) -> Result<String, OutOfMemory>
    ensures { IfOk result (λ line. string_bytes line ≡ entry_line is_open entry.now) }
{
    let id = entry.entity().text(alloc)?;
    let words = entry_words(alloc, entry)?;
    side_line(
        alloc,
        entry_word(entry),
        open_word(is_open),
        id.as_str(),
        words.as_str(),
    )
}

// The same, of its words.
#[tactic(auto, unfolding(replay_model::specs::Transcript::side_line))]
fn side_line(
    alloc: Global,
    word: &str,
    stands: &str,
    id: &str,
    words: &str,
) -> Result<String, OutOfMemory>
    ensures { IfOk result (λ line. string_bytes line ≡ side_line word.now stands.now id.now words.now) }
{
    Ok(format!(in alloc; "# side {word} {stands} {id} {words}\n")?)
}

// The word for what an entry tells of.
#[tactic(auto, unfolding(replay_model::specs::Transcript::entry_word))]
fn entry_word(entry: &Entry) -> &'static str
    ensures { result.now ≡ entry_word entry.now }
{
    match entry {
        Entry::Late(_) => "late",
        Entry::Revision(_, _, cause) => cause_word(*cause),
    }
}

// The words for what an entry names.
#[tactic(auto, unfolding(replay_model::specs::Transcript::entry_words))]
fn entry_words(alloc: Global, entry: &Entry) -> Result<String, OutOfMemory>
    ensures { IfOk result (λ words. string_bytes words ≡ entry_words entry.now) }
{
    match entry {
        Entry::Late(event) => event_words(alloc, event),
        Entry::Revision(_, rev, _) => Ok(format!(in alloc; "{rev}")?),
    }
}

// The words for an event.
#[tactic(auto, unfolding(replay_model::specs::Transcript::event_words))]
fn event_words(alloc: Global, event: &Event) -> Result<String, OutOfMemory>
    ensures { IfOk result (λ words. string_bytes words ≡ event_words event.now) }
{
    let kind = kind_word(event.kind);
    let rev = event.rev;
    let time = event.time;
    Ok(format!(in alloc; "{kind} {rev} {time}")?)
}

// The word for an entry that is open, and for one that isn't.
#[tactic(auto, unfolding(replay_model::specs::Transcript::open_word))]
fn open_word(is_open: bool) -> &'static str
    ensures { result.now ≡ open_word is_open }
{
    if is_open { "open" } else { "closed" }
}
