// The words of a run.

ghost use Rattle.std.specs.Prelude.{◌≡◌, ◌++◌, map, string_bytes, IfOk, MatchResult, OnOk};
ghost use Rattle.memory_run.specs.Runs.{MayNotBegin, words_in};

use rdf_term::OutOfMemory;
use session::Status;
use std::alloc::Global;
use std::str;

// The words, a line each. Bytes that aren't UTF-8 are not understood.
pub fn read_words(alloc: Global, bytes: &[u8]) -> Result<Vec<String>, Status>
    ensures { MatchResult result (λ words. map (λ w. string_bytes w) words.items ≡ words_in bytes.now) (MayNotBegin bytes.now) }
{
    let Ok(text) = str::from_utf8(bytes) else {
        return Err(Status::BadWords);
    };
    let Ok(lines) = lines(alloc, text) else {
        return Err(Status::OutOfMemory);
    };
    let mut words = Vec::new(alloc);
    match push_words(alloc, lines.as_slice(), &mut words) {
        Ok(()) => Ok(words),
        Err(_) => {
            drop(words);
            Err(Status::OutOfMemory)
        }
    }
}

// The lines of a text.
fn lines(alloc: Global, text: &str) -> Result<Vec<&str>, OutOfMemory>
    ensures { IfOk result (λ lines. map (λ line. line.now) lines.items ≡ words_in text.now) }
{
    Ok(text.split('\n').collect(alloc)?)
}

// Appends the lines, each with memory of its own.
fn push_words(alloc: Global, lines: &[&str], words: &mut Vec<String>) -> Result<(), OutOfMemory>
    ensures { OnOk result (map (λ w. string_bytes w) words.new.items ≡ map (λ w. string_bytes w) words.old.items ++ map (λ line. line.now) lines.now) }
{
    for line in lines {
        let word = String::from_str(alloc, line)?;
        words.push(word)?;
    }
    Ok(())
}
