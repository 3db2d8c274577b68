// Patches between small sets, worked out by hand.

use crate::tester::{Subject, Tester, write_text};
use rdf_term::{List, OutOfMemory, Term, Text, Triple, TripleSet};
use std::alloc::Global;
use triple_patch::patch;

// An old set and a new one, and then what comes and what goes. A letter stands for a triple.
const ROWS: &str = "| => |
|abc => abc|
abc| => |abc
abc|abc => |
ace|bd => bd|ace
bd|ace => ace|bd
abd|bcd => c|a
cd|abcdef => abef|
abcdef|cd => |abef";

#[derive(Drop)]
struct Patches;

impl Subject for Patches {
    fn answer(&mut self, alloc: Global, given: &str, found: &mut Vec<u8>) -> Option<()> {
        let (old, new) = given.split_once('|')?;
        let old = set_of(alloc, old)?;
        let Some(new) = set_of(alloc, new) else {
            drop(old);
            return None;
        };
        let patch = patch(alloc, &old, &new);
        drop(old);
        drop(new);
        let patch = patch.ok()?;
        let written = write_both(&patch.adds, &patch.removes, found);
        drop(patch);
        written
    }
}

// The set of the letters' triples.
fn set_of(alloc: Global, letters: &str) -> Option<TripleSet> {
    let mut list = List::new(alloc);
    if push_triples(alloc, letters, &mut list).is_err() {
        drop(list);
        return None;
    }
    TripleSet::from_list(list).ok()
}

// Puts the letters' triples into the list.
fn push_triples(alloc: Global, letters: &str, list: &mut List<Triple>) -> Result<(), OutOfMemory> {
    for letter in letters.chars() {
        list.push(triple(alloc, letter)?)?;
    }
    Ok(())
}

// The triple of a letter.
fn triple(alloc: Global, letter: char) -> Result<Triple, OutOfMemory> {
    let subject = Text::new(alloc, "http://a/s")?;
    let predicate = Text::new(alloc, "http://a/p")?;
    let mut object = String::new(alloc);
    object.push(letter)?;
    Ok(Triple {
        subject: Term::Iri(subject),
        predicate: Term::Iri(predicate),
        object: Term::Plain(Text::from_string(object)),
    })
}

// Writes the letters of what comes, and of what goes.
fn write_both(adds: &TripleSet, removes: &TripleSet, found: &mut Vec<u8>) -> Option<()> {
    write_letters(adds.items(), found)?;
    write_text("|", found)?;
    write_letters(removes.items(), found)
}

// Writes the triples' letters.
fn write_letters(triples: &[Triple], found: &mut Vec<u8>) -> Option<()> {
    for triple in triples {
        if let Term::Plain(letter) = &triple.object {
            write_text(letter.as_str(), found)?;
        }
    }
    Some(())
}

pub(crate) fn try_patches(tester: &mut Tester<'_>) {
    tester.try_rows("patches lead from one set to another", ROWS, &mut Patches);
}
