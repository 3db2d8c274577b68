// Reads a whole text.

ghost use Rattle.json_spell.specs.{Answers.Answers, Answers.Faults, Tells.Excuses, Tells.Tells};

use crate::value::read_spaced;
use bumpalo::Bump;
use json_spell::{Json, JsonFault, is_deep};

/// How many levels arrays and objects may nest.
pub const LEVELS: usize = 64;

// The value of a whole text that nests no deeper than allowed.
fn read_whole<'b, 'a: 'b>(arena: &'b Bump, bytes: &'a [u8]) -> Result<Json<'b, 'a>, JsonFault>
    ensures { Tells bytes.now result }
{
    let (json, rest) = read_spaced(arena, LEVELS, bytes)?;
    if !rest.is_empty() {
        return Err(JsonFault::NotJson);
    }
    Ok(json)
}

// The fault of a text that wasn't read: Deep comes first. A text that isn't deep nests no deeper than allowed.
fn fault_of(bytes: &[u8], fault: JsonFault) -> JsonFault
    requires { Excuses bytes.now fault }
    ensures { Faults bytes.now result }
{
    if is_deep(bytes) {
        return JsonFault::Deep;
    }
    match fault {
        JsonFault::NotJson => JsonFault::NotJson,
        JsonFault::Deep | JsonFault::OutOfMemory => JsonFault::OutOfMemory,
    }
}

/// The value of a JSON text: RFC 8259, in UTF-8 without a byte order mark. What of it isn't a part of the text is put into the
/// arena.
///
/// A string may not escape a surrogate alone. Where, outside of strings, the `[` and `{` up to some byte exceed the
/// `]` and `}` by more than 64, the answer is `Deep`, whatever else the bytes are; a string there starts and ends at
/// `"`, and in it a `\` passes over the next byte.
pub fn read<'b, 'a: 'b>(arena: &'b Bump, bytes: &'a [u8]) -> Result<Json<'b, 'a>, JsonFault>
    ensures { Answers bytes.now result }
{
    match read_whole(arena, bytes) {
        Ok(json) => Ok(json),
        Err(fault) => Err(fault_of(bytes, fault)),
    }
}
