// Values that a text may have as another text has them.

ghost use Rattle.std.specs.Prelude.{◌≡◌, ◌≤◌, length, true, Some, IfSome};
ghost use Rattle.json_spell.specs.{Tree.Tree, Closed.ends_itself, Grammar.IsValue, Reading.spaced, Reading.value_at};

use json_reader::skip_ws;

// What follows a value with white space around it that is spelled as `known`: an array, an object or a string, whole. What such
// a text is a value of is what the text has there.
pub(crate) fn after_known<'a>(bytes: &'a [u8], known: &[u8]) -> Option<&'a [u8]>
    ensures read { IfSome result (λ rest. (t : Tree) → ends_itself t ≡ true → IsValue t known.now → spaced value_at bytes.now ≡ Some (t, rest.now)) }
    ensures no_longer { IfSome result (λ rest. length rest.now ≤ length bytes.now) }
{
    let rest = skip_ws(bytes).strip_prefix(known)?;
    Some(skip_ws(rest))
}
