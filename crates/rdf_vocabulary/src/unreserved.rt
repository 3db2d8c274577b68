// Names in the paths of IRIs.

ghost use Rattle.std.specs.Prelude.{◌≡◌, ◌++◌, OnOk, OnErr, string_bytes};
ghost use Rattle.rdf_vocabulary.specs.Unreserved.{escaped_name};

use percent_encoding::{AsciiSet, NON_ALPHANUMERIC, ascii_set, utf8_percent_encode};
use rdf_term::OutOfMemory;

/// The bytes to escape: all but the unreserved characters of RFC 3986 (section 2.3).
const RESERVED: AsciiSet = ascii_set!(
    NON_ALPHANUMERIC
        .remove(b'-')
        .remove(b'.')
        .remove(b'_')
        .remove(b'~')
);

/// Appends a name, in which every byte but ASCII letters, digits and `-._~` is percent-encoded with upper-case digits. After `OutOfMemory`
/// the text is as it was.
pub fn push_escaped_name(name: &str, iri: &mut String) -> Result<(), OutOfMemory>
    ensures ok { OnOk result (string_bytes iri.new ≡ string_bytes iri.old ++ escaped_name name.now) }
    ensures err { OnErr result (string_bytes iri.new ≡ string_bytes iri.old) }
{
    utf8_percent_encode(name, RESERVED).append_to(iri)?;
    Ok(())
}
