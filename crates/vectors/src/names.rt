// The test suite of RFC 1321, what md5sum says of the texts that name a number's node in both versions of the mapping, and fields
// that are told apart.

use crate::tester::{Subject, Tester, write_text};
use rdf_term::CowText;
use rdf_vocabulary::{hashed_name, push_field, push_optional_field};
use std::alloc::Global;

// Each message of RFC 1321, appendix A.5, and its digest, and then the two texts.
const DIGESTS: &str = " => d41d8cd98f00b204e9800998ecf8427e
a => 0cc175b9c0f1b6a831c399e269772661
abc => 900150983cd24fb0d6963f7d28e17f72
message digest => f96b697d7cb7938d525a2f31aaf161d0
abcdefghijklmnopqrstuvwxyz => c3fcd3d76192e4007dfb496cca67e13b
ABCDEFGHIJKLMNOPQRSTUVWXYZabcdefghijklmnopqrstuvwxyz0123456789 => d174ab98d277d9f5a5611c2c9f419d9f
12345678901234567890123456789012345678901234567890123456789012345678901234567890 => 57edf4a22be3c955ac49da2e2107b67a
q2:+51:1-- => 264596658257651e25b9a6e5508e8bad
2q2:+535:http://www.wikidata.org/entity/Q199-- => b8574ffcd558908b664fb371373ee6bc";

// A text, and what is written of it, of none and of an empty text as fields.
const FIELDS: &str = "äb => 3:äb-0:";

#[derive(Drop)]
struct Digests;

impl Subject for Digests {
    fn answer(&mut self, alloc: Global, given: &str, found: &mut Vec<u8>) -> Option<()> {
        let name = hashed_name(alloc, given).ok()?;
        write_text(name.as_str(), found)
    }
}

#[derive(Drop)]
struct Fields;

impl Subject for Fields {
    fn answer(&mut self, alloc: Global, given: &str, found: &mut Vec<u8>) -> Option<()> {
        let mut fields = String::new(alloc);
        let pushed = push_fields(given, &mut fields);
        let written = write_text(fields.as_str(), found);
        drop(fields);
        pushed.and(written)
    }
}

// Appends a text, none and an empty text as fields.
fn push_fields(text: &str, fields: &mut String) -> Option<()> {
    push_field(text, fields).ok()?;
    push_optional_field(None, fields).ok()?;
    push_optional_field(Some(&CowText::borrowed("")), fields).ok()
}

pub(crate) fn try_names(tester: &mut Tester<'_>) {
    tester.try_rows("messages are hashed", DIGESTS, &mut Digests);
    tester.try_rows("fields are told apart", FIELDS, &mut Fields);
}
