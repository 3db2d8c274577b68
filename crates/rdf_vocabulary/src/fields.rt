// Names that are hashes of some fields.

ghost use Rattle.std.specs.Prelude.{◌≡◌, ◌++◌, IfOk, OnOk, OnErr, string_bytes};
ghost use Rattle.std.specs.Option.{option_copied};
ghost use Rattle.rdf_vocabulary.specs.Fields.{field, optional_field, hashed_name};

use itoa::Buffer;
use md5::{Digest, Md5};
use rdf_term::{CowText, OutOfMemory, Text};
use std::alloc::Global;

/// Appends a field: its length in bytes in decimal, `:` and its bytes. After `OutOfMemory` the
/// fields are as they were.
pub fn push_field(text: &str, fields: &mut String) -> Result<(), OutOfMemory>
    ensures ok { OnOk result (string_bytes fields.new ≡ string_bytes fields.old ++ field text.now) }
    ensures err { OnErr result (string_bytes fields.new ≡ string_bytes fields.old) }
{
    let mut buffer = Buffer::new();
    let size = buffer.format(text.len());
    fields.reserve(size.len() + 1 + text.len())?;
    fields.push_str(size)?;
    fields.push_str(":")?;
    fields.push_str(text)?;
    Ok(())
}

/// Appends a field that may be missing: `-` stands for a missing one. After `OutOfMemory` the
/// fields are as they were.
pub fn push_optional_field(
    text: Option<&CowText<'_>>,
    fields: &mut String,
) -> Result<(), OutOfMemory>
    ensures ok { OnOk result (string_bytes fields.new ≡ string_bytes fields.old ++ optional_field (option_copied text.entry)) }
    ensures err { OnErr result (string_bytes fields.new ≡ string_bytes fields.old) }
{
    match text {
        Some(text) => push_field(text.as_str(), fields),
        None => {
            fields.push_str("-")?;
            Ok(())
        }
    }
}

/// The MD5 (RFC 1321) of the fields in lower-case hexadecimal digits.
pub fn hashed_name(alloc: Global, fields: &str) -> Result<Text, OutOfMemory>
    ensures { IfOk result (λ name. name ≡ hashed_name fields.now) }
{
    let digest = Md5::digest(fields.as_bytes());
    Ok(Text::from_string(hex::encode(alloc, digest)?))
}
