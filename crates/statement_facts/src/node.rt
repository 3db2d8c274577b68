// The names of the nodes of statements.

ghost use Rattle.std.specs.Prelude.{◌≡◌, ◌++◌, ◌∷◌, IfOk, IfSome, OnOk, string_bytes};
ghost use Rattle.std.specs.List.{list_all};
ghost use Rattle.statement_facts.specs.Node.{is_node_char, name_byte, statement_name};

use rdf_term::{OutOfMemory, Text};
use std::alloc::Global;

/// The name of the node of the statement with this id.
pub fn statement_name(alloc: Global, id: &str) -> Result<Text, OutOfMemory>
    ensures { IfOk result (λ name. name ≡ statement_name id.now) }
{
    let mut name = String::with_capacity(alloc, id.len())?;
    push_parts(id, &mut name)?;
    Ok(Text::from_string(name))
}

// Appends the name of the node of the statement with this id: its entity's part and the rest stand round a `$`.
#[tactic(auto, using(crate::proofs::KeptParts::name_around))]
fn push_parts(id: &str, name: &mut String) -> Result<(), OutOfMemory>
    ensures { OnOk result (string_bytes name.new ≡ string_bytes name.old ++ statement_name id.now) }
{
    match around_dollar(id) {
        Some((entity, rest)) => {
            push_part(entity, name)?;
            name.push_str("-")?;
            push_part(rest, name)
        }
        None => push_part(id, name),
    }
}

// What stands before a `$` and behind it.
fn around_dollar(id: &str) -> Option<(&str, &str)>
    ensures { IfSome result (λ parts. id.now ≡ parts.0.now ++ 36 ∷ parts.1.now) }
{
    id.split_once("$")
}

// Appends what a part of a statement's id becomes in the name: at once where it stands as it is.
#[tactic(auto, using(crate::proofs::KeptParts::kept_same))]
fn push_part(id: &str, name: &mut String) -> Result<(), OutOfMemory>
    ensures { OnOk result (string_bytes name.new ≡ string_bytes name.old ++ statement_name id.now) }
{
    if are_kept(id.as_bytes()) {
        name.push_str(id)?;
        return Ok(());
    }
    push_statement_name(id.as_bytes(), name)
}

// Whether each byte stands for itself in the name.
fn are_kept(id: &[u8]) -> bool
    ensures { result ≡ list_all is_node_char id.now }
{
    id.iter().all(|byte| byte.is_ascii_alphanumeric() || matches!(*byte, b'_' | b'-'))
}

// Appends what each byte of a statement's id becomes in the name.
fn push_statement_name(id: &[u8], name: &mut String) -> Result<(), OutOfMemory>
    ensures { OnOk result (string_bytes name.new ≡ string_bytes name.old ++ statement_name id.now) }
{
    for byte in id {
        push_name_byte(*byte, name)?;
    }
    Ok(())
}

// Appends what a byte of a statement's id becomes in the name.
fn push_name_byte(byte: u8, name: &mut String) -> Result<(), OutOfMemory>
    ensures { OnOk result (string_bytes name.new ≡ string_bytes name.old ++ name_byte byte) }
{
    match byte {
        b'a'..=b'z' | b'A'..=b'Z' | b'0'..=b'9' | b'_' | b'-' => name.push(byte as char)?,
        128..=191 => {}
        _ => name.push('-')?,
    }
    Ok(())
}
