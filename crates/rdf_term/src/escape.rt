// The escapes of the canonical text.

ghost use Rattle.std.specs.Prelude.{◌≡◌, ◌∷◌, [], MatchOption};
ghost use Rattle.std.specs.List.{list_any};
ghost use Rattle.rdf_term.specs.Text.{escaped_byte, is_escaped};

// The letter that stands behind the backslash for this byte, where the byte is escaped.
pub fn escape_of(byte: u8) -> Option<u8>
    ensures { MatchOption result (escaped_byte byte ≡ byte ∷ []) (λ letter. escaped_byte byte ≡ 92 ∷ letter ∷ []) }
{
    match byte {
        b'"' | b'\\' => Some(byte),
        b'\n' => Some(b'n'),
        b'\r' => Some(b'r'),
        _ => None,
    }
}

// Whether a byte of the text is escaped.
pub fn has_escape(text: &[u8]) -> bool
    ensures { result ≡ list_any is_escaped text.now }
{
    text.iter()
        .any(|byte| matches!(*byte, b'"' | b'\\' | b'\n' | b'\r'))
}
