// How deep the brackets of a text open.

ghost use Rattle.std.specs.Prelude.{◌≡◌};
ghost use Rattle.json_spell.specs.Deep.{deep_from, position_after, is_opening, is_closing};

/// Where a byte of a text stands.
#[derive(Clone, Copy)]
pub enum Position {
    /// Outside of strings.
    Outside,
    /// In a string, its closing quotation mark included.
    Inside,
    /// In a string, behind the backslash of an escape.
    Escaped,
}

impl Position {
    // Where the next byte stands.
    fn after(self, byte: u8) -> Position
        ensures { result ≡ position_after self byte }
    {
        match (self, byte) {
            (Position::Outside, b'"') | (Position::Escaped, _) => Position::Inside,
            (Position::Inside, b'"') => Position::Outside,
            (Position::Inside, b'\\') => Position::Escaped,
            _ => self,
        }
    }
}

/// Whether a byte is `[` or `{`.
pub fn is_opening(byte: u8) -> bool
    ensures { result ≡ is_opening byte }
{
    byte == b'[' || byte == b'{'
}

fn is_closing(byte: u8) -> bool
    ensures { result ≡ is_closing byte }
{
    byte == b']' || byte == b'}'
}

/// Whether more than 64 brackets are open at some byte, beyond those that have closed.
#[tactic(auto, unfolding(crate::specs::Deep::deep_from))]
pub fn is_deep(bytes: &[u8]) -> bool
    ensures { result ≡ deep_from Position.Outside 0 0 bytes.now }
{
    let mut position = Position::Outside;
    let mut opened = 0usize;
    let mut closed = 0usize;
    for byte in bytes {
        if let Position::Outside = position {
            opened += usize::from(is_opening(*byte));
            closed += usize::from(is_closing(*byte));
            if opened > closed && opened - closed > 64 {
                return true;
            }
        }
        position = position.after(*byte);
    }
    false
}
