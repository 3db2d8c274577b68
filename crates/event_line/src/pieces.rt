// Parts of lines in the form that most programs write, read where they stand.
//
// Spaces may stand before a token, but not before a comma or a colon. What isn't in this form gives none.

ghost use Rattle.std.specs.Prelude.{◌≡◌, ◌≢◌, ◌≤◌, ◌<◌, ◌^◌, ◌∷◌, ◌++◌, ℕ, List, IfSome, MatchOption, decimal, length, not, position, take, true};
ghost use Rattle.std.specs.{List.list_all, Str.IsUtf8};
ghost use Rattle.event_line.specs.Pieces.{Begins, Closes, HasKey, HasNumber, HasNumberMember, HasText, HasTextMember, is_plain, past_spaces};

use digits::starts_above_zero;

// A text that was read, and what follows it.
#[derive(Clone, Copy, Drop)]
pub(crate) struct TextPiece<'a> {
    pub(crate) text: &'a str,
    pub(crate) rest: &'a [u8],
}

// A number that was read, and what follows it.
#[derive(Clone, Copy, Drop)]
pub(crate) struct NumberPiece<'a> {
    pub(crate) number: u64,
    pub(crate) rest: &'a [u8],
}

// The text that is a member's value. The mark, a brace or a comma, stands before the key, which has its quotes and its colon.
pub(crate) fn text_member<'a>(mark: u8, key: &[u8], bytes: &'a [u8]) -> Option<TextPiece<'a>>
    ensures { IfSome result (λ piece. HasTextMember mark key.now piece.text.now bytes.now piece.rest.now) }
{
    let value = behind_key(mark, key, bytes)?;
    text(value)
}

// The number from 1 that is a member's value.
pub(crate) fn number_member<'a>(mark: u8, key: &[u8], bytes: &'a [u8]) -> Option<NumberPiece<'a>>
    ensures { IfSome result (λ piece. HasNumberMember mark key.now piece.number bytes.now piece.rest.now) }
{
    let value = behind_key(mark, key, bytes)?;
    number(value)
}

// What stands behind a mark and a key.
pub(crate) fn behind_key<'a>(mark: u8, key: &[u8], bytes: &'a [u8]) -> Option<&'a [u8]>
    ensures { IfSome result (λ rest. HasKey mark key.now bytes.now rest.now) }
{
    behind(key, behind_mark(mark, bytes)?)
}

// What stands behind a mark.
pub(crate) fn behind_mark(mark: u8, bytes: &[u8]) -> Option<&[u8]>
    ensures { IfSome result (λ rest. bytes.now ≡ mark ∷ rest.now) }
{
    match bytes {
        [first, rest @ ..] if *first == mark => Some(rest),
        _ => None,
    }
}

// The text in quotes that stands there.
pub(crate) fn text(bytes: &[u8]) -> Option<TextPiece<'_>>
    ensures { IfSome result (λ piece. HasText piece.text.now bytes.now piece.rest.now) }
{
    let inner = behind(b"\"", bytes)?;
    let end = plain_end(inner)?;
    let (content, after) = inner.split_at(end);
    let rest = behind_mark(b'"', after)?;
    let text = utf8(content)?;
    Some(TextPiece { text, rest })
}

// The number from 1 that stands there.
fn number(bytes: &[u8]) -> Option<NumberPiece<'_>>
    ensures { IfSome result (λ piece. HasNumber piece.number bytes.now piece.rest.now) }
{
    let bytes = past_spaces(bytes);
    let (digits, rest) = bytes.split_at(digits_end(bytes));
    Some(NumberPiece {
        number: number_of(utf8(digits)?)?,
        rest,
    })
}

// Whether nothing but the end of the object stands there.
pub(crate) fn closes(bytes: &[u8]) -> bool
    ensures { result ≡ true → Closes bytes.now }
{
    match behind(b"}", bytes) {
        Some(rest) => rest.is_empty(),
        None => false,
    }
}

// What stands behind this front and the spaces before it.
pub(crate) fn behind<'a>(front: &[u8], bytes: &'a [u8]) -> Option<&'a [u8]>
    ensures { IfSome result (λ rest. Begins front.now bytes.now rest.now) }
{
    strip(front, past_spaces(bytes))
}

// What stands behind this front.
fn strip<'a>(front: &[u8], bytes: &'a [u8]) -> Option<&'a [u8]>
    ensures { MatchOption result ((rest : List ℕ) → bytes.now ≢ front.now ++ rest) (λ rest. bytes.now ≡ front.now ++ rest.now) }
{
    bytes.strip_prefix(front)
}

// What stands behind the spaces.
fn past_spaces(bytes: &[u8]) -> &[u8]
    ensures { result.now ≡ past_spaces bytes.now }
{
    let mut rest = bytes;
    while let [b' ', more @ ..] = rest {
        rest = more;
    }
    rest
}

// Where the bytes that stand for themselves in a JSON string end: at a byte that doesn't.
fn plain_end(bytes: &[u8]) -> Option<usize>
    ensures { IfSome result (λ end. (end ≤ length bytes.now) × (list_all is_plain (take end bytes.now) ≡ true)) }
{
    first_unplain(bytes)
}

// The place of the first byte that doesn't stand for itself.
fn first_unplain(bytes: &[u8]) -> Option<usize>
    ensures { result ≡ position (λ byte. not (is_plain byte)) bytes.now }
{
    bytes
        .iter()
        .position(|byte| !matches!(*byte, 32..=33 | 35..=91 | 93..=127))
}

// Where the digits end.
fn digits_end(bytes: &[u8]) -> usize
    ensures { result ≤ length bytes.now }
{
    for (index, byte) in bytes.iter().enumerate() {
        if !byte.is_ascii_digit() {
            return index;
        }
    }
    bytes.len()
}

// The bytes as text.
fn utf8(bytes: &[u8]) -> Option<&str>
    ensures { IfSome result (λ text. (text.now ≡ bytes.now) × IsUtf8 bytes.now) }
{
    match str::from_utf8(bytes) {
        Ok(text) => Some(text),
        Err(_) => None,
    }
}

// The number from 1 that a text writes in decimal.
fn number_of(text: &str) -> Option<u64>
    ensures small { IfSome result (λ number. (0 < number) × (number < 2 ^ 64)) }
    ensures text { IfSome result (λ number. decimal number ≡ text.now) }
{
    if !starts_above_zero(text) {
        return None;
    }
    match text.parse::<u64>() {
        Ok(number) if number > 0 => Some(number),
        _ => None,
    }
}
