// Decimal numbers.

ghost use Rattle.std.specs.Prelude.{◌≡◌, ◌↔◌, ◌==◌, position, IsTrue};
ghost use Rattle.wb_values.specs.Decimal.{is_decimal, is_numeral, is_unsigned_decimal, IsDecimal};

use digits::are_digits;

/// Whether a text is `[+-]?[0-9]+(\.[0-9]+)?`: a quantity's amount that `xsd:decimal` takes.
pub fn is_decimal(text: &str) -> bool
    ensures value { result ≡ is_decimal text.now }
    ensures grammar { IsTrue result ↔ IsDecimal text.now }
{
    match text.as_bytes() {
        [b'+' | b'-', unsigned @ ..] => is_unsigned_decimal(unsigned),
        unsigned => is_unsigned_decimal(unsigned),
    }
}

fn is_unsigned_decimal(text: &[u8]) -> bool
    ensures { result ≡ is_unsigned_decimal text.now }
{
    match point_place(text) {
        Some(point) => is_numeral(&text[..point]) && is_numeral(&text[point + 1..]),
        None => is_numeral(text),
    }
}

fn point_place(text: &[u8]) -> Option<usize>
    ensures { result ≡ position (λ b. b == 46) text.now }
{
    text.iter().position(|b| *b == b'.')
}

fn is_numeral(text: &[u8]) -> bool
    ensures { result ≡ is_numeral text.now }
{
    !text.is_empty() && are_digits(text)
}
