// Tests of ASCII bytes.

ghost use Rattle.std.specs.Prelude.{◌≡◌};
ghost use Rattle.std.specs.{Char.is_ascii_alphanumeric, List.list_all};

/// Whether each byte is an ASCII letter or digit.
pub fn are_alphanumeric(bytes: &[u8]) -> bool
    ensures { result ≡ list_all is_ascii_alphanumeric bytes.now }
{
    bytes.iter().all(|byte| byte.is_ascii_alphanumeric())
}
