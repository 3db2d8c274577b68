// The languages of sites.

ghost use Rattle.std.specs.Prelude.{◌≡◌};
ghost use Rattle.std.specs.List.{list_all};
ghost use Rattle.sitelinks.specs.Language.{is_language, is_no_upper_case};

use rdf_term::is_tag;

/// Whether the text is `[a-z]+(-[a-z0-9]+)*`: a language as it stands in the address of a site. It is
/// a language tag without upper-case letters.
pub(crate) fn is_language(text: &[u8]) -> bool
    ensures { result ≡ is_language text.now }
{
    is_tag(text) && has_no_upper_case(text)
}

// Whether no byte is an upper-case letter.
fn has_no_upper_case(text: &[u8]) -> bool
    ensures { result ≡ list_all is_no_upper_case text.now }
{
    text.iter().all(|byte| !byte.is_ascii_uppercase())
}
