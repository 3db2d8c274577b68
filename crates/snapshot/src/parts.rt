// The parts of a text that ends with a page as it stands.

ghost use Rattle.std.specs.Prelude.{◌≡◌, option_map};
ghost use Rattle.snapshot.specs.LineText.{around_tab, page_parts, without_prefix, without_suffix};

/// The text of an object without the closing brace, and the page that stands behind it.
#[derive(Clone, Copy)]
pub(crate) struct PageParts<'a> {
    pub(crate) members: &'a str,
    pub(crate) page: &'a str,
}

/// The parts of a text, where it ends with a page as it stands.
pub(crate) fn page_parts(text: &str) -> Option<PageParts<'_>>
    ensures { option_map (λ parts. (parts.members.now, parts.page.now)) result ≡ page_parts text.now }
{
    let (front, back) = around_tab(text)?;
    let members = without_suffix(front, ",")?;
    let page = without_suffix(without_prefix(back, "\"page\":")?, "}")?;
    Some(PageParts { members, page })
}

// The text in front of the first TAB, and the text behind it.
fn around_tab(text: &str) -> Option<(&str, &str)>
    ensures { option_map (λ p. (p.0.now, p.1.now)) result ≡ around_tab text.now }
{
    text.split_once('\t')
}

// The text behind a prefix, where it has that prefix.
fn without_prefix<'a>(text: &'a str, prefix: &str) -> Option<&'a str>
    ensures { option_map (λ rest. rest.now) result ≡ without_prefix prefix.now text.now }
{
    text.strip_prefix(prefix)
}

// The text in front of a suffix, where it has that suffix.
fn without_suffix<'a>(text: &'a str, suffix: &str) -> Option<&'a str>
    ensures { option_map (λ front. front.now) result ≡ without_suffix suffix.now text.now }
{
    text.strip_suffix(suffix)
}
