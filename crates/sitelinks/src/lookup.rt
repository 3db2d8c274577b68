// Sites by their ids.

ghost use Rattle.std.specs.Prelude.{◌≡◌, ◌++◌, IfOk, string_bytes};
ghost use Rattle.sitelinks.specs.{Names.IsNamed, Site.language_base, Site.language_site, Site.site_of, Site.special_site};

use crate::language::is_language;
use crate::project::{Project, coded};
use crate::replaced::replaced;
use crate::sites::Site;
use crate::special::SpecialSite;
use rdf_term::{CowText, OutOfMemory, Text};
use std::alloc::Global;

// Room for what most IRIs of sites begin with, in bytes.
const BASE_ROOM: usize = 40;

/// The site with this id, as `enwiki`: one of eight special sites, or the site of a project in a language.
pub fn site(alloc: Global, id: &str) -> Result<Option<Site<'_>>, OutOfMemory>
    ensures value { IfOk result (λ site. site ≡ site_of id.now) }
    ensures rules { IfOk result (IsNamed id.now) }
{
    if let Some(special) = SpecialSite::of_id(id) {
        return Ok(Some(special_site(special)));
    }
    match coded(id) {
        Some((code, project)) => language_site(alloc, code, project),
        None => Ok(None),
    }
}

#[tactic(auto, unfolding(crate::specs::Site::english))]
fn special_site(special: SpecialSite) -> Site<'static>
    ensures { result ≡ special_site special }
{
    let (base, group) = special.base_and_group();
    Site {
        base: CowText::borrowed(base),
        language: CowText::borrowed("en"),
        group: CowText::borrowed(group),
    }
}

// The site of a project in the language with this code, if the code is one.
fn language_site(
    alloc: Global,
    code: &str,
    project: Project,
) -> Result<Option<Site<'_>>, OutOfMemory>
    ensures { IfOk result (λ site. site ≡ language_site code.now project) }
{
    let language = replaced(alloc, code, '_', '-')?;
    if !is_language(language.as_bytes()) {
        return Ok(None);
    }
    let base = language_base(alloc, language.as_str(), project)?;
    Ok(Some(Site {
        base: CowText::owned(base),
        language,
        group: CowText::borrowed(project.group()),
    }))
}

fn language_base(alloc: Global, language: &str, project: Project) -> Result<Text, OutOfMemory>
    ensures { IfOk result (λ base. base ≡ language_base language.now project) }
{
    let mut base = String::with_capacity(alloc, BASE_ROOM)?;
    base.push_str("https://")?;
    base.push_str(language)?;
    base.push_str(".")?;
    base.push_str(project.group())?;
    base.push_str(".org/")?;
    Ok(Text::from_string(base))
}
