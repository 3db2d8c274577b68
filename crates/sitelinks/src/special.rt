// The sites that are in no language's group.

ghost use Rattle.std.specs.Prelude.{◌≡◌};
ghost use Rattle.sitelinks.specs.Special.{special_base, special_group, special_of};

/// A site whose name isn't made of a language and a project.
#[derive(Clone, Copy, PartialEq, Eq)]
pub(crate) enum SpecialSite {
    Commons,
    Meta,
    Species,
    Outreach,
    MediaWiki,
    Wikidata,
    Sources,
    Simple,
}

impl SpecialSite {
    /// The site with this id.
    pub(crate) fn of_id(id: &str) -> Option<SpecialSite>
        ensures { result ≡ special_of id.now }
    {
        match id {
            "commonswiki" => Some(SpecialSite::Commons),
            "metawiki" => Some(SpecialSite::Meta),
            "specieswiki" => Some(SpecialSite::Species),
            "outreachwiki" => Some(SpecialSite::Outreach),
            "mediawikiwiki" => Some(SpecialSite::MediaWiki),
            "wikidatawiki" => Some(SpecialSite::Wikidata),
            "sourceswiki" => Some(SpecialSite::Sources),
            "simplewiki" => Some(SpecialSite::Simple),
            _ => None,
        }
    }

    /// What the IRIs of the site begin with, and the group of sites that it belongs to.
    #[tactic(auto, unfolding(crate::specs::Special::special_base, crate::specs::Special::special_group))]
    pub(crate) fn base_and_group(self) -> (&'static str, &'static str)
        ensures base { result.0.now ≡ special_base self }
        ensures group { result.1.now ≡ special_group self }
    {
        match self {
            SpecialSite::Commons => ("https://commons.wikimedia.org/", "commons"),
            SpecialSite::Meta => ("https://meta.wikimedia.org/", "meta"),
            SpecialSite::Species => ("https://species.wikimedia.org/", "species"),
            SpecialSite::Outreach => ("https://outreach.wikimedia.org/", "outreach"),
            SpecialSite::MediaWiki => ("https://www.mediawiki.org/", "mediawiki"),
            SpecialSite::Wikidata => ("https://www.wikidata.org/", "wikidata"),
            SpecialSite::Sources => ("https://wikisource.org/", "sources"),
            SpecialSite::Simple => ("https://simple.wikipedia.org/", "wikipedia"),
        }
    }
}
