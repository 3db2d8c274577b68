// The projects that have a site for each of many languages.

ghost use Rattle.std.specs.Prelude.{◌≡◌, option_map};
ghost use Rattle.sitelinks.specs.Project.{coded, first_coded, project_group, project_suffix, without_suffix};

/// A project of the Wikimedia Foundation with a site for each of many languages.
#[derive(Clone, Copy, PartialEq, Eq)]
pub(crate) enum Project {
    Wikibooks,
    Wikinews,
    Wikiquote,
    Wikisource,
    Wikiversity,
    Wikivoyage,
    Wiktionary,
    Wikipedia,
}

/// All projects.
const PROJECTS: [Project; 8] = [
    Project::Wikibooks,
    Project::Wikinews,
    Project::Wikiquote,
    Project::Wikisource,
    Project::Wikiversity,
    Project::Wikivoyage,
    Project::Wiktionary,
    Project::Wikipedia,
];

impl Project {
    /// The group of its sites, as in their addresses.
    #[tactic(auto, unfolding(crate::specs::Project::project_group))]
    pub(crate) fn group(self) -> &'static str
        ensures { result.now ≡ project_group self }
    {
        match self {
            Project::Wikibooks => "wikibooks",
            Project::Wikinews => "wikinews",
            Project::Wikiquote => "wikiquote",
            Project::Wikisource => "wikisource",
            Project::Wikiversity => "wikiversity",
            Project::Wikivoyage => "wikivoyage",
            Project::Wiktionary => "wiktionary",
            Project::Wikipedia => "wikipedia",
        }
    }

    // What the ids of its sites end with.
    #[tactic(auto, unfolding(crate::specs::Project::project_group, crate::specs::Project::project_suffix))]
    fn suffix(self) -> &'static str
        ensures { result.now ≡ project_suffix self }
    {
        match self {
            Project::Wikipedia => "wiki",
            _ => self.group(),
        }
    }
}

/// A site's id without its project's suffix, and the project.
pub(crate) fn coded(id: &str) -> Option<(&str, Project)>
    ensures { option_map (λ p. (p.0.now, p.1)) result ≡ coded id.now }
{
    first_coded(id, &PROJECTS)
}

// The same, by the first of the projects that the id has the suffix of.
fn first_coded<'a>(id: &'a str, projects: &[Project]) -> Option<(&'a str, Project)>
    ensures { option_map (λ p. (p.0.now, p.1)) result ≡ first_coded projects.now id.now }
{
    for project in projects {
        if let Some(code) = without_suffix(id, project.suffix()) {
            return Some((code, *project));
        }
    }
    None
}

fn without_suffix<'a>(id: &'a str, suffix: &str) -> Option<&'a str>
    ensures { option_map (λ code. code.now) result ≡ without_suffix suffix.now id.now }
{
    id.strip_suffix(suffix)
}
