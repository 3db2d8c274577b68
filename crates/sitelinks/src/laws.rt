// What holds of the definitions themselves. Each law is the contract of a function that does nothing.

ghost use Rattle.std.specs.Prelude.{ℕ, List};
ghost use Rattle.sitelinks.specs.{Names.IsNamed, Site.site_of};

/// The site of an id is the one that the rules name, and where they name none there is none.
pub fn ids_name_their_sites()
    ensures { (id : List ℕ) → IsNamed id (site_of id) }
{}
