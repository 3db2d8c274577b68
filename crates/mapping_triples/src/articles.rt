// The triples of links to articles.

ghost use Rattle.std.specs.Prelude.{◌≡◌, ◌++◌, length, take, OnOk};
ghost use Rattle.std.specs.List.{AllByRecursion};
ghost use Rattle.entity_model.specs.Document.{IsSmallLink};
ghost use Rattle.rdf_term.specs.Fit.{HasFitAndShortTerms};
ghost use Rattle.sitelinks.specs.Article.{article_triples};

use entity_model::{EntityId, Link};
use rdf_term::{List, OutOfMemory, Triple};
use sitelinks::emit_article;
use triple_sink::Setting;

/// Appends the triples of the article that a link of the entity names, and of its site. A link to a site that no rule names has none. Those
/// of a small link have fit and short terms.
#[tactic(auto, using(triple_sink::proofs::Gained::all_of, crate::proofs::Fronts::front_of))]
pub fn article_triples(
    setting: Setting,
    entity: EntityId,
    link: &Link,
    out: &mut List<Triple>,
) -> Result<(), OutOfMemory>
    ensures appends { OnOk result (out.new ≡ out.old ++ article_triples entity link.now) }
    ensures front { take (length out.old) out.new ≡ out.old }
    ensures fit { IsSmallLink link.now → AllByRecursion HasFitAndShortTerms (article_triples entity link.now) }
{
    emit_article(setting, entity, link, out)
}
