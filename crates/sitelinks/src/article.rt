// What a link to an article becomes.

ghost use Rattle.std.specs.Prelude.{◌≡◌, [], ◌∷◌, ◌++◌, IfOk, OnOk, map, string_bytes};
ghost use Rattle.std.specs.List.{AllByRecursion};
ghost use Rattle.rdf_term.specs.{Fit.HasFitAndShortTerms, Grammar.tagged_of};
ghost use Rattle.entity_model.specs.Document.{IsSmallLink};
ghost use Rattle.rdf_vocabulary.specs.{Predicate.about, Unreserved.escaped_name};
ghost use Rattle.sitelinks.specs.Replaced.{replaced};
ghost use Rattle.sitelinks.specs.Article.{article_iri, article_triples, badge_triple, group_triple, article_head_triples, site_triples};
ghost use Rattle.triple_sink.specs.{Gains.Gains, Gains.KeepsFront, Subject.IsKnown, TermRef.meant};

use crate::lookup::site;
use crate::replaced::around;
use crate::sites::Site;
use entity_model::{EntityId, Link};
use rdf_term::OutOfMemory;
use rdf_vocabulary::{Predicate, Prefix, Resource, push_escaped_name};
use std::alloc::Global;
use triple_sink::{Setting, Subject, TermRef, TripleSink, emit_about, emit_class};

// Room for most IRIs of articles, in bytes.
const IRI_ROOM: usize = 96;

/// Emits the triples of the article that a link of the entity names, and of its site. A link to a site
/// without a rule has none.
pub fn emit_article<S: TripleSink>(
    setting: Setting,
    entity: EntityId,
    link: &Link,
    out: &mut S,
) -> Result<(), OutOfMemory>
    ensures gains { OnOk result (Gains S.items S.keeps out.old out.new (article_triples entity link.now)) }
    ensures front { KeepsFront S.items out.old out.new }
    ensures fit { IsSmallLink link.now → AllByRecursion HasFitAndShortTerms (article_triples entity link.now) }
{
    match site(setting.alloc, link.site.as_str())? {
        Some(site) => emit_at_site(setting, entity, link, &site, out),
        None => Ok(()),
    }
}

// Emits the triples of the article at its site.
fn emit_at_site<S: TripleSink>(
    setting: Setting,
    entity: EntityId,
    link: &Link,
    site: &Site<'_>,
    out: &mut S,
) -> Result<(), OutOfMemory>
    ensures gains { OnOk result (Gains S.items S.keeps out.old out.new (site_triples entity link.now site.now)) }
    ensures front { KeepsFront S.items out.old out.new }
{
    let iri = article_iri(setting.alloc, site, link.title.as_str())?;
    let article = TermRef::Iri(iri.as_str());
    emit_head(setting, &article, entity, site, out)?;
    emit_name(setting, &article, link.title.as_str(), site, out)?;
    emit_badges(setting, &article, link.badges.as_slice(), out)?;
    emit_group(setting, site, out)
}

// The IRI of the article with this title.
fn article_iri(alloc: Global, site: &Site<'_>, title: &str) -> Result<String, OutOfMemory>
    ensures { IfOk result (λ iri. string_bytes iri ≡ article_iri site.now title.now) }
{
    let mut iri = String::with_capacity(alloc, IRI_ROOM)?;
    iri.push_str(site.base.as_str())?;
    iri.push_str("wiki/")?;
    push_title(title, &mut iri)?;
    Ok(iri)
}

// Appends a title word by word: `_` stands for each space, and what is reserved in a path is percent-encoded.
fn push_title(title: &str, iri: &mut String) -> Result<(), OutOfMemory>
    ensures { OnOk result (string_bytes iri.new ≡ string_bytes iri.old ++ escaped_name (replaced 32 95 title.now)) }
{
    let mut left = title;
    while let Some((word, rest)) = around(left, ' ') {
        push_escaped_name(word, iri)?;
        iri.push('_')?;
        left = rest;
    }
    push_escaped_name(left, iri)
}

// Emits what the article is, and where.
fn emit_head<S: TripleSink>(
    setting: Setting,
    article: &TermRef<'_>,
    entity: EntityId,
    site: &Site<'_>,
    out: &mut S,
) -> Result<(), OutOfMemory>
    ensures gains { OnOk result (Gains S.items S.keeps out.old out.new (article_head_triples (meant article.now) entity site.now)) }
    ensures front { KeepsFront S.items out.old out.new }
{
    emit_class(setting.alloc, article, Resource::Article, out)?;
    let entity = TermRef::Id(Prefix::Wd, entity);
    emit_about(setting.alloc, article, Predicate::About, &entity, out)?;
    let language = TermRef::Plain(site.language.as_str());
    emit_about(
        setting.alloc,
        article,
        Predicate::InLanguage,
        &language,
        out,
    )?;
    let base = TermRef::Iri(site.base.as_str());
    emit_about(setting.alloc, article, Predicate::IsPartOf, &base, out)
}

// Emits the article's name, which is its title.
fn emit_name<S: TripleSink>(
    setting: Setting,
    article: &TermRef<'_>,
    title: &str,
    site: &Site<'_>,
    out: &mut S,
) -> Result<(), OutOfMemory>
    ensures gains { OnOk result (Gains S.items S.keeps out.old out.new (about (meant article.now) Predicate.Name (tagged_of title.now site.now.language) ∷ [])) }
    ensures front { KeepsFront S.items out.old out.new }
{
    let name = TermRef::tagged(title, site.language.as_str());
    emit_about(setting.alloc, article, Predicate::Name, &name, out)
}

// Emits the badges of the article. Its IRI may be long and the badges many, so it is compared with the subject of the last triple once, and not for each.
fn emit_badges<S: TripleSink>(
    setting: Setting,
    article: &TermRef<'_>,
    badges: &[EntityId],
    out: &mut S,
) -> Result<(), OutOfMemory>
    ensures gains { OnOk result (Gains S.items S.keeps out.old out.new (map (badge_triple (meant article.now)) badges.now)) }
    ensures front { KeepsFront S.items out.old out.new }
{
    if badges.is_empty() {
        return Ok(());
    }
    let article = Subject {
        term: *article,
        index: out.known_index(article),
    };
    emit_all_badges(setting, &article, badges, out)
}

// Emits the badges of an article that a triple of the sink may have as its subject.
#[tactic(auto, using(triple_sink::proofs::Known::still_known))]
fn emit_all_badges<S: TripleSink>(
    setting: Setting,
    article: &Subject<'_>,
    badges: &[EntityId],
    out: &mut S,
) -> Result<(), OutOfMemory>
    requires known { IsKnown S.items out.old article.now }
    ensures gains { OnOk result (Gains S.items S.keeps out.old out.new (map (badge_triple (meant article.now.term)) badges.now)) }
    ensures front { KeepsFront S.items out.old out.new }
{
    let predicate = TermRef::Predicate(Predicate::Badge);
    for badge in badges {
        let badge = TermRef::Id(Prefix::Wd, *badge);
        out.emit_known(setting.alloc, article, &predicate, &badge)?;
    }
    Ok(())
}

// Emits the group of the site.
fn emit_group<S: TripleSink>(
    setting: Setting,
    site: &Site<'_>,
    out: &mut S,
) -> Result<(), OutOfMemory>
    ensures gains { OnOk result (Gains S.items S.keeps out.old out.new (group_triple site.now ∷ [])) }
    ensures front { KeepsFront S.items out.old out.new }
{
    let base = TermRef::Iri(site.base.as_str());
    let group = TermRef::Plain(site.group.as_str());
    emit_about(setting.alloc, &base, Predicate::WikiGroup, &group, out)
}
