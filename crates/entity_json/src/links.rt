// Links to articles.

ghost use Rattle.std.specs.Prelude.{◌≡◌, []};
ghost use Rattle.json_spell.specs.View.{json_view, member_view};
ghost use Rattle.entity_json.specs.{Finds.Finds, Finds.Makes, Reading.Links.link_of, Reading.Links.link_step, Reading.Links.links_at};

use crate::each::{EntryReader, each_found_entry};
use crate::items::read_item_ids;
use crate::leaf::copy_text_at;
use crate::map::map_at;
use crate::part::{PartFault, finish, put};
use base::List;
use entity_model::Link;
use json_spell::{Json, Member};
use std::alloc::Global;

// A link.
#[tactic(auto, unfolding(crate::specs::Reading::Links::link_of))]
fn link_of<'a>(alloc: Global, json: &Json<'_, 'a>) -> Result<Link<'a>, PartFault>
    ensures { Finds result (link_of (json_view json.now)) }
{
    let mut link = Link {
        site: copy_text_at(alloc, json, "site")?,
        title: copy_text_at(alloc, json, "title")?,
        badges: List::new(alloc),
    };
    let filled = read_item_ids(alloc, json, "badges", &mut link.badges);
    finish(filled, link)
}

struct LinkReader;

impl<'a> EntryReader<'a, Link<'a>> for LinkReader {
    ghost reads = { λ reader entry out. link_step entry out };

    fn read(
        &self,
        alloc: Global,
        entry: &Member<'_, 'a>,
        out: &mut List<Link<'a>>,
    ) -> Result<(), PartFault> {
        put(link_of(alloc, &entry.value), out)
    }
}

// Reads the links of the map under the name into the list, which is empty.
#[tactic(auto, unfolding(crate::specs::Reading::Links::links_at))]
pub fn read_links<'a>(
    alloc: Global,
    json: &Json<'_, 'a>,
    name: &str,
    links: &mut List<Link<'a>>,
) -> Result<(), PartFault>
    requires { links.old ≡ [] }
    ensures { Makes result links.new (links_at name.now (json_view json.now)) }
{
    each_found_entry(alloc, &LinkReader, map_at(json, name)?, links)
}
