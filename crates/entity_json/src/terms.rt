// Texts in languages: labels, descriptions and aliases.

ghost use Rattle.std.specs.Prelude.{◌≡◌, []};
ghost use Rattle.json_spell.specs.View.{json_view, member_view};
ghost use Rattle.entity_json.specs.Finds.{Finds, Makes};
ghost use Rattle.entity_json.specs.Reading.Terms.{tagged_under, label_step, alias_step, aliases_step, labels_at, aliases_at};

use crate::each::{EntryReader, ItemReader, each_found_entry, each_item};
use crate::leaf::{copy_text_at, list_of};
use crate::map::map_at;
use crate::part::{PartFault, put};
use base::List;
use entity_model::Tagged;
use json_spell::{Json, Member};
use std::alloc::Global;

// A text and its language, with the text under the name.
#[tactic(auto, unfolding(crate::specs::Reading::Terms::tagged_under))]
pub fn tagged_under<'a>(
    alloc: Global,
    json: &Json<'_, 'a>,
    name: &str,
) -> Result<Tagged<'a>, PartFault>
    ensures { Finds result (tagged_under name.now (json_view json.now)) }
{
    let language = copy_text_at(alloc, json, "language")?;
    match copy_text_at(alloc, json, name) {
        Ok(text) => Ok(Tagged { text, language }),
        Err(fault) => {
            drop(language);
            Err(fault)
        }
    }
}

struct LabelReader;

impl<'a> EntryReader<'a, Tagged<'a>> for LabelReader {
    ghost reads = { λ reader entry out. label_step entry out };

    fn read(
        &self,
        alloc: Global,
        entry: &Member<'_, 'a>,
        out: &mut List<Tagged<'a>>,
    ) -> Result<(), PartFault> {
        put(tagged_under(alloc, &entry.value, "value"), out)
    }
}

struct AliasReader;

impl<'a> ItemReader<'a, Tagged<'a>> for AliasReader {
    ghost reads = { λ reader item out. alias_step item out };

    fn read(
        &self,
        alloc: Global,
        _index: usize,
        json: &Json<'_, 'a>,
        out: &mut List<Tagged<'a>>,
    ) -> Result<(), PartFault> {
        put(tagged_under(alloc, json, "value"), out)
    }
}

struct AliasesReader;

impl<'a> EntryReader<'a, Tagged<'a>> for AliasesReader {
    ghost reads = { λ reader entry out. aliases_step entry out };

    #[tactic(auto, unfolding(crate::specs::Reading::Terms::aliases_step))]
    fn read(
        &self,
        alloc: Global,
        entry: &Member<'_, 'a>,
        out: &mut List<Tagged<'a>>,
    ) -> Result<(), PartFault> {
        each_item(alloc, &AliasReader, list_of(&entry.value)?, out)
    }
}

// Reads the labels or descriptions under the name into the list, which is empty.
#[tactic(auto, unfolding(crate::specs::Reading::Terms::labels_at))]
pub fn read_labels<'a>(
    alloc: Global,
    json: &Json<'_, 'a>,
    name: &str,
    labels: &mut List<Tagged<'a>>,
) -> Result<(), PartFault>
    requires { labels.old ≡ [] }
    ensures { Makes result labels.new (labels_at name.now (json_view json.now)) }
{
    each_found_entry(alloc, &LabelReader, map_at(json, name)?, labels)
}

// Reads the aliases under the name into the list, which is empty.
#[tactic(auto, unfolding(crate::specs::Reading::Terms::aliases_at))]
pub fn read_aliases<'a>(
    alloc: Global,
    json: &Json<'_, 'a>,
    name: &str,
    aliases: &mut List<Tagged<'a>>,
) -> Result<(), PartFault>
    requires { aliases.old ≡ [] }
    ensures { Makes result aliases.new (aliases_at name.now (json_view json.now)) }
{
    each_found_entry(alloc, &AliasesReader, map_at(json, name)?, aliases)
}
