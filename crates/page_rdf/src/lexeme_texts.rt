// The texts of a lexeme, a form or a sense.

ghost use Rattle.std.specs.Prelude.{OnOk};
ghost use Rattle.std.specs.List.{flat_map};
ghost use Rattle.triple_sink.specs.{Gains.Gains, Gains.KeepsFront, TermRef.meant};
ghost use Rattle.page_rdf.specs.LexemeTexts.{text_triples};

use crate::texts::text_ref;
use entity_model::Tagged;
use rdf_term::OutOfMemory;
use rdf_vocabulary::Predicate;
use triple_sink::{Setting, TermRef, TripleSink, emit_about};

/// Emits the texts of the node, each by the predicate and as a label. After `OutOfMemory` the sink holds what it held, and perhaps more
/// behind that.
pub fn emit_texts<S: TripleSink>(
    setting: Setting,
    node: &TermRef<'_>,
    predicate: Predicate,
    texts: &[Tagged],
    out: &mut S,
) -> Result<(), OutOfMemory>
    ensures gains { OnOk result (Gains S.items S.keeps out.old out.new (flat_map (text_triples predicate (meant node.now)) texts.now)) }
    ensures front { KeepsFront S.items out.old out.new }
{
    for text in texts {
        let text = text_ref(text);
        emit_about(setting.alloc, node, predicate, &text, out)?;
        emit_about(setting.alloc, node, Predicate::Label, &text, out)?;
    }
    Ok(())
}
