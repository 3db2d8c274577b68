// The simple terms of values, and the triples of their nodes.

ghost use Rattle.std.specs.Prelude.{◌≡◌, ◌≤◌, ◌++◌, length, option_map, slice_get, take, IfOk, IfSome, OnOk};
ghost use Rattle.std.specs.List.{AllByRecursion};
ghost use Rattle.entity_model.specs.Value.{IsSmallValue};
ghost use Rattle.rdf_term.specs.Fit.{HasFitAndShortTerms, IsFitAndShort};
ghost use Rattle.value_nodes.specs.{Nodes.node_triples, Terms.simple_term};

use entity_model::Value;
use rdf_term::{List, OutOfMemory, Term, Triple};
use rdf_vocabulary::{Predicate, Prefix};
use std::alloc::Global;
use triple_sink::{Setting, Subject, TermRef};
use value_nodes::{emit_parts, emit_simple, node_name};

/// The simple term of a value of a property with this datatype. Values of other types have none. That of a small value is fit and short.
#[tactic(auto, using(value_nodes::proofs::Fit::simple_term_fit))]
pub fn simple(alloc: Global, datatype: &str, value: &Value) -> Result<Option<Term>, OutOfMemory>
    ensures term { IfOk result (λ term. term ≡ simple_term datatype.now value.now) }
    ensures fit { IsSmallValue value.now → IfSome (simple_term datatype.now value.now) IsFitAndShort }
{
    let mut said = List::new(alloc);
    let anything = TermRef::Predicate(Predicate::RdfType);
    emit_simple(
        alloc,
        &Subject::new(anything),
        &anything,
        datatype,
        value,
        &mut said,
    )?;
    Ok(object_of(said))
}

// The object of the list's one triple, if it has one.
fn object_of(said: List<Triple>) -> Option<Term>
    requires { length said ≤ 1 }
    ensures { result ≡ option_map (λ t. t.object) (slice_get said 0) }
{
    let Triple {
        subject,
        predicate,
        object,
    } = said.into_vec().pop()?;
    drop(subject);
    drop(predicate);
    Some(object)
}

/// Appends the triples of the value's node: its class and its parts. A value that has no node has none. Those of a small value have fit and
/// short terms.
#[tactic(auto, using(triple_sink::proofs::Gained::all_of, crate::proofs::Fronts::front_of, value_nodes::proofs::NodesFit::node_triples_fit))]
pub fn node_triples(
    setting: Setting,
    value: &Value,
    out: &mut List<Triple>,
) -> Result<(), OutOfMemory>
    ensures appends { OnOk result (out.new ≡ out.old ++ node_triples setting.version value.now) }
    ensures front { take (length out.old) out.new ≡ out.old }
    ensures fit { IsSmallValue value.now → AllByRecursion HasFitAndShortTerms (node_triples setting.version value.now) }
{
    let Some(name) = node_name(setting, value)? else {
        return Ok(());
    };
    emit_parts(
        setting.alloc,
        &TermRef::Named(Prefix::Wdv, name.as_str()),
        value,
        out,
    )
}
