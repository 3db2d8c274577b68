// The roles in which snaks stand in statements.

ghost use Rattle.std.specs.Prelude.{◌≡◌, ◌++◌, IfOk, string_bytes};
ghost use Rattle.statement_facts.specs.Role.{node_prefix, role_text, value_prefix};

use rdf_term::{CowText, OutOfMemory, Text};
use rdf_vocabulary::Prefix;
use std::alloc::Global;

/// The role in which a snak stands in a statement.
#[derive(Drop)]
pub enum Role<'a> {
    /// It is what is stated.
    Main,
    /// It qualifies the statement.
    Qualifier,
    /// It tells of the source; the reference is named by its hash.
    Reference(CowText<'a>),
}

impl<'a> Role<'a> {
    /// The namespace of the properties that lead to simple values.
    pub fn value_prefix(&self) -> Prefix
        ensures { result ≡ value_prefix self.now }
    {
        match self {
            Role::Main => Prefix::Ps,
            Role::Qualifier => Prefix::Pq,
            Role::Reference(_) => Prefix::Pr,
        }
    }

    /// The namespace of the properties that lead to the nodes of values.
    pub fn node_prefix(&self) -> Prefix
        ensures { result ≡ node_prefix self.now }
    {
        match self {
            Role::Main => Prefix::Psv,
            Role::Qualifier => Prefix::Pqv,
            Role::Reference(_) => Prefix::Prv,
        }
    }

    /// The role's name; that of a reference has its hash.
    #[tactic(auto, unfolding(crate::specs::Role::role_text))]
    pub fn text(&self, alloc: Global) -> Result<Text, OutOfMemory>
        ensures { IfOk result (λ text. text ≡ role_text self.now) }
    {
        match self {
            Role::Main => Text::new(alloc, "main"),
            Role::Qualifier => Text::new(alloc, "qualifier"),
            Role::Reference(hash) => {
                let mut text = String::from_str(alloc, "reference:")?;
                text.push_str(hash.as_str())?;
                Ok(Text::from_string(text))
            }
        }
    }
}
