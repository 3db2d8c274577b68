// The hash of a text.

ghost use Rattle.std.specs.Prelude.{◌≡◌};
ghost use Rattle.rdf_term.specs.Text.{term_text};
ghost use Rattle.term_pool.specs.Index.{hash_of};

use crate::walk::{TextSink, put_term};
use rdf_term::Term;
use std::hash::{BuildHasher, DefaultHasher, Hasher, RandomState};

// The hash of a text under keys of this process, so whoever chooses the texts can't make them collide.
#[tactic(auto, unfolding(crate::specs::Index::hash_of))]
pub(crate) fn text_hash(keys: &RandomState, text: &[u8]) -> u64
    ensures { result ≡ hash_of keys.now text.now }
{
    let mut hasher = keys.build_hasher();
    hasher.write(text);
    hasher.finish()
}

// The hash of a term's canonical text. It takes no memory.
#[tactic(auto, unfolding(crate::specs::Index::hash_of))]
pub(crate) fn term_hash(keys: &RandomState, term: &Term) -> u64
    ensures { result ≡ hash_of keys.now (term_text term.now) }
{
    let mut hasher = keys.build_hasher();
    put_term(term, &mut hasher);
    hasher.finish()
}

impl TextSink for DefaultHasher {
    ghost use Rattle.std.specs.Hash.DefaultHasher as sip;
    ghost use Rattle.term_pool.specs.Hashing.{write-none, write-joined};

    ghost after = { sip.write };

    ghost none = { write-none };

    ghost joined = { write-joined };

    fn put(&mut self, bytes: &[u8]) {
        self.write(bytes);
    }
}
