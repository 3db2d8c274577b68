// Keys in no more memory than they need.

ghost use Rattle.std.specs.Prelude.{◌≡◌, IfOk};

use crate::key::Key;
use crate::keys::Keys;
use base::OutOfMemory;
use std::alloc::Global;

impl Keys {
    /// The same keys without the order in which their triples came, and in memory of just their size where there is some. It always
    /// succeeds.
    pub fn compact(self, alloc: Global) -> Keys
        ensures { result.rising.items ≡ self.rising.items }
    {
        let Keys { rising, walk } = self;
        drop(walk);
        let rising = match exact(alloc, rising.as_slice()) {
            Ok(copy) => {
                drop(rising);
                copy
            }
            Err(_) => rising,
        };
        Keys {
            rising,
            walk: Vec::new(alloc),
        }
    }
}

// A copy of the keys in memory of just their size.
fn exact(alloc: Global, keys: &[Key]) -> Result<Vec<Key>, OutOfMemory>
    ensures { IfOk result (λ copy. copy.items ≡ keys.now) }
{
    let mut copy = Vec::with_capacity(alloc, keys.len())?;
    copy.extend_from_slice(keys)?;
    Ok(copy)
}
