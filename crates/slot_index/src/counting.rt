// The counts of the triples of two owners or more: for each, how many it has beside the first.

ghost use Rattle.std.specs.Prelude.{◌≡◌, ◌<◌, OnOk, OnErr};
ghost use Rattle.slot_index.specs.Counts.{count_of, counts_of, lowered, raised};

use base::OutOfMemory;
use slot_keys::Key;
use std::collections::BTreeMap;

/// How many owners are counted: none where the triple isn't there.
pub fn owners(counts: &BTreeMap<Key, u64>, key: Key) -> u64
    ensures { result ≡ count_of (counts_of counts.now.entries) key }
{
    counts.get(&key).copied().unwrap_or(0)
}

/// Raises the count of a triple by one; after `OutOfMemory` the counts are as they were.
pub fn raise(counts: &mut BTreeMap<Key, u64>, key: Key) -> Result<(), OutOfMemory>
    requires { count_of (counts_of counts.old.entries) key < 18446744073709551615 }
    ensures ok { OnOk result (counts_of counts.new.entries ≡ raised (counts_of counts.old.entries) key) }
    ensures err { OnErr result (counts_of counts.new.entries ≡ counts_of counts.old.entries) }
{
    match counts.get_mut(&key) {
        Some(count) => *count += 1,
        None => {
            counts.insert(key, 1)?;
        }
    }
    Ok(())
}

/// Lowers the count of a triple by one, and takes the triple out where none is left.
pub fn lower(counts: &mut BTreeMap<Key, u64>, key: Key)
    ensures { counts_of counts.new.entries ≡ lowered (counts_of counts.old.entries) key }
{
    match counts.get_mut(&key) {
        Some(count) if *count > 1 => *count -= 1,
        Some(_) => {
            counts.remove(&key);
        }
        None => {}
    }
}
