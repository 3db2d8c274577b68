// A follower: it takes the records of its input, and prints what it has then.

ghost use Rattle.std.specs.Prelude.{◌≤◌, ◌≡◌, IfErr, IfSome, OnOk};
ghost use Rattle.replica.specs.Replica.{nothing_received};
ghost use Rattle.arguments.specs.Options.{follow_max_bytes_of};
ghost use Rattle.following.specs.{Following.Ending, Following.StoppedFollowing, Following.follow_moment, Following.follower_limit, Reading.TakesLinesByNeed};

use crate::printing::print_replica;
use crate::stop::FollowStop;
use crate::taking::take_records;
use arguments::FollowOptions;
use rdf_term::DEFAULT_MAX_TERMS;
use replica::Replica;
use std::alloc::Global;
use std::hash::RandomState;
use wq_io::{Sink, Source};

/// Reads records from `events`, as `replica::PatchReader` does; each is received as soon as its last line was read, and then all that
/// are due are applied, before the next line is read. At the end of the input it writes `# replica N`, the number of records that were
/// applied, and, where the options ask for it, a line `# export: COUNT triples` and the line of each triple in N-Triples.
///
/// Terms are found by hashes under `keys`.
///
/// # Errors
/// Why it stopped. Before the end of the input nothing is written. However it ends, no more was taken of the input than the lines of
/// records so far, a part of the next line that decided nothing, and what one read gave, at most one byte past the limit.
pub fn follow<S: Source, K: Sink>(
    alloc: Global,
    keys: RandomState,
    options: &FollowOptions,
    events: &mut S,
    out: &mut K,
) -> Result<(), FollowStop>
    ensures ok { OnOk result (Ending options.now (follow_moment S.Source K.Sink events.old out.old) (follow_moment S.Source K.Sink events.new out.new)) }
    ensures err { IfErr result (λ stop. StoppedFollowing stop options.now (follow_moment S.Source K.Sink events.old out.old) (follow_moment S.Source K.Sink events.new out.new)) }
    ensures taken { IfSome (S.left events.old) (λ bytes. TakesLinesByNeed (follow_max_bytes_of options.now) bytes (S.left events.new)) }
    ensures later { S.faults events.old ≤ S.faults events.new }
    ensures most { S.most_faults events.new ≡ S.most_faults events.old }
    ensures written { K.faults out.old ≤ K.faults out.new }
    ensures most_written { K.most_faults out.new ≡ K.most_faults out.old }
{
    let mut replica = Replica::new(alloc, keys, DEFAULT_MAX_TERMS)?;
    let followed = follow_into(alloc, options, events, out, &mut replica);
    drop(replica);
    followed
}

// The same with a replica that received nothing. It is the caller's, so that a way out of here doesn't drop it.
fn follow_into<S: Source, K: Sink>(
    alloc: Global,
    options: &FollowOptions,
    events: &mut S,
    out: &mut K,
    replica: &mut Replica,
) -> Result<(), FollowStop>
    requires { replica.old ≡ nothing_received follower_limit }
    ensures ok { OnOk result (Ending options.now (follow_moment S.Source K.Sink events.old out.old) (follow_moment S.Source K.Sink events.new out.new)) }
    ensures err { IfErr result (λ stop. StoppedFollowing stop options.now (follow_moment S.Source K.Sink events.old out.old) (follow_moment S.Source K.Sink events.new out.new)) }
    ensures taken { IfSome (S.left events.old) (λ bytes. TakesLinesByNeed (follow_max_bytes_of options.now) bytes (S.left events.new)) }
    ensures later { S.faults events.old ≤ S.faults events.new }
    ensures most { S.most_faults events.new ≡ S.most_faults events.old }
    ensures written { K.faults out.old ≤ K.faults out.new }
    ensures most_written { K.most_faults out.new ≡ K.most_faults out.old }
{
    take_records(alloc, options.max_bytes(), events, replica)?;
    match print_replica(alloc, replica, options.export(), out) {
        Ok(()) => Ok(()),
        Err(why) => Err(FollowStop::from(why)),
    }
}
