// The lines of the input are taken one by one, and each record as soon as its last line was read.

ghost use Rattle.std.specs.Prelude.{◌≡◌, ◌≤◌, ◌^◌, ◌∷◌, ◌++◌, [], IfErr, IfSome, List, None, OnOk};
ghost use Rattle.replica.specs.{declared.record.PatchRecord.PatchRecord as TheRecord, Record.IsSound, Replica.nothing_received};
ghost use Rattle.following.specs.{Input.input, Reading.TakesLinesByNeed, Stop.HeldUp, Stop.TakingStopped, Stop.StopsAtLine};
ghost use Rattle.following.specs.Taking.{HasApplied, HasReceived, HasTakenRecords, IsRecordOverfull, AppliesLine, TakesRecord};

use crate::stop::{FollowStop, RecordCause};
use rdf_term::OutOfMemory;
use replica::{PatchReader, PatchRecord, Replica};
use std::alloc::Global;
use wq_io::{Lines, Source};

/// The most bytes that a line of a record may have: that of a triple has fewer.
const LONGEST_LINE: u64 = 134_217_728;

// Takes all records of the input; after each of them what is due is applied, before the next line is taken.
pub fn take_records<S: Source>(
    alloc: Global,
    max_bytes: u64,
    events: &mut S,
    replica: &mut Replica,
) -> Result<(), FollowStop>
    requires bytes { max_bytes ≤ 2 ^ 40 }
    requires new { replica.old ≡ nothing_received replica.old.limit }
    ensures ok { OnOk result (HasTakenRecords max_bytes (input S.Source events.old) (input S.Source events.new) replica.new) }
    ensures err { IfErr result (λ stop. TakingStopped stop max_bytes replica.old.limit (input S.Source events.old) (input S.Source events.new)) }
    ensures taken { IfSome (S.left events.old) (λ bytes. TakesLinesByNeed max_bytes bytes (S.left events.new)) }
    ensures limit { replica.new.limit ≡ replica.old.limit }
    ensures later { S.faults events.old ≤ S.faults events.new }
    ensures most { S.most_faults events.new ≡ S.most_faults events.old }
{
    let mut reader = PatchReader::new(alloc);
    let mut line = Vec::new(alloc);
    let taken = take_lines(max_bytes, events, &mut line, &mut reader, replica);
    drop(line);
    drop(reader);
    taken
}

// The same with a buffer for lines, and a reader that is at the start. Both are the caller's, so that a way out of here doesn't drop them.
fn take_lines<S: Source>(
    max_bytes: u64,
    events: &mut S,
    line: &mut Vec<u8>,
    reader: &mut PatchReader,
    replica: &mut Replica,
) -> Result<(), FollowStop>
    requires bytes { max_bytes ≤ 2 ^ 40 }
    requires start { reader.old ≡ None }
    requires new { replica.old ≡ nothing_received replica.old.limit }
    ensures ok { OnOk result (HasTakenRecords max_bytes (input S.Source events.old) (input S.Source events.new) replica.new) }
    ensures err { IfErr result (λ stop. TakingStopped stop max_bytes replica.old.limit (input S.Source events.old) (input S.Source events.new)) }
    ensures taken { IfSome (S.left events.old) (λ bytes. TakesLinesByNeed max_bytes bytes (S.left events.new)) }
    ensures limit { replica.new.limit ≡ replica.old.limit }
    ensures later { S.faults events.old ≤ S.faults events.new }
    ensures most { S.most_faults events.new ≡ S.most_faults events.old }
{
    let mut lines = Lines::with_limit(max_bytes, LONGEST_LINE);
    let mut given = 0;
    while let Some(number) = lines.next(events, line)? {
        take_line(line.as_slice(), number, reader, replica)?;
        given = number;
    }
    if reader.inside() {
        return Err(FollowStop::BadLine(given + 1, RecordCause::Short));
    }
    Ok(())
}

// Takes a line, and the record that it ends, if it ends one.
fn take_line(
    line: &[u8],
    number: u64,
    reader: &mut PatchReader,
    replica: &mut Replica,
) -> Result<(), FollowStop>
    ensures ok { OnOk result (AppliesLine line.now reader.old reader.new replica.old replica.new) }
    ensures err { IfErr result (λ stop. StopsAtLine stop number line.now reader.old replica.old) }
    ensures limit { replica.new.limit ≡ replica.old.limit }
{
    match reader.line(line) {
        Ok(Some(item)) => take_record(item, replica),
        Ok(None) => Ok(()),
        Err(fault) => Err(FollowStop::at_line(number, fault)),
    }
}

// Takes a record, and applies what is due.
fn take_record(item: PatchRecord, replica: &mut Replica) -> Result<(), FollowStop>
    requires { IsSound item }
    ensures ok { OnOk result (TakesRecord item replica.old replica.new) }
    ensures err { IfErr result (λ stop. HeldUp stop ((items : List TheRecord) → HasApplied items replica.old → IsRecordOverfull replica.old.limit (items ++ item ∷ []))) }
    ensures limit { replica.new.limit ≡ replica.old.limit }
{
    match replica.receive(item) {
        Ok(_) => apply_due(replica),
        Err(OutOfMemory) => Err(FollowStop::OutOfMemory),
    }
}

// Applies the records that are due, one after the other.
fn apply_due(replica: &mut Replica) -> Result<(), FollowStop>
    ensures ok { OnOk result ((items : List TheRecord) → HasReceived items replica.old → HasApplied items replica.new) }
    ensures err { IfErr result (λ stop. HeldUp stop ((items : List TheRecord) → HasReceived items replica.old → IsRecordOverfull replica.old.limit items)) }
    ensures limit { replica.new.limit ≡ replica.old.limit }
{
    loop {
        match replica.advance() {
            Ok(true) => {}
            Ok(false) => return Ok(()),
            Err(fault) => return Err(FollowStop::from(fault)),
        }
    }
}
