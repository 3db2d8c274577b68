// What holds of the definitions themselves. Each law is the contract of a function that does nothing.

ghost use Rattle.replica.specs.Laws.{FollowsItsProducer, LeadsToItsProducer, ReadsOneWay, ReadsRecords, ReadsTheirLines, SplitsIntoLines};

/// A replica that received only records of one producer, in any order, some of them more than once or not at all, has the triples that the
/// producer had after the last record up to which all were received, as soon as no record is due.
pub fn a_replica_follows_its_producer()
    ensures { FollowsItsProducer }
{}

/// Records that are all of one producer, and among which are those from 1 to n, lead to the triples that the producer had after its record
/// n.
pub fn records_lead_to_their_producer()
    ensures { LeadsToItsProducer }
{}

/// Lines that a reader takes are those of the records that it gives, one after the other, and of a last one that lacks lines.
pub fn lines_are_read_as_their_records()
    ensures { ReadsTheirLines }
{}

/// The lines of records, one after the other, are taken without a fault, and give these records.
pub fn records_are_read_from_their_lines()
    ensures { ReadsRecords }
{}

/// The same lines, read from the start of a record on, give the same records, and leave the same part of one.
pub fn lines_are_read_in_one_way()
    ensures { ReadsOneWay }
{}

/// The texts of records that a reader can give, one after the other, have the lines of these records, and no other.
pub fn texts_of_records_are_their_lines()
    ensures { SplitsIntoLines }
{}
