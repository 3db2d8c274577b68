// How a run ended.

ghost use Rattle.std.specs.Prelude.{◌≡◌, IfOk};
ghost use Rattle.run_model.specs.Status.{bad_line_text, bad_snapshot_text, cause_name as name_of, status_number, status_text};

use event_line::LineCause;
use rdf_term::{OutOfMemory, Text};
use std::alloc::Global;

/// How a run ended.
#[derive(Clone, Copy, PartialEq, Eq)]
pub enum Status {
    /// The input was read to its end, all due events were applied, and everything was written.
    Ok,
    /// The arguments are not understood; nothing was read or written.
    BadWords,
    /// The line with this number, from 1, is refused.
    BadLine(u64, LineCause),
    /// The input, or the snapshot to go on from, could not be read.
    ReadFault,
    /// The output, or the snapshot, could not be written.
    WriteFault,
    /// The input, or the snapshot to go on from, has more bytes than it may have.
    TooLong,
    /// There is no room for the terms of a page, of a record, or of the snapshot to go on from.
    StoreFull,
    /// A request for memory was refused.
    OutOfMemory,
    /// The line of the snapshot with this number, from 1, is refused; nothing else was read, and nothing was written.
    BadSnapshot(u64),
}

/// The line that says how a run ended, without its line feed; empty if it ended with Ok.
#[tactic(auto, unfolding(crate::specs::Status::cause_name))]
pub fn status_text(alloc: Global, status: &Status) -> Result<Text, OutOfMemory>
    ensures { IfOk result (λ text. text ≡ status_text status.now) }
{
    match status {
        Status::Ok => Text::new(alloc, ""),
        Status::BadWords => Text::new(alloc, "wdq: words not understood"),
        Status::BadLine(number, cause) => bad_line(alloc, *number, *cause),
        Status::ReadFault => Text::new(alloc, "wdq: read fault"),
        Status::WriteFault => Text::new(alloc, "wdq: write fault"),
        Status::TooLong => Text::new(alloc, "wdq: input too long"),
        Status::StoreFull => Text::new(alloc, "wdq: store full"),
        Status::OutOfMemory => Text::new(alloc, "wdq: out of memory"),
        Status::BadSnapshot(number) => bad_snapshot(alloc, *number),
    }
}

// The message for a refused line.
fn bad_line(alloc: Global, number: u64, cause: LineCause) -> Result<Text, OutOfMemory>
    ensures { IfOk result (λ text. text ≡ bad_line_text number cause) }
{
    let cause = cause_name(cause);
    Ok(Text::from_string(format!(in alloc; "wdq: line {number}: {cause}")?))
}

// The message for a refused line of a snapshot.
fn bad_snapshot(alloc: Global, number: u64) -> Result<Text, OutOfMemory>
    ensures { IfOk result (λ text. text ≡ bad_snapshot_text number) }
{
    Ok(Text::from_string(format!(in alloc; "wdq: snapshot: line {number}")?))
}

/// The exit status of the process.
pub fn status_number(status: &Status) -> u8
    ensures { result ≡ status_number status.now }
{
    match status {
        Status::Ok => 0,
        Status::BadWords => 1,
        Status::BadLine(_, _) => 2,
        Status::ReadFault => 3,
        Status::WriteFault => 4,
        Status::TooLong => 5,
        Status::StoreFull => 6,
        Status::OutOfMemory => 7,
        Status::BadSnapshot(_) => 8,
    }
}

// The name of a cause.
#[tactic(auto, unfolding(crate::specs::Status::cause_name))]
fn cause_name(cause: LineCause) -> &'static str
    ensures { result.now ≡ name_of cause }
{
    match cause {
        LineCause::LineLong => "LineLong",
        LineCause::NotJson => "NotJson",
        LineCause::NoForm => "NoForm",
        LineCause::Kind => "Kind",
        LineCause::Entity => "Entity",
        LineCause::Rev => "Rev",
        LineCause::Time => "Time",
        LineCause::Mode => "Mode",
        LineCause::Pattern => "Pattern",
        LineCause::Mapping => "Mapping",
        LineCause::Match => "Match",
        LineCause::Head => "Head",
        LineCause::Triple => "Triple",
        LineCause::Order => "Order",
        LineCause::Short => "Short",
    }
}
