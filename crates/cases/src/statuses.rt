// The statuses with their numbers and texts, those too that no run over memory ends with.

use anyhow::Result;
use event_line::LineCause;
use session::{Status, status_number, status_text};

// Some statuses of each kind.
const STATUSES: [Status; 10] = [
    Status::Ok,
    Status::BadWords,
    Status::BadLine(4, LineCause::Rev),
    Status::BadLine(u64::MAX, LineCause::NotJson),
    Status::ReadFault,
    Status::WriteFault,
    Status::TooLong,
    Status::StoreFull,
    Status::OutOfMemory,
    Status::BadSnapshot(7),
];

// Prints a line for each.
pub fn print_statuses(rt: &HostRuntime) -> Result<()> {
    for status in &STATUSES {
        let number = status_number(status);
        let text = status_text(rt.alloc(), status)?;
        let text = text.as_str();
        println!(rt; "status {number} [{text}]")?;
    }
    Ok(())
}
