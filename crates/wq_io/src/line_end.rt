// Where a line ends, and the bytes of a line that grows.

ghost use Rattle.std.specs.Prelude.{◌≡◌, ◌+◌, ◌<◌, ◌≤◌, ◌++◌, ◌==◌, ◌⊎◌, length, position, IfErr, IsErr, MatchOption, OnOk};
ghost use Rattle.wq_io.specs.{Lines.IsOneLine, Lines.line_feed, Taking.EndsAt};
ghost use Rattle.wq_io.specs.declared.lines.LineFault.TheVariants.{LineLong as OverLong, OutOfMemory as LineOutOfMemory};

use crate::lines::LineFault;

// The place of the first line feed.
pub fn line_feed_at(bytes: &[u8]) -> Option<usize>
    ensures { MatchOption result (IsOneLine bytes.now) (λ index. EndsAt index bytes.now) }
{
    first_line_feed(bytes)
}

// The same place, by std's search.
fn first_line_feed(bytes: &[u8]) -> Option<usize>
    ensures { result ≡ position (λ b. b == line_feed) bytes.now }
{
    bytes.iter().position(|byte| *byte == b'\n')
}

// Puts bytes at the end of the line with this number, which may not get longer than this by them.
pub fn append(line: &mut Vec<u8>, bytes: &[u8], number: u64, max_line: u64) -> Result<(), LineFault>
    requires { length line.old.items ≤ max_line }
    ensures ok { OnOk result ((line.new.items ≡ line.old.items ++ bytes.now) × (length line.new.items ≤ max_line)) }
    ensures cause { IfErr result (λ fault. (fault ≡ LineOutOfMemory)
        ⊎ ((fault ≡ OverLong number) × (max_line < length line.old.items + length bytes.now))) }
    ensures kept { IsErr result → line.new.items ≡ line.old.items }
{
    if bytes.len() as u64 > max_line - line.len() as u64 {
        return Err(LineFault::LineLong(number));
    }
    match line.extend_from_slice(bytes) {
        Ok(()) => Ok(()),
        Err(_) => Err(LineFault::OutOfMemory),
    }
}
