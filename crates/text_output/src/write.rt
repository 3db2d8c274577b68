// Bytes, and lines that are made already, are written whole.

ghost use Rattle.std.specs.Prelude.{◌≡◌, ℕ, List, Ok, flat_map, length, nat_lt, string_bytes};
ghost use Rattle.text_output.specs.{Printing.Output, Printing.Prints, Printing.Puts, Printing.output, declared.write.Unwritten.TheVariants.OutOfMemory as UnwrittenOutOfMemory};

use base::OutOfMemory;
use wq_io::{NoWrite, Sink};

/// Why not all was written.
#[derive(Clone, Copy, PartialEq, Eq)]
pub enum Unwritten {
    /// The output could not be written.
    WriteFault,
    /// A request for memory was refused.
    OutOfMemory,
}

impl From<OutOfMemory> for Unwritten {
    ghost from_gives = { λ _ e. e ≡ UnwrittenOutOfMemory };

    fn from(_refused: OutOfMemory) -> Unwritten {
        Unwritten::OutOfMemory
    }
}

/// Writes all bytes, the rest of them where the sink took a part. They may wait to be handed on.
///
/// # Errors
/// The output could not be written, or memory was refused: then a prefix of the bytes was written, and nothing else.
pub fn write_all<K: Sink>(bytes: &[u8], out: &mut K) -> Result<(), Unwritten>
    ensures { Puts bytes.now (output K.Sink out.old) (output K.Sink out.new) result }
{
    let mut rest = bytes;
    while !rest.is_empty() {
        match out.write(rest) {
            Ok(count) => rest = &rest[count..],
            Err(NoWrite::Failed) => return Err(Unwritten::WriteFault),
            Err(NoWrite::OutOfMemory) => return Err(Unwritten::OutOfMemory),
        }
    }
    Ok(())
}

/// Hands what was printed on to the outside, if anything was: then nothing waits any more.
///
/// # Errors
/// The output could not be written, or memory was refused: then a prefix of what was printed reached the outside, and nothing else.
pub fn flush<K: Sink>(is_printed: bool, out: &mut K) -> Result<(), Unwritten>
    ensures { (whole : List ℕ) → (before : Output) → is_printed ≡ nat_lt 0 (length whole) → Puts whole before (output K.Sink out.old) (Ok tt) → Prints whole before (output K.Sink out.new) result }
{
    if !is_printed {
        return Ok(());
    }
    match out.flush() {
        Ok(()) => Ok(()),
        Err(NoWrite::Failed) => Err(Unwritten::WriteFault),
        Err(NoWrite::OutOfMemory) => Err(Unwritten::OutOfMemory),
    }
}

/// Prints lines as they are, one by one, and hands them on to the outside.
///
/// # Errors
/// The output could not be written, or memory was refused: then a prefix of the lines was written, and nothing else.
pub fn print_lines<K: Sink>(lines: &[String], out: &mut K) -> Result<(), Unwritten>
    ensures { Prints (flat_map string_bytes lines.now) (output K.Sink out.old) (output K.Sink out.new) result }
{
    let mut is_printed = false;
    for line in lines {
        let line = line.as_bytes();
        write_all(line, out)?;
        is_printed |= !line.is_empty();
    }
    flush(is_printed, out)
}
