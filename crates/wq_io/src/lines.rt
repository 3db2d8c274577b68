// The lines of a source, one by one.

ghost use Rattle.std.specs.Prelude.{◌≡◌, ◌+◌, ◌<◌, ◌≤◌, ◌^◌, ◌↔◌, true, false, [], ◌∷◌, ◌++◌, length, take, drop, IsTrue, IfOk, IfErr, IfSome, OnOk, IsErr, is_err, MatchOption, MatchBool, vec_len, position, ◌==◌, ◌≢◌, IsNone, ◌⊎◌};
ghost use Rattle.wq_io.specs.Streams.{before_known, IsAtEnd, Rose};
ghost use Rattle.wq_io.specs.Lines.{fresh, taken, room, unread, input_length, GivesLine, GoesOn, HasCause, IsOneLine, IsPartOfLine, IsSound, Leaves, ReadsAsNeeded, TakesBytes, line_feed, longest_line};
ghost use Rattle.wq_io.specs.Taking.{EndsAt, HasByte, IsEnded, IsLeftHeld, IsUnreadable, ReadsByNeed, TakesHeld};
ghost use Rattle.wq_io.specs.declared.lines.LineFault.TheVariants.{ReadFault as NotRead, LineLong as OverLong, OutOfMemory as LineOutOfMemory};

use crate::line_end::{append, line_feed_at};
use crate::source::Source;
use std::marker::Model;
use thiserror::Error;

/// The most bytes that one read asks for.
const BUFFER: usize = 4_096;

/// The most bytes that a line may have without its line feed, where no other number is chosen.
const LONGEST_LINE: u64 = 65_536;

/// Why there is no next line.
#[derive(Clone, Copy, Debug, Error)]
pub enum LineFault {
    /// The source failed.
    #[error("read fault")]
    ReadFault,
    /// The input has more bytes than it may have.
    #[error("input too long")]
    TooLong,
    /// The line with this number, from 1, has more bytes than a line may have.
    #[error("line {0} too long")]
    LineLong(u64),
    /// A request for memory was refused.
    #[error("out of memory")]
    OutOfMemory,
}

/// Splits a source at its line feeds, and reads no further than it has to. It reads only if the bytes that it holds decide neither a line
/// nor a fault. Each read asks for 4,096 bytes, or up to the byte after the limit if that is fewer. After a failed read it makes no other.
#[derive(Drop)]
pub struct Lines {
    buffer: [u8; BUFFER],
    start: usize,
    end: usize,
    consumed: u64,
    given: u64,
    max_bytes: u64,
    max_line: u64,
    ended: bool,
    failed: bool,
}

impl Model for Lines {
    ghost use Rattle.std.specs.Prelude.{◌+◌, ◌-◌, ◌^◌, ◌≤◌, take, drop};
    ghost use Rattle.wq_io.specs.Lines.{Reading};

    ghost Value = { Reading };

    ghost view = { λ a. record {
      held = take (a.end - a.start) (drop a.start a.buffer);
      consumed = a.consumed;
      given = a.given;
      max_bytes = a.max_bytes;
      max_line = a.max_line;
      ended = a.ended;
      failed = a.failed;
    } };

    ghost invariant = { λ a. (a.start ≤ a.end) × (a.end ≤ 4096) × (a.max_bytes ≤ 2 ^ 40) × (a.consumed ≤ a.max_bytes)
        × (a.given ≤ a.consumed) × (a.consumed + (a.end - a.start) ≤ a.max_bytes + 1) };
}

impl Lines {
    /// A reader of an input that may have at most `max_bytes` bytes, of which a line may have 65,536.
    pub fn new(max_bytes: u64) -> Lines
        requires { max_bytes ≤ 2 ^ 40 }
        ensures { result ≡ fresh max_bytes longest_line }
    {
        Lines::with_limit(max_bytes, LONGEST_LINE)
    }

    /// A reader of an input that may have at most `max_bytes` bytes, and at most `max_line` in a line, without its line feed.
    pub fn with_limit(max_bytes: u64, max_line: u64) -> Lines
        requires { max_bytes ≤ 2 ^ 40 }
        ensures { result ≡ fresh max_bytes max_line }
    {
        Lines {
            buffer: [0; BUFFER],
            start: 0,
            end: 0,
            consumed: 0,
            given: 0,
            max_bytes,
            max_line,
            ended: false,
            failed: false,
        }
    }

    /// Puts the next line without its line feed into `line` and answers its number, from 1; `None` is the end of the input, and leaves
    /// `line` empty. A last line without line feed is a line. Give each call the same source.
    ///
    /// `ReadFault` comes where a read failed, `TooLong` at the first byte past the limit of the input, `LineLong` at the first byte past the
    /// limit of a line, whichever is judged first, and `OutOfMemory` where the line can't be held. After a fault `line` has a first part of
    /// the line, and the reader isn't asked again.
    pub fn next<S: Source>(
        &mut self,
        source: &mut S,
        line: &mut Vec<u8>,
    ) -> Result<Option<u64>, LineFault>
        requires going { self.old.failed ≡ false }
        requires ended { self.old.ended ≡ true → IsAtEnd (S.left source.old) }
        ensures line { IfOk result (λ number.
            GivesLine (unread self.old (S.left source.old)) (unread self.new (S.left source.new)) number line.new.items) }
        ensures cleared { IfOk result (λ number. IsNone number → line.new.items ≡ []) }
        ensures part { IfErr result (λ _. IsPartOfLine self.old (S.left source.old) line.new.items) }
        ensures bytes { IfOk result (λ number. IfSome number (λ _.
            TakesBytes self.new.ended (unread self.old (S.left source.old)) (unread self.new (S.left source.new)) line.new.items)) }
        ensures number { IfOk result (λ number. MatchOption number (self.new.given ≡ self.old.given)
            (λ n. (n ≡ self.old.given + 1) × (n ≡ self.new.given))) }
        ensures length { OnOk result
            (input_length self.new (S.left source.new) ≡ input_length self.old (S.left source.old)) }
        ensures goes_on { OnOk result (GoesOn self.old self.new line.new.items) }
        ensures ended { OnOk result (self.new.ended ≡ true → IsAtEnd (S.left source.new)) }
        ensures later { S.faults source.old ≤ S.faults source.new }
        ensures cause { IfErr result (λ fault.
            HasCause fault self.old (S.left source.old) (S.faults source.old) (S.faults source.new)) }
        ensures leaves { IfErr result (λ fault. Leaves fault self.old (S.left source.old) (S.left source.new)) }
        ensures reads { ReadsAsNeeded self.old self.new (S.left source.old) (S.left source.new) (S.last source.old) (S.last source.new) }
        ensures most { S.most_faults source.new ≡ S.most_faults source.old }
        ensures refused { IsErr result → self.new.failed ≡ true }
    {
        let _ = &self.given;
        self.set_failed(true); // until a line or the end is given
        line.clear();
        loop {
            if !self.has_byte(source)? {
                self.set_failed(false);
                return Ok(self.last_line(line));
            }
            if self.is_at_limit() {
                return Err(LineFault::TooLong);
            }
            if self.take_held(line)? {
                self.set_failed(false);
                return Ok(Some(self.count_line()));
            }
        }
    }

    /// The number of bytes that were taken from the source.
    pub fn taken(&self) -> u64
        ensures { result ≡ taken self.now }
    {
        self.consumed + (self.end - self.start) as u64
    }

    // Notes whether the reader refuses to go on.
    fn set_failed(&mut self, failed: bool)
        ensures noted { self.new ≡ record self.old { failed = failed } }
        ensures sound { IsSound self.new }
    {
        let _ = &self.given;
        self.failed = failed;
    }

    // Whether no byte is held.
    fn is_empty(&self) -> bool
        ensures answer { IsTrue result ↔ (self.now.held ≡ []) }
        ensures sound { IsSound self.now }
    {
        self.start == self.end
    }

    // Whether as many bytes went into lines as the input may have.
    fn is_at_limit(&self) -> bool
        ensures { IsTrue result ↔ (self.now.consumed ≡ self.now.max_bytes) }
    {
        self.consumed == self.max_bytes
    }

    // Reads once where nothing is held and the source isn't at its end, and says whether a byte is held then.
    fn has_byte<S: Source>(&mut self, source: &mut S) -> Result<bool, LineFault>
        requires ended { self.old.ended ≡ true → IsAtEnd (S.left source.old) }
        ensures reads { IfOk result (λ more. MatchBool more
            (HasByte self.old self.new (S.left source.old) (S.left source.new))
            (IsEnded self.old self.new (S.left source.old) (S.left source.new))) }
        ensures later { S.faults source.old ≤ S.faults source.new }
        ensures cause { IfErr result (λ fault. (fault ≡ NotRead) × Rose (S.faults source.old) (S.faults source.new)) }
        ensures leaves { IsErr result → IsUnreadable self.old (S.left source.old) (S.left source.new) }
        ensures by_need { ReadsByNeed self.old self.new (S.left source.old) (S.left source.new) (S.last source.old) (S.last source.new) }
        ensures others { self.new ≡ record self.old { held = self.new.held; ended = self.new.ended } }
        ensures sound { IsSound self.new }
        ensures most { S.most_faults source.new ≡ S.most_faults source.old }
    {
        if !self.is_empty() {
            return Ok(true);
        }
        if self.ended {
            return Ok(false);
        }
        let allowed = self.max_bytes + 1 - self.consumed;
        let count = allowed.min(BUFFER as u64) as usize;
        let Ok(read) = source.read(&mut self.buffer[..count]) else {
            return Err(LineFault::ReadFault);
        };
        self.start = 0;
        self.end = read;
        self.ended = read == 0;
        Ok(read > 0)
    }

    // The bytes that are held and lie within the limit.
    fn usable(&self) -> &[u8]
        ensures { result.now ≡ take (room self.now) self.now.held }
    {
        let held = &self.buffer[self.start..self.end];
        let count = (self.max_bytes - self.consumed).min(held.len() as u64) as usize;
        &held[..count]
    }

    // Moves the held bytes up to the line feed, or all within the limit, and says whether the line ended.
    fn take_held(&mut self, line: &mut Vec<u8>) -> Result<bool, LineFault>
        requires held { self.old.held ≢ [] }
        requires room { 0 < room self.old }
        requires short { length line.old.items ≤ self.old.max_line }
        ensures takes { IfOk result (λ ended. TakesHeld self.old self.new line.old.items line.new.items ended) }
        ensures cause { IfErr result (λ fault. IsLeftHeld fault self.old line.old.items) }
        ensures unchanged { IsErr result → self.new ≡ self.old }
        ensures kept { IsErr result → line.new.items ≡ line.old.items }
    {
        let number = self.given + 1;
        let max_line = self.max_line;
        let usable = self.usable();
        match line_feed_at(usable) {
            Some(index) => {
                append(line, &usable[..index], number, max_line)?;
                self.advance(index + 1);
                Ok(true)
            }
            None => {
                let count = usable.len();
                append(line, usable, number, max_line)?;
                self.advance(count);
                Ok(false)
            }
        }
    }

    // Lets held bytes go.
    fn advance(&mut self, count: usize)
        requires held { count ≤ length self.old.held }
        requires within { self.old.consumed + count ≤ self.old.max_bytes }
        ensures moved { self.new ≡ record self.old {
          held = drop count self.old.held;
          consumed = self.old.consumed + count;
        } }
        ensures sound { IsSound self.new }
    {
        self.start += count;
        self.consumed += count as u64;
    }

    // A line was given.
    fn count_line(&mut self) -> u64
        requires { self.old.given < self.old.consumed }
        ensures number { result ≡ self.old.given + 1 }
        ensures counted { self.new ≡ record self.old { given = self.old.given + 1 } }
        ensures sound { IsSound self.new }
    {
        self.given += 1;
        self.given
    }

    // The line at the end of the input, where it isn't empty.
    fn last_line(&mut self, line: &Vec<u8>) -> Option<u64>
        requires { self.old.given + length line.now.items ≤ self.old.consumed }
        ensures none { IsNone result ↔ (line.now.items ≡ []) }
        ensures held { self.new.held ≡ self.old.held }
        ensures number { MatchOption result (self.new ≡ self.old)
            (λ n. (n ≡ self.old.given + 1) × (self.new ≡ record self.old { given = self.old.given + 1 })) }
        ensures sound { IsSound self.new }
    {
        let _ = &self.given;
        if line.is_empty() {
            return None;
        }
        Some(self.count_line())
    }
}
