// The streams of std as a source and a sink. They tell nothing of their bytes.

ghost use Rattle.std.specs.Prelude.{◌≡◌, ◌<◌, ◌≤◌, false, true, None, length, IfOk, OnOk, OnErr, IfErr, IsErr};
ghost use Rattle.wq_io.specs.Streams.{counted};

use crate::sink::{NoWrite, Sink};
use crate::source::{Failed, Source};
use std::io::{Read, Write};

/// A source over any reader, as standard input.
#[derive(Drop)]
pub struct StdSource<R: Read> {
    reader: R,
    faults: u64,
}

impl<R: Read> StdSource<R> {
    /// No call failed yet.
    pub fn new(reader: R) -> StdSource<R>
        ensures { result.faults ≡ 0 }
    {
        StdSource { reader, faults: 0 }
    }
}

impl<R: Read> Source for StdSource<R> {
    ghost left = { λ _. None };

    ghost last = { λ _. None };

    ghost faults = { λ s. s.faults };

    ghost most_faults = { λ _. None };

    fn read(&mut self, buf: &mut [u8]) -> Result<usize, Failed>
        requires { 0 < length buf.old }
        ensures bound { IfOk result (λ n. n ≤ length buf.new) }
        ensures quiet { OnOk result (self.new.faults ≡ self.old.faults) }
        ensures failed { OnErr result (self.new.faults ≡ counted self.old.faults) }
    {
        match self.reader.read(buf) {
            Ok(count) => Ok(count),
            Err(_) => {
                self.faults = self.faults.saturating_add(1);
                Err(Failed)
            }
        }
    }

    ghost within_most = { λ _. tt };
}

/// A sink over any writer, as standard output: the writer may keep bytes back until a `flush`.
#[derive(Drop)]
pub struct StdSink<W: Write> {
    writer: W,
    waits: bool,
    faults: u64,
}

impl<W: Write> StdSink<W> {
    /// Nothing waits, and no call failed yet.
    pub fn new(writer: W) -> StdSink<W>
        ensures waits { result.waits ≡ false }
        ensures faults { result.faults ≡ 0 }
    {
        StdSink {
            writer,
            waits: false,
            faults: 0,
        }
    }

    // A failure is counted.
    fn fail(&mut self) -> NoWrite
        ensures failed { result ≡ NoWrite.Failed }
        ensures counted { self.new.faults ≡ counted self.old.faults }
        ensures waits { self.new.waits ≡ self.old.waits }
    {
        self.faults = self.faults.saturating_add(1);
        NoWrite::Failed
    }
}

impl<W: Write> Sink for StdSink<W> {
    ghost held = { λ _. None };

    ghost waits = { λ s. s.waits };

    ghost faults = { λ s. s.faults };

    ghost most_faults = { λ _. None };

    fn write(&mut self, bytes: &[u8]) -> Result<usize, NoWrite>
        requires { 0 < length bytes.now }
        ensures bound { IfOk result (λ n. (0 < n) × (n ≤ length bytes.now)) }
        ensures waits { OnOk result (self.new.waits ≡ true) }
        ensures still { OnErr result (self.new.waits ≡ self.old.waits) }
        ensures quiet { OnOk result (self.new.faults ≡ self.old.faults) }
        ensures failed { IfErr result (λ e. (e ≡ NoWrite.Failed) × (self.new.faults ≡ counted self.old.faults)) }
    {
        match self.writer.write(bytes) {
            Ok(count) if count > 0 => {
                self.waits = true;
                Ok(count)
            }
            _ => Err(self.fail()),
        }
    }

    fn flush(&mut self) -> Result<(), NoWrite>
        ensures handed { IfOk result (λ _. self.new.waits ≡ false) }
        ensures still { OnErr result (self.new.waits ≡ self.old.waits) }
        ensures quiet { OnOk result (self.new.faults ≡ self.old.faults) }
        ensures failed { IfErr result (λ e. (e ≡ NoWrite.Failed) × (self.new.faults ≡ counted self.old.faults)) }
    {
        match self.writer.flush() {
            Ok(()) => {
                self.waits = false;
                Ok(())
            }
            Err(_) => Err(self.fail()),
        }
    }

    ghost told_at_once = { λ _. tt };

    ghost within_most = { λ _. tt };
}
