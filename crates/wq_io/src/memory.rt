// A source and a sink in memory, with calls that are to fail.

ghost use Rattle.std.specs.Prelude.{◌≡◌, ◌↔◌, ◌<◌, ◌≤◌, false, refl, Some, [], length, min, nat_le, vec_len, IfErr, IfOk, IsErr, IsTrue, OnErr, OnOk, Err};
ghost use Rattle.std.proofs.lemmas.List.Sums.{count_by-le-length};
ghost use Rattle.wq_io.specs.Failing.{after_call, fails_next, failures};
ghost use Rattle.wq_io.specs.Streams.{ReadTakes, Rose, WritePuts, after_read, given_by};

use crate::failing::FailingCalls;
use crate::sink::{NoWrite, Sink};
use crate::source::{Failed, Source};
use base::{List, OutOfMemory};
use std::alloc::Global;
use std::marker::Model;

// The last read of a source.
#[derive(Drop)]
struct NotedRead {
    asked: usize,
    gave: usize,
    empty: u64,
}

impl Model for NotedRead {
    ghost use Rattle.wq_io.specs.Streams.{LastRead};

    ghost Value = { LastRead };

    ghost view = { λ a. record { asked = a.asked; gave = a.gave; empty = a.empty } };
}

impl NotedRead {
    // No read was made yet.
    fn none() -> NotedRead
        ensures { result ≡ record { asked = 0; gave = 0; empty = 0 } }
    {
        NotedRead {
            asked: 0,
            gave: 0,
            empty: 0,
        }
    }

    // Notes a read that asked for and gave so many bytes.
    fn note(&mut self, asked: usize, gave: usize)
        ensures { Some self.new ≡ after_read asked gave (Some self.old) }
    {
        self.asked = asked;
        self.gave = gave;
        if gave == 0 {
            self.empty = self.empty.saturating_add(1);
        }
    }
}

/// A source over bytes in memory.
#[derive(Drop)]
pub struct MemorySource {
    bytes: Vec<u8>,
    at: usize,
    piece: usize,
    failing: FailingCalls,
    last: NotedRead,
}

impl Model for MemorySource {
    ghost use Rattle.std.specs.Prelude.{drop, ◌≤◌, vec_len};
    ghost use Rattle.wq_io.specs.Memory.{MemoryReads};

    ghost Value = { MemoryReads };

    ghost view = { λ a. record {
      left = drop a.at a.bytes.items;
      piece = a.piece;
      calls = a.failing;
      last = a.last;
    } };

    ghost invariant = { λ a. (a.at ≤ vec_len a.bytes) × (1 ≤ a.piece) };
}

impl MemorySource {
    /// Gives `bytes`, at most `piece` of them a call; the calls whose numbers, from 1, are in `failing` fail.
    pub fn new(bytes: Vec<u8>, piece: usize, failing: List<u64>) -> MemorySource
        requires { 1 ≤ piece }
        ensures { result ≡ record {
          left = bytes.items;
          piece = piece;
          calls = record { numbers = failing; calls = 0 };
          last = record { asked = 0; gave = 0; empty = 0 };
        } }
    {
        MemorySource {
            bytes,
            at: 0,
            piece,
            failing: FailingCalls::new(failing),
            last: NotedRead::none(),
        }
    }

    // The bytes that no read has given yet.
    fn rest(&self) -> &[u8]
        ensures { result.now ≡ self.now.left }
    {
        &self.bytes[self.at..]
    }
}

impl Source for MemorySource {
    ghost left = { λ s. Some s.left };

    ghost last = { λ s. Some s.last };

    ghost faults = { λ s. failures s.calls };

    ghost most_faults = { λ s. Some (length s.calls.numbers) };

    fn read(&mut self, buf: &mut [u8]) -> Result<usize, Failed>
        requires { 0 < length buf.old }
        ensures called { self.new.calls ≡ after_call self.old.calls }
        ensures fails { IsErr result ↔ IsTrue (fails_next self.old.calls) }
        ensures count { IfOk result (λ n. n ≡ min (min self.old.piece (length buf.old)) (length self.old.left)) }
        ensures piece { self.new.piece ≡ self.old.piece }
        ensures bound { IfOk result (λ n. n ≤ length buf.new) }
        ensures bytes { ReadTakes (Some self.old.left) (Some self.new.left) result buf.new }
        ensures last { Some self.new.last ≡ after_read (length buf.old) (given_by result) (Some self.old.last) }
        ensures later { failures self.old.calls ≤ failures self.new.calls }
        ensures quiet { OnOk result (failures self.new.calls ≡ failures self.old.calls) }
        ensures cause { OnErr result (Rose (failures self.old.calls) (failures self.new.calls)) }
        ensures most { Some (length self.new.calls.numbers) ≡ Some (length self.old.calls.numbers) }
    {
        if self.failing.next_fails() {
            self.last.note(buf.len(), 0);
            return Err(Failed);
        }
        let left = self.rest();
        let count = self.piece.min(buf.len()).min(left.len());
        buf[..count].copy_from_slice(&left[..count]);
        self.at += count;
        self.last.note(buf.len(), count);
        Ok(count)
    }

    ghost within_most = { λ s. count_by-le-length (λ k. nat_le k s.calls.calls) s.calls.numbers };
}

/// A sink that keeps its bytes in memory.
#[derive(Drop)]
pub struct MemorySink {
    bytes: Vec<u8>,
    piece: usize,
    failing: FailingCalls,
}

impl Model for MemorySink {
    ghost use Rattle.std.specs.Prelude.{◌≤◌};
    ghost use Rattle.wq_io.specs.Memory.{Writes};

    ghost Value = { Writes };

    ghost view = { λ a. record { held = a.bytes.items; piece = a.piece; calls = a.failing } };

    ghost invariant = { λ a. 1 ≤ a.piece };
}

impl MemorySink {
    /// Takes at most `piece` bytes a call; the calls whose numbers, from 1, are in `failing` fail.
    pub fn new(alloc: Global, piece: usize, failing: List<u64>) -> MemorySink
        requires { 1 ≤ piece }
        ensures { result ≡ record {
          held = [];
          piece = piece;
          calls = record { numbers = failing; calls = 0 };
        } }
    {
        MemorySink {
            bytes: Vec::new(alloc),
            piece,
            failing: FailingCalls::new(failing),
        }
    }

    /// The bytes that were taken, in order.
    pub fn bytes(&self) -> &[u8]
        ensures { result.now ≡ self.now.held }
    {
        self.bytes.as_slice()
    }
}

impl Sink for MemorySink {
    ghost held = { λ s. Some s.held };

    ghost waits = { λ _. false };

    ghost faults = { λ s. failures s.calls };

    ghost most_faults = { λ s. Some (length s.calls.numbers) };

    fn write(&mut self, bytes: &[u8]) -> Result<usize, NoWrite>
        requires { 0 < length bytes.now }
        ensures called { self.new.calls ≡ after_call self.old.calls }
        ensures fails { (result ≡ Err NoWrite.Failed) ↔ IsTrue (fails_next self.old.calls) }
        ensures count { IfOk result (λ n. n ≡ min self.old.piece (length bytes.now)) }
        ensures piece { self.new.piece ≡ self.old.piece }
        ensures bound { IfOk result (λ n. (0 < n) × (n ≤ length bytes.now)) }
        ensures bytes { WritePuts (Some self.old.held) (Some self.new.held) result bytes.now }
        ensures later { failures self.old.calls ≤ failures self.new.calls }
        ensures quiet { OnOk result (failures self.new.calls ≡ failures self.old.calls) }
        ensures refused { IfErr result (λ e. e ≡ NoWrite.OutOfMemory → failures self.new.calls ≡ failures self.old.calls) }
        ensures cause { IfErr result (λ e. e ≡ NoWrite.Failed → Rose (failures self.old.calls) (failures self.new.calls)) }
        ensures most { Some (length self.new.calls.numbers) ≡ Some (length self.old.calls.numbers) }
    {
        if self.failing.next_fails() {
            return Err(NoWrite::Failed);
        }
        let count = self.piece.min(bytes.len());
        match self.bytes.extend_from_slice(&bytes[..count]) {
            Ok(()) => Ok(count),
            Err(_) => Err(NoWrite::OutOfMemory),
        }
    }

    fn flush(&mut self) -> Result<(), NoWrite>
        ensures done { result ≡ Ok tt }
        ensures same { self.new ≡ self.old }
    {
        Ok(())
    }

    ghost told_at_once = { λ _. refl };

    ghost within_most = { λ s. count_by-le-length (λ k. nat_le k s.calls.calls) s.calls.numbers };
}
