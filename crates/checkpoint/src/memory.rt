// Snapshots that are kept in memory, with calls that are to fail.

ghost use Rattle.std.specs.Prelude.{◌≡◌, Some, [], length, nat_le};
ghost use Rattle.std.proofs.lemmas.List.Sums.{count_by-le-length};
ghost use Rattle.wq_io.specs.Failing.{failures};

use crate::snapshots::Snapshots;
use base::List;
use std::alloc::Global;
use std::marker::Model;
use std::mem;
use text_output::Unwritten;
use wq_io::FailingCalls;

/// Keeps snapshots in memory.
#[derive(Drop)]
pub struct MemorySnapshots {
    alloc: Global,
    kept: List<List<u8>>,
    written: Vec<u8>,
    failing: FailingCalls,
}

impl Model for MemorySnapshots {
    ghost use Rattle.checkpoint.specs.Keeping.{InMemory};

    ghost Value = { InMemory };

    ghost view = { λ a. record { kept = a.kept; written = a.written.items; calls = a.failing } };
}

impl MemorySnapshots {
    /// Nothing is kept yet. The calls of `begin`, `write` and `keep` are counted together, from 1; those whose numbers are in `failing`
    /// fail.
    pub fn new(alloc: Global, failing: List<u64>) -> MemorySnapshots
        ensures { result ≡ record { kept = []; written = []; calls = record { numbers = failing; calls = 0 } } }
    {
        MemorySnapshots {
            alloc,
            kept: List::new(alloc),
            written: Vec::new(alloc),
            failing: FailingCalls::new(failing),
        }
    }

    /// The snapshots that were kept, in their order.
    pub fn kept(&self) -> &[List<u8>]
        ensures { result.now ≡ self.now.kept }
    {
        self.kept.as_slice()
    }
}

impl Snapshots for MemorySnapshots {
    ghost kept = { λ s. Some s.kept };

    ghost written = { λ s. Some s.written };

    ghost faults = { λ s. failures s.calls };

    ghost most_faults = { λ s. Some (length s.calls.numbers) };

    fn begin(&mut self) -> Result<(), Unwritten> {
        if self.failing.next_fails() {
            return Err(Unwritten::WriteFault);
        }
        self.written.clear();
        Ok(())
    }

    fn write(&mut self, bytes: &[u8]) -> Result<(), Unwritten> {
        if self.failing.next_fails() {
            return Err(Unwritten::WriteFault);
        }
        match self.written.extend_from_slice(bytes) {
            Ok(()) => Ok(()),
            Err(_) => Err(Unwritten::OutOfMemory),
        }
    }

    fn keep(&mut self) -> Result<(), Unwritten> {
        if self.failing.next_fails() {
            return Err(Unwritten::WriteFault);
        }
        let written = mem::replace(&mut self.written, Vec::new(self.alloc));
        match self.kept.push(List::from_vec(written)) {
            Ok(()) => Ok(()),
            Err(_) => Err(Unwritten::OutOfMemory),
        }
    }

    fn discard(&mut self) {
        self.written.clear();
    }

    ghost within_most = { λ s. count_by-le-length (λ k. nat_le k s.calls.calls) s.calls.numbers };
}
