//! A source and a sink in memory, which fail at chosen calls.

ghost use Rattle.std.specs.Prelude.{◌≡◌, [], IfOk};

use crate::streams::{Failed, Sink, Source};
use std::alloc::{AllocError, Global};
use std::marker::Model;

/// A source of bytes in memory.
#[derive(Drop)]
pub struct MemSource {
    bytes: Vec<u8>,
    at: usize,
    fails: Vec<u32>,
    calls: u32,
    faults: u64,
}

impl Model for MemSource {
    ghost use Rattle.std.specs.Prelude.{◌≤◌, drop, vec_len};
    ghost use Rattle.hog_outside.specs.Streams.{Left};

    ghost Value = { Left };

    ghost view = { λ s. record {
      bytes = drop s.at s.bytes.items;
      fails = s.fails.items;
      calls = s.calls;
      faults = s.faults;
    } };

    ghost invariant = { λ s. s.at ≤ vec_len s.bytes };
}

impl MemSource {
    /// `fails` lists the reads that are to fail, counted from 1. Takes no memory.
    pub fn new(bytes: Vec<u8>, fails: Vec<u32>) -> MemSource
        ensures { result ≡ record { bytes = bytes.items; fails = fails.items; calls = 0; faults = 0 } }
    {
        MemSource {
            bytes,
            at: 0,
            fails,
            calls: 0,
            faults: 0,
        }
    }
}

impl Source for MemSource {
    ghost use Rattle.std.specs.Prelude.{◌≡◌, ◌≤◌, ◌↔◌, ℕ, List, Option, Some, [], length, take, drop, min, IsErr, IfOk, OnOk, OnErr};
    ghost use Rattle.hog_outside.specs.Faults.{Rose, next_call, next_fault};
    ghost use Rattle.hog_outside.specs.Streams.{Left, IsChosen};

    ghost faults = { λ s. s.faults };

    ghost left = { λ s. Some s.bytes };

    fn read(&mut self, buf: &mut [u8]) -> Result<usize, Failed>
        ensures failed { OnErr result (Rose self.old.faults self.new.faults) }
        ensures count { self.old.faults ≤ self.new.faults }

        // It gives as many bytes as there are and as the buffer holds, and fails at the calls of its list alone.
        ensures all { IfOk result (λ n. n ≡ min (length buf.old) (length self.old.bytes)) }
        ensures bytes { IfOk result (λ n. take n buf.new ≡ take n self.old.bytes) }
        ensures rest { IfOk result (λ n. self.new.bytes ≡ drop n self.old.bytes) }
        ensures unread { OnErr result (self.new.bytes ≡ self.old.bytes) }
        ensures chosen { IsErr result ↔ IsChosen self.old.fails self.old.calls }
        ensures rises { OnErr result (self.new.faults ≡ next_fault self.old.faults) }
        ensures still { OnOk result (self.new.faults ≡ self.old.faults) }
        ensures calls { self.new.calls ≡ next_call self.old.calls }
        ensures fails { self.new.fails ≡ self.old.fails }
    {
        self.calls = self.calls.saturating_add(1);
        if self.fails.contains(&self.calls) {
            self.faults = self.faults.saturating_add(1);
            return Err(Failed);
        }
        let n = buf.len().min(self.bytes.len() - self.at);
        buf[..n].copy_from_slice(&self.bytes[self.at..self.at + n]);
        self.at += n;
        Ok(n)
    }
}

/// A sink in memory. Its room is taken when it is made, and a write of a piece that isn't empty into a
/// full one is a fault.
#[derive(Drop)]
pub struct MemSink {
    bytes: Vec<u8>,
    room: usize,
    fails: Vec<u32>,
    calls: u32,
    faults: u64,
}

impl Model for MemSink {
    ghost use Rattle.std.specs.Prelude.{◌+◌, ◌≤◌, vec_len, vec_capacity};
    ghost use Rattle.hog_outside.specs.Streams.{Taken};

    ghost Value = { Taken };

    ghost view = { λ s. record {
      bytes = s.bytes.items;
      room = s.room;
      fails = s.fails.items;
      calls = s.calls;
      faults = s.faults;
    } };

    ghost invariant = { λ s. vec_len s.bytes + s.room ≤ vec_capacity s.bytes };
}

impl MemSink {
    /// `room` is in bytes; `fails` lists the writes that are to fail, counted from 1.
    pub fn new(alloc: Global, room: usize, fails: Vec<u32>) -> Result<MemSink, AllocError>
        ensures { IfOk result (λ s. s ≡ record { bytes = []; room = room; fails = fails.items; calls = 0; faults = 0 }) }
    {
        Ok(MemSink {
            bytes: Vec::with_capacity(alloc, room)?,
            room,
            fails,
            calls: 0,
            faults: 0,
        })
    }

    /// The bytes that it took. Takes no memory.
    pub fn bytes(&self) -> &[u8]
        ensures { result.now ≡ self.now.bytes }
    {
        self.bytes.as_slice()
    }
}

impl Sink for MemSink {
    ghost use Rattle.std.specs.Prelude.{◌≡◌, ◌≤◌, ◌-◌, ◌↔◌, ◌⊎◌, ◌++◌, ℕ, List, Option, Some, length, take, min, IsErr, IfOk, OnOk, OnErr};
    ghost use Rattle.hog_outside.specs.Faults.{Rose, next_call, next_fault};
    ghost use Rattle.hog_outside.specs.Streams.{Taken, IsChosen, IsOverfull};

    ghost faults = { λ s. s.faults };

    ghost taken = { λ s. Some s.bytes };

    fn write(&mut self, piece: &[u8]) -> Result<usize, Failed>
        ensures failed { OnErr result (Rose self.old.faults self.new.faults) }
        ensures count { self.old.faults ≤ self.new.faults }

        // It takes as much of the piece as it has room for, and fails at the calls of its list and where it is full alone.
        ensures all { IfOk result (λ n. n ≡ min (length piece.now) self.old.room) }
        ensures bytes { IfOk result (λ n. self.new.bytes ≡ self.old.bytes ++ take n piece.now) }
        ensures room { IfOk result (λ n. self.new.room ≡ self.old.room - n) }
        ensures unwritten { OnErr result (self.new.bytes ≡ self.old.bytes) }
        ensures chosen { IsErr result ↔ (IsChosen self.old.fails self.old.calls ⊎ IsOverfull self.old.room piece.now) }
        ensures rises { OnErr result (self.new.faults ≡ next_fault self.old.faults) }
        ensures still { OnOk result (self.new.faults ≡ self.old.faults) }
        ensures calls { self.new.calls ≡ next_call self.old.calls }
        ensures fails { self.new.fails ≡ self.old.fails }
        ensures same_room { OnErr result (self.new.room ≡ self.old.room) }
    {
        self.calls = self.calls.saturating_add(1);
        if self.fails.contains(&self.calls) {
            self.faults = self.faults.saturating_add(1);
            return Err(Failed);
        }
        if self.room == 0 && !piece.is_empty() {
            self.faults = self.faults.saturating_add(1);
            return Err(Failed);
        }
        let n = piece.len().min(self.room);
        if self.bytes.extend_from_slice(&piece[..n]).is_err() {
            unreachable!();
        }
        self.room -= n;
        Ok(n)
    }
}
