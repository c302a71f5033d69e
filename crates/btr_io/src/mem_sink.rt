//! A sink in memory.
ghost use Rattle.std.specs.Prelude.{◌≡◌, ◌⊎◌, ◌+◌, ◌-◌, ◌^◌, ◌<◌, ◌++◌, ◌↔◌, [], length, take, min, IfOk, OnErr, IsErr, Contains};
ghost use Rattle.btr_io.specs.Faults.{HasCause};
ghost use Rattle.btr_io.specs.Memory.{KeepsSettings};

use crate::calls::Calls;
use crate::{Failed, Sink};
use std::alloc::{AllocError, Global};
use std::marker::Model;

/// A sink that keeps what is written to it, up to a number of bytes, takes a few bytes a call, and fails at the calls of a
/// list.
#[derive(Drop)]
pub struct MemSink {
    bytes: Vec<u8>,
    room: usize,
    piece: usize,
    calls: Calls,
}

impl Model for MemSink {
    ghost use Rattle.std.specs.Prelude.{◌<◌, ◌≤◌, vec_len, vec_capacity};
    ghost use Rattle.btr_io.specs.Memory.{SinkRecord};

    ghost Value = { SinkRecord };

    ghost view = { λ s. record { written = s.bytes.items; room = s.room; piece = s.piece; calls = s.calls } };

    ghost invariant = { λ s. (vec_len s.bytes ≤ s.room) × (s.room ≤ vec_capacity s.bytes) × (0 < s.piece) };
}

impl MemSink {
    /// An empty sink, which takes the memory for `room` bytes here and none later. It takes at most `piece` bytes a call, at
    /// least one. It fails at the calls with these numbers, counted from 0 with each flush, at a call that would pass the
    /// room, and at no other.
    pub fn new(
        alloc: Global,
        room: usize,
        piece: usize,
        failing: Vec<u64>,
    ) -> Result<MemSink, AllocError>
        requires { 0 < piece }
        ensures observable { ⟦<MemSink as Sink>⟧.is_observable }
        ensures written { IfOk result (λ sink. sink.written ≡ []) }
        ensures room { IfOk result (λ sink. sink.room ≡ room) }
        ensures piece { IfOk result (λ sink. sink.piece ≡ piece) }
        ensures failing { IfOk result (λ sink. sink.calls.failing ≡ failing.items) }
        ensures made { IfOk result (λ sink. sink.calls.made ≡ 0) }
        ensures faults { IfOk result (λ sink. sink.calls.faults ≡ 0) }
    {
        let bytes = Vec::with_capacity(alloc, room)?;
        Ok(MemSink {
            bytes,
            room,
            piece,
            calls: Calls::new(failing),
        })
    }

    /// The bytes that were written.
    pub fn written(&self) -> &[u8]
        ensures { result.now ≡ self.now.written }
    {
        &self.bytes
    }
}

impl Sink for MemSink {
    ghost is_observable = { Unit {0} };

    ghost written = { λ s. s.written };

    ghost passed_on = { λ s. s.written };

    ghost faults = { λ s. s.calls.faults };

    fn write(&mut self, bytes: &[u8]) -> Result<usize, Failed>
        ensures fails { IsErr result ↔ (Contains self.old.calls.failing self.old.calls.made
            ⊎ (self.old.room < length self.old.written + min (length bytes.now) self.old.piece)) }
        ensures amount { IfOk result (λ n. n ≡ min (length bytes.now) self.old.piece) }
        ensures takes { IfOk result (λ n. 0 < length bytes.now → 0 < n) }
        ensures written { IfOk result (λ n. self.new.written ≡ self.old.written ++ take n bytes.now) }
        ensures unchanged { OnErr result (self.new.written ≡ self.old.written) }
        ensures settings { KeepsSettings self.old self.new }
        ensures made { self.new.calls.made ≡ min (self.old.calls.made + 1) (2 ^ 64 - 1) }
        ensures cause { HasCause self.old.calls.faults self.new.calls.faults result }
    {
        self.calls.begin()?;
        let n = bytes.len().min(self.piece);
        if self.room - self.bytes.len() < n {
            return Err(self.calls.fail());
        }
        self.bytes.extend_from_slice(&bytes[..n]).unwrap();
        Ok(n)
    }

    fn flush(&mut self) -> Result<(), Failed>
        ensures fails { IsErr result ↔ Contains self.old.calls.failing self.old.calls.made }
        ensures unchanged { self.new.written ≡ self.old.written }
        ensures settings { KeepsSettings self.old self.new }
        ensures made { self.new.calls.made ≡ min (self.old.calls.made + 1) (2 ^ 64 - 1) }
        ensures cause { HasCause self.old.calls.faults self.new.calls.faults result }
    {
        // Nothing is held back, so a flush does nothing but count as a call.
        self.calls.begin()
    }
}
