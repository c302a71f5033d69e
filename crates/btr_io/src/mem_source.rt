//! A source in memory.
ghost use Rattle.std.specs.Prelude.{◌≡◌, ◌+◌, ◌-◌, ◌^◌, ◌<◌, ◌≤◌, ◌++◌, ◌↔◌, [], length, take, min, IfOk, OnErr, IsErr, Contains};
ghost use Rattle.btr_io.specs.Faults.{HasCause};

use crate::calls::Calls;
use crate::{Failed, Source};
use std::marker::Model;

/// A source that gives the bytes of a vector, a few a call, and fails at the calls of a list.
#[derive(Drop)]
pub struct MemSource {
    bytes: Vec<u8>,
    at: usize,
    piece: usize,
    calls: Calls,
}

impl Model for MemSource {
    ghost use Rattle.std.specs.Prelude.{◌<◌, ◌≤◌, drop, vec_len};
    ghost use Rattle.btr_io.specs.Memory.{SourceRecord};

    ghost Value = { SourceRecord };

    ghost view = { λ s. record { left = drop s.at s.bytes.items; piece = s.piece; calls = s.calls } };

    ghost invariant = { λ s. (s.at ≤ vec_len s.bytes) × (0 < s.piece) };
}

impl MemSource {
    /// A source with these bytes. It gives at most `piece` bytes a call, at least one. It fails at the calls with these
    /// numbers, counted from 0, and at no other. Takes no memory.
    pub fn new(bytes: Vec<u8>, piece: usize, failing: Vec<u64>) -> MemSource
        requires { 0 < piece }
        ensures observable { ⟦<MemSource as Source>⟧.is_observable }
        ensures left { result.left ≡ bytes.items }
        ensures piece { result.piece ≡ piece }
        ensures failing { result.calls.failing ≡ failing.items }
        ensures made { result.calls.made ≡ 0 }
        ensures faults { result.calls.faults ≡ 0 }
    {
        MemSource {
            bytes,
            at: 0,
            piece,
            calls: Calls::new(failing),
        }
    }
}

impl Source for MemSource {
    ghost is_observable = { Unit {0} };

    ghost left = { λ s. s.left };

    ghost calls = { λ s. s.calls.made };

    ghost faults = { λ s. s.calls.faults };

    fn read(&mut self, buf: &mut [u8]) -> Result<usize, Failed>
        ensures fails { IsErr result ↔ Contains self.old.calls.failing self.old.calls.made }
        ensures amount { IfOk result (λ n. n ≡ min (length buf.old) (min self.old.piece (length self.old.left))) }
        ensures given { IfOk result (λ n. self.old.left ≡ take n buf.new ++ self.new.left) }
        ensures end { IfOk result (λ n. n ≡ 0 → 0 < length buf.old → self.old.left ≡ []) }
        ensures none_lost { OnErr result (self.new.left ≡ self.old.left) }
        ensures settings { (self.new.piece ≡ self.old.piece) × (self.new.calls.failing ≡ self.old.calls.failing) }
        ensures made { self.new.calls.made ≡ min (self.old.calls.made + 1) (2 ^ 64 - 1) }
        ensures cause { HasCause self.old.calls.faults self.new.calls.faults result }
    {
        self.calls.begin()?;
        let left = &self.bytes[self.at..];
        let n = buf.len().min(self.piece.min(left.len()));
        copy_prefix(left, buf, n);
        self.at += n;
        Ok(n)
    }
}

/// Copies the first n bytes of a slice over those of another.
fn copy_prefix(from: &[u8], to: &mut [u8], n: usize)
    requires source { n ≤ length from.now }
    requires buffer { n ≤ length to.old }
    ensures { take n to.new ≡ take n from.now }
{
    to[..n].copy_from_slice(&from[..n]);
}
