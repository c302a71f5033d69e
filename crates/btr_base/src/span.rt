ghost use Rattle.std.specs.Prelude.{◌≡◌, ℕ, ◌+◌, ◌-◌, ◌<◌, ◌≤◌, pos, ◌+ℤ◌, ◌≤ℤ◌, ◌<ℤ◌};
ghost use Rattle.btr_base.specs.Point.{InDomain};
ghost use Rattle.btr_base.specs.Span.{width as span_ns, IsSpan, slot_of, AreSlotsBetween};

use crate::limits::FIRST;
use std::marker::Model;

/// A part of the domain with the width of a height, `2^(6 height + 2)` ns, aligned from the first time of the domain
/// (BTrDB, FAST 2016). The span of height 10 is the whole domain, and a span of height 0 is 4 ns wide.
#[derive(Clone, Copy, PartialEq, Eq)]
pub struct Span {
    /// The first time of the span, in nanoseconds.
    pub start: i64,

    /// The height, 0 to 10.
    pub height: u8,
}

impl Model for Span {
    ghost use Rattle.btr_base.specs.Span.{SpanValue, IsSpan};

    ghost Value = { SpanValue };

    ghost view = { λ s. record { start = s.start; height = s.height } };

    ghost invariant = { λ s. IsSpan (record { start = s.start; height = s.height }) };

    ghost inverse = { λ p. record { start = p.start; height = p.height } };
}

impl Span {
    /// The span of this height that the time lies in.
    pub fn of(time: i64, height: u8) -> Span
        requires domain { InDomain time }
        requires height { height ≤ 10 }
        ensures height { result.height ≡ height }
        ensures begins { result.start ≤ℤ time }
        ensures ends { time <ℤ (result.start +ℤ pos (span_ns height)) }
    {
        let offset = time.abs_diff(FIRST);
        let width = width(height);
        Span {
            start: FIRST + (offset / width * width) as i64,
            height,
        }
    }

    /// The end of the span, the first time after it, in nanoseconds.
    pub fn end(&self) -> i64
        ensures end { result ≡ self.now.start +ℤ pos (span_ns self.now.height) }
        ensures span { IsSpan self.now }
    {
        self.start + width(self.height) as i64
    }

    /// The `i`-th of the 64 spans of the next lower height that this one consists of, from 0.
    pub fn slot(&self, i: u8) -> Span
        requires height { 1 ≤ self.now.height }
        requires place { i < 64 }
        ensures { result ≡ slot_of self.now i }
    {
        let height = self.height - 1;
        let width = width(height);
        Span {
            start: self.start + (u64::from(i) * width) as i64,
            height,
        }
    }
}

impl Span {
    /// The index, from 0, of the one of the 64 slots that contains the time.
    pub fn slot_at(&self, time: i64) -> u8
        requires height { 1 ≤ self.now.height }
        requires begins { self.now.start ≤ℤ time }
        requires ends { time <ℤ (self.now.start +ℤ pos (span_ns self.now.height)) }
        ensures place { result < 64 }
        ensures begins { (slot_of self.now result).start ≤ℤ time }
        ensures ends { time <ℤ ((slot_of self.now result).start +ℤ pos (span_ns (self.now.height - 1))) }
    {
        let offset = time.abs_diff(self.start);
        (offset / width(self.height - 1)) as u8
    }

    /// The indices of the first and of the last of the 64 slots that have times from one up to, and without, another. Some of
    /// those times lie in the span, the caller's condition.
    pub fn slots_between(&self, from: i64, to: i64) -> (u8, u8)
        requires height { 1 ≤ self.now.height }
        requires some { from <ℤ to }
        requires begins { from <ℤ (self.now.start +ℤ pos (span_ns self.now.height)) }
        requires ends { self.now.start <ℤ to }
        ensures { AreSlotsBetween self.now from to result }
    {
        (self.first_slot(from), self.last_slot(to))
    }

    /// The index of the first slot that ends after the time.
    fn first_slot(&self, from: i64) -> u8
        requires height { 1 ≤ self.now.height }
        requires begins { from <ℤ (self.now.start +ℤ pos (span_ns self.now.height)) }
        ensures place { result < 64 }
        ensures before { (i : ℕ) → i < result → ((slot_of self.now i).start +ℤ pos (span_ns (self.now.height - 1))) ≤ℤ from }
        ensures first { from <ℤ ((slot_of self.now result).start +ℤ pos (span_ns (self.now.height - 1))) }
    {
        if from <= self.start {
            return 0;
        }
        self.slot_at(from)
    }

    /// The index of the last slot that begins before the time.
    fn last_slot(&self, to: i64) -> u8
        requires height { 1 ≤ self.now.height }
        requires ends { self.now.start <ℤ to }
        ensures place { result < 64 }
        ensures last { (slot_of self.now result).start <ℤ to }
        ensures behind { (i : ℕ) → result < i → i < 64 → to ≤ℤ (slot_of self.now i).start }
    {
        if to >= self.end() {
            return 63;
        }
        self.slot_at(to - 1)
    }
}

/// The width of a span of this height, in nanoseconds.
fn width(height: u8) -> u64
    requires { height ≤ 10 }
    ensures { result ≡ span_ns height }
{
    1 << (6 * u32::from(height) + 2)
}
