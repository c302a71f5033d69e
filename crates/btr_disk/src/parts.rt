//! Bytes in several parts, one after the other.
ghost use Rattle.std.specs.Prelude.{◌≡◌, [], ◌++◌, length, IfOk, OnOk, OnErr};
ghost use Rattle.std.specs.List.{flat_map};

use std::alloc::{AllocError, Global};
use std::marker::Model;

/// Bytes in several parts, one after the other, each in memory of its own: what a write takes that is not in one place.
#[derive(Drop)]
pub struct Parts {
    parts: Vec<Vec<u8>>,
    /// The number of bytes of all parts.
    total: usize,
}

impl Model for Parts {
    ghost use Rattle.std.specs.Prelude.{◌≡◌, ℕ, List, length};
    ghost use Rattle.std.specs.List.{flat_map};

    ghost Value = { List ℕ };

    ghost view = { λ b. flat_map (λ p. p.items) b.parts.items };

    ghost invariant = { λ b. b.total ≡ length (flat_map (λ p. p.items) b.parts.items) };
}

impl Parts {
    /// No bytes. It takes no memory.
    pub fn none(alloc: Global) -> Parts
        ensures { result ≡ [] }
    {
        Parts {
            parts: Vec::new(alloc),
            total: 0,
        }
    }

    /// The bytes of one part. They are not copied. An `Err` means out of memory.
    pub fn of(alloc: Global, bytes: Vec<u8>) -> Result<Parts, AllocError>
        ensures { IfOk result (λ p. p ≡ bytes.items) }
    {
        let mut parts = Parts::none(alloc);
        parts.push(bytes)?;
        Ok(parts)
    }

    /// Adds a part at the end, in constant time on average. Its bytes are not copied. An `Err` means out of memory, or more bytes
    /// than an address counts, and nothing is changed.
    pub fn push(&mut self, part: Vec<u8>) -> Result<(), AllocError>
        ensures added { OnOk result (self.new ≡ self.old ++ part.items) }
        ensures err { OnErr result (self.new ≡ self.old) }
    {
        let Some(total) = self.total.checked_add(part.len()) else {
            return Err(AllocError);
        };
        self.parts.push(part)?;
        self.total = total;
        Ok(())
    }

    /// Adds the parts of another list at the end, in time linear in their number. No byte is copied. An `Err` means out of memory, or
    /// more bytes than an address counts, and nothing is changed.
    pub fn append(&mut self, other: Parts) -> Result<(), AllocError>
        ensures added { OnOk result (self.new ≡ self.old ++ other) }
        ensures err { OnErr result (self.new ≡ self.old) }
    {
        let Some(total) = self.total.checked_add(other.total) else {
            return Err(AllocError);
        };
        let Parts { mut parts, .. } = other;
        self.parts.append(&mut parts)?;
        self.total = total;
        Ok(())
    }

    /// The number of bytes, in constant time.
    pub fn len(&self) -> usize
        ensures { result ≡ length self.now }
    {
        self.total
    }

    /// The parts, in order, in constant time.
    pub fn as_slices(&self) -> &[Vec<u8>]
        ensures { flat_map (λ p. p.items) result.now ≡ self.now }
    {
        self.parts.as_slice()
    }
}
