//! The next line of a source.
ghost use Rattle.std.specs.Prelude.{◌≡◌, ◌≤◌, ◌<◌, ◌++◌, ◌↔◌, [], false, length, Contains, IfOk, OnOk, OnErr, IsErrOf, IsTrue};
ghost use Rattle.btr_io.specs.declared.reading.ReadAllFault.TheVariants.{Fault, TooLong};
ghost use Rattle.btr_io.specs.Faults.{CountedTimes, HasCause};
ghost use Rattle.btr_lines.specs.Lines.{Asks, HasNoFeed, HasReadCause, IsFirstLine, IsFirstTooLong};

use crate::moments::Moments;
use btr_io::{Failed, ReadAllFault, Source};
use std::alloc::{AllocError, Global};
use std::marker::Model;

/// The most bytes that one call of a source is asked for: 64 KiB.
const PIECE: usize = 1 << 16;

/// What was read of a source and is in no line yet: at most 64 KiB. Contracts see it as the list of these bytes.
#[derive(Drop)]
pub struct Lines {
    pub(crate) buffer: Vec<u8>,
    pub(crate) start: usize,
    pub(crate) end: usize,
}

impl Model for Lines {
    ghost use Rattle.std.specs.Prelude.{ℕ, List, ◌-◌, ◌<◌, ◌≤◌, take, drop, vec_len};

    ghost Value = { List ℕ };

    ghost view = { λ l. take (l.end - l.start) (drop l.start l.buffer.items) };

    ghost invariant = { λ l. (l.start ≤ l.end) × (l.end ≤ vec_len l.buffer) × (0 < vec_len l.buffer) };
}

impl Lines {
    /// Nothing was read yet. Takes the 64 KiB here, and none later. An `Err` means out of memory.
    pub fn new(alloc: Global) -> Result<Lines, AllocError>
        ensures { IfOk result (λ lines. lines ≡ []) }
    {
        let buffer = vec![in alloc; 0u8; PIECE]?;
        Ok(Lines {
            buffer,
            start: 0,
            end: 0,
        })
    }

    /// Reads the next line into `line`, in place of what it had, without the line feed at its end. Returns whether a line feed ended it.
    /// If the end of the input ended it, it is the last line, which may be empty.
    ///
    /// The source is asked for more only if no whole line is held. The moment before each call of the source is added to `asked`, with
    /// what `beside` is then.
    ///
    /// `TooLong` if the line has more than `limit` bytes, `Fault` if the source failed, and `Want` if memory ran out. After an error the
    /// bytes that were read for this line are in `line`, and no byte is lost. The cost is that of the source's calls, of one pass over
    /// the bytes of the line and of copying them.
    pub fn next_line<S: Source, B>(
        &mut self,
        source: &mut S,
        beside: &B,
        limit: u64,
        line: &mut Vec<u8>,
        asked: &mut Moments<S, B>,
    ) -> Result<bool, ReadAllFault>
        ensures line { S.is_observable
            → IfOk result (λ more. IsFirstLine more line.new.items (self.old ++ S.left source.old) (self.new ++ S.left source.new)) }
        ensures within { OnOk result (length line.new.items ≤ limit) }
        ensures too_long { S.is_observable → IsErrOf result TooLong → IsFirstTooLong limit (self.old ++ S.left source.old) }
        ensures none_lost { S.is_observable
            → OnErr result (self.old ++ S.left source.old ≡ line.new.items ++ self.new ++ S.left source.new) }
        ensures part { IsErrOf result Fault → HasNoFeed line.new.items × (self.new ≡ []) }
        ensures asks { Asks ⟦<S as Source>⟧ self.old source.old source.new beside.now asked.old.items asked.new.items }
        ensures not_called { Contains self.old 10 → source.new ≡ source.old }
        ensures cause { HasReadCause (S.faults source.old) (S.faults source.new) result }
    {
        line.clear();
        loop {
            if self.take_held(limit, line)? {
                return Ok(true);
            }
            *asked = asked.and(source, beside);
            if !self.refill(source)? {
                return Ok(false);
            }
        }
    }

    /// Asks the source for more, once, if nothing is held. Returns whether it gave any.
    fn refill<S: Source>(&mut self, source: &mut S) -> Result<bool, Failed>
        requires empty { self.old ≡ [] }
        ensures given { S.is_observable → OnOk result (S.left source.old ≡ self.new ++ S.left source.new) }
        ensures more { IfOk result (λ more. IsTrue more ↔ (0 < length self.new)) }
        ensures end { S.is_observable → IfOk result (λ more. more ≡ false → S.left source.old ≡ []) }
        ensures none_lost { S.is_observable → OnErr result (S.left source.new ≡ S.left source.old) }
        ensures empty { OnErr result (self.new ≡ []) }
        ensures calls { CountedTimes 1 (S.calls source.old) (S.calls source.new) }
        ensures cause { HasCause (S.faults source.old) (S.faults source.new) result }
    {
        self.start = 0;
        self.end = 0;
        self.end = source.read(&mut self.buffer)?;
        Ok(self.end > 0)
    }
}
