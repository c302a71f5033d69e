//! The part of a line that is held.
ghost use Rattle.std.specs.Prelude.{◌≡◌, ◌+◌, ◌<◌, ◌≤◌, ◌++◌, [], length, IfOk, OnOk, OnErr, IsErrOf};
ghost use Rattle.btr_io.specs.declared.reading.ReadAllFault.TheVariants.{Fault, TooLong};
ghost use Rattle.btr_lines.specs.Held.{ExceedsLimit, Takes};

use crate::Lines;
use btr_io::ReadAllFault;
use memchr::memchr;

impl Lines {
    /// Moves the bytes that are held to the end of `line`, up to the next line feed, which is dropped. Returns whether there was one.
    /// An `Err` changes nothing.
    pub(crate) fn take_held(&mut self, limit: u64, line: &mut Vec<u8>) -> Result<bool, ReadAllFault>
        requires within { length line.old.items ≤ limit }
        ensures takes { IfOk result (λ ended. Takes ended line.old.items self.old line.new.items self.new) }
        ensures within { OnOk result (length line.new.items ≤ limit) }
        ensures too_long { IsErrOf result TooLong → ExceedsLimit limit line.old.items self.old }
        ensures unchanged { OnErr result ((self.new ≡ self.old) × (line.new.items ≡ line.old.items)) }
        ensures no_fault { IsErrOf result Fault → ⊥ }
    {
        let held = &self.buffer[self.start..self.end];
        match memchr(b'\n', held) {
            Some(n) => {
                append(line, &held[..n], limit)?;
                self.start += n + 1;
                Ok(true)
            }
            None => {
                append(line, held, limit)?;
                self.start = self.end;
                Ok(false)
            }
        }
    }
}

/// Appends a part to a line, unless the line then has more bytes than the limit. An `Err` changes nothing.
fn append(line: &mut Vec<u8>, part: &[u8], limit: u64) -> Result<(), ReadAllFault>
    requires within { length line.old.items ≤ limit }
    ensures line { OnOk result (line.new.items ≡ line.old.items ++ part.now) }
    ensures within { OnOk result (length line.new.items ≤ limit) }
    ensures too_long { IsErrOf result TooLong → limit < length line.old.items + length part.now }
    ensures unchanged { OnErr result (line.new.items ≡ line.old.items) }
    ensures no_fault { IsErrOf result Fault → ⊥ }
{
    if part.len() as u64 > limit - line.len() as u64 {
        return Err(ReadAllFault::TooLong);
    }
    line.extend_from_slice(part)?;
    Ok(())
}
