//! Where bytes go.
ghost use Rattle.std.specs.Prelude.{◌≡◌, ◌<◌, ◌≤◌, ◌++◌, List, ℕ, length, take, IfOk, OnOk, OnErr};
ghost use Rattle.btr_io.specs.Faults.{HasCause};

use crate::Failed;

/// A stream of bytes that is written once, from its start to its end.
///
/// The clauses on bytes hold for a type that is observable. One that is not, such as standard output, promises the number
/// of bytes and the cause of a failure alone.
pub trait Sink {
    /// Is what was written to a sink of this type observable?
    ghost is_observable: { Type 0 };

    /// The bytes that were written.
    ghost written: { Self → List ℕ };

    /// Those of them that were passed on to whoever reads them. A sink may hold the others back.
    ghost passed_on: { Self → List ℕ };

    /// The number of its calls that failed.
    ghost faults: { Self → ℕ };

    /// Appends a prefix of these bytes to those that were written, and returns its length: at least one if there is a byte.
    ///
    /// A sink that takes none of some bytes has failed. After an `Err` nothing was written. Takes no memory.
    fn write(&mut self, bytes: &[u8]) -> Result<usize, Failed>
        ensures bound { IfOk result (λ n. n ≤ length bytes.now) }
        ensures takes { IfOk result (λ n. 0 < length bytes.now → 0 < n) }
        ensures written { is_observable → IfOk result (λ n. written self.new ≡ written self.old ++ take n bytes.now) }
        ensures unchanged { is_observable → OnErr result (written self.new ≡ written self.old) }
        ensures cause { HasCause (faults self.old) (faults self.new) result };

    /// Passes on all that was written, if the sink holds any of it back. Takes no memory.
    fn flush(&mut self) -> Result<(), Failed>
        ensures unchanged { is_observable → written self.new ≡ written self.old }
        ensures passed { is_observable → OnOk result (passed_on self.new ≡ written self.new) }
        ensures cause { HasCause (faults self.old) (faults self.new) result };
}
