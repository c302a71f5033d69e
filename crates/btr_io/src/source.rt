//! Where bytes come from.
ghost use Rattle.std.specs.Prelude.{◌≡◌, ◌<◌, ◌≤◌, ◌++◌, [], List, ℕ, length, take, IfOk, OnErr};
ghost use Rattle.btr_io.specs.Faults.{CountedTimes, HasCause};

use crate::Failed;

/// A stream of bytes that is read once, from its start to its end.
///
/// The clauses on bytes hold for a type that is observable. One that is not, such as standard input, promises the number of
/// bytes and the cause of a failure alone.
pub trait Source {
    /// Is what a source of this type has left observable?
    ghost is_observable: { Type 0 };

    /// The bytes that are left.
    ghost left: { Self → List ℕ };

    /// The number of calls of `read`, failed ones included.
    ghost calls: { Self → ℕ };

    /// The number of its calls that failed.
    ghost faults: { Self → ℕ };

    /// Reads the next bytes into the first places of the buffer, and returns their number. It reads at least one byte if one
    /// is left and the buffer is not empty, and may read fewer than both allow. 0 for a buffer that is not empty means the
    /// end. The rest of the buffer may hold anything.
    ///
    /// After an `Err` no byte is lost. Each call is counted once, whether it succeeds or fails. Takes no memory.
    fn read(&mut self, buf: &mut [u8]) -> Result<usize, Failed>
        ensures bound { IfOk result (λ n. n ≤ length buf.old) }
        ensures given { is_observable → IfOk result (λ n. left self.old ≡ take n buf.new ++ left self.new) }
        ensures end { is_observable → IfOk result (λ n. n ≡ 0 → 0 < length buf.old → left self.old ≡ []) }
        ensures none_lost { is_observable → OnErr result (left self.new ≡ left self.old) }
        ensures calls { CountedTimes 1 (calls self.old) (calls self.new) }
        ensures cause { HasCause (faults self.old) (faults self.new) result };
}
