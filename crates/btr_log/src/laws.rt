//! What follows from the definitions, as the contract of a small function.
ghost use Rattle.std.specs.Prelude.{◌≡◌, ◌↔◌, IsTrue};
ghost use Rattle.btr_log.specs.Head.{head_bytes, IsHead};

use crate::Head;

/// Whether two heads are equal. They are exactly if their bytes are: a head has one spelling, and no
/// other head has it.
pub fn is_same_head(first: &Head, second: &Head) -> bool
    requires first { IsHead first.now }
    requires second { IsHead second.now }
    ensures { IsTrue result ↔ (head_bytes first.now ≡ head_bytes second.now) }
{
    first == second
}
