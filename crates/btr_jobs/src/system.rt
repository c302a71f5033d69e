//! What work takes of the system.
use std::alloc::{AllocError, Global};

/// What work takes of the system: a runtime, by which it starts threads and waits, and memory.
pub struct System<'a, R> {
    /// The runtime.
    pub rt: &'a R,

    /// The allocator.
    pub alloc: Global,
}

impl<R> Clone for System<'_, R> {
    ghost use Rattle.std.specs.Prelude.{◌≡◌, ⊤};

    ghost is_clone = { λ x y. y ≡ x };

    ghost is_infallible = { λ _. ⊤ };

    fn clone(&self) -> Result<Self, AllocError> {
        Ok(*self)
    }
}

impl<R> Copy for System<'_, R> {}
