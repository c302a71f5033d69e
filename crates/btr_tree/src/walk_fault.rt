//! Why a walk stops that takes memory for its answer.
use std::alloc::AllocError;

/// Why a walk stops that takes memory for its answer. `F` is what its source refuses with.
#[derive(Drop)]
pub enum WalkFault<F> {
    /// Out of memory.
    Want,

    /// The source refused a visit.
    Refused(F),
}

impl<F> From<AllocError> for WalkFault<F> {
    ghost use Rattle.std.specs.Prelude.{◌≡◌};
    ghost use Rattle.btr_tree.specs.declared.walk_fault.WalkFault.TheVariants.{Want};

    ghost from_gives = { λ _ e. e ≡ Want };

    fn from(_error: AllocError) -> WalkFault<F> {
        WalkFault::Want
    }
}
