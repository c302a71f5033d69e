use std::alloc::AllocError;

/// Why a commit was not applied. The tree is as it was.
#[derive(Clone, Copy)]
pub enum TreeFault {
    /// The bottom span of 4 ns that starts at `start`, in nanoseconds, would have more than 252 points. It is the first such.
    Crowded { start: i64 },

    /// The version would have `count` points, which are more than 2^32.
    TooManyPoints { count: u64 },

    /// Out of memory.
    Want,
}

impl From<AllocError> for TreeFault {
    ghost use Rattle.std.specs.Prelude.{◌≡◌};
    ghost use Rattle.btr_tree.specs.declared.fault.TreeFault.TheVariants.{Want};

    ghost from_gives = { λ _ e. e ≡ Want };

    fn from(_error: AllocError) -> TreeFault {
        TreeFault::Want
    }
}
