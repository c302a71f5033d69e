//! A list of moments. It takes no memory, and its methods do nothing at run time.
ghost use Rattle.std.specs.Prelude.{◌≡◌, List, [], ◌∷◌, ◌++◌};
ghost use Rattle.std.specs.Borrow.{ftrue};

use std::marker::{Model, PhantomData};

/// What two things were, together, at each of some moments, in the order of the moments. A clause reads them as `items`.
///
/// An item is made by [`Moments::and`] alone. It borrows both values, so neither can change in that call, and the item says what they
/// are then.
#[derive(Drop)]
pub struct Moments<A, B> {
    of: PhantomData<(A, B)>,
    pub ghost items: { List (A × B) },
}

impl<A, B> Model for Moments<A, B> {
    ghost also_owns = { λ _. ftrue };
}

// It owns nothing.
unsafe impl<A: Send, B: Send> Send for Moments<A, B> {}

impl<A, B> Moments<A, B> {
    /// No moment.
    pub fn new() -> Moments<A, B>
        ensures { result.items ≡ [] }
    {
        Moments { of: PhantomData }
    }

    /// The moments of this log, and then the moment of this call.
    pub fn and(&self, first: &A, second: &B) -> Moments<A, B>
        ensures { result.items ≡ self.now.items ++ (first.now, second.now) ∷ [] }
    {
        Moments { of: PhantomData }
    }
}
