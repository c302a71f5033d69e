//! What a gate asks of the state that it carries.
ghost use Rattle.std.specs.Prelude.{◌≡◌, ◌^◌, ◌<◌, Bool, false, List, length};

/// A state that is of a list of entries of type `E`, under a setting of type `X`. The list grows by one entry in a turn or stays.
///
/// A state may lend a part of itself: it goes on without it while one pass carries the part outside of any turn. A state that
/// never lends has `lent` and `lent_after` constantly `false`.
pub trait Chronicle<E, X> {
    // The state is of this list under this setting. No value of a setting is made.
    ghost is_state_of: { Self → List E → X → Type 0 };

    // The state has lent its part.
    ghost lent: { Self → Bool };

    // No pass but the one that carries the part adds an entry while it is lent.
    ghost frozen: { Bool };

    // A state of this list has lent its part. It is read only if the list is not frozen.
    ghost lent_after: { List E → Bool };

    /// Returns the number of entries of its list.
    fn entries(&self) -> u64
        ensures { (l : List E) (x : X) → is_state_of self.now l x → result ≡ length l };

    // A list is shorter than 2^63.
    ghost bounded: { (t : Self) (l : List E) (x : X) → is_state_of t l x → length l < 2 ^ 63 };

    // If the list is not frozen, it shows if the part is lent.
    ghost lent_is: { frozen ≡ false → (t : Self) (l : List E) (x : X) → is_state_of t l x → lent t ≡ lent_after l };
}
