//! What a pass has in its turn.

/// The state, and the entry that the turn adds. The pass that has it must hand it back by `Gate::leave`.
pub struct Turn<T, E> {
    /// The shared state.
    pub state: T,
    /// The entry that this turn adds to the list, if any. `Gate::enter` returns it as `None`.
    pub added: Option<E>,
}
