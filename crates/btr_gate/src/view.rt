//! What a pass knows. No value of these types is made.
use std::collections::LinkedList;

/// What a pass is doing.
pub enum Stage<E> {
    /// The first pass before the state is at the gate: its slot is empty.
    Unopened,
    /// The first pass while it puts the state into the slot.
    Placing,
    /// No ticket and no turn.
    Idle,
    /// It has this ticket, and waits for its turn.
    Waiting(u64),
    /// It has the turn of this ticket: the list of entries, and whether the state has lent its part.
    InTurn(u64, LinkedList<E>, bool),
    /// It has met another pass: what each had seen.
    Met(LinkedList<E>, LinkedList<E>),
}

/// What a pass knows.
pub struct View<E, X> {
    /// The entries that it has seen, from the first one on.
    pub seen: LinkedList<E>,
    /// The numbers of its own entries, in rising order.
    pub mine: LinkedList<u64>,
    /// Its share: binary words. The shares of all passes together cover.
    pub share: LinkedList<LinkedList<bool>>,
    /// The gate's setting, or `None` if the pass is spent.
    pub setting: Option<X>,
    /// The number of entries when the gate was made.
    pub start: u64,
    /// The number of turns that it has had.
    pub turns: u64,
    /// It carries the part that the state has lent.
    pub carries: bool,
    /// What it is doing.
    pub stage: Stage<E>,
}
