/// The direction in which the nearest point is sought.
#[derive(Clone, Copy, PartialEq, Eq)]
pub enum Toward {
    /// The first point at or after a time.
    Forward,

    /// The last point before a time.
    Backward,
}
