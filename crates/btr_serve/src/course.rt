//! The evidence of a talk at a store.

use crate::store_desk::StoreDesk;
use btr_disk::Disk;
use btr_lines::Moments;

/// What the sink, the desk and the source of a talk were at its moments. It has no bytes.
#[derive(Drop)]
pub struct Course<S, K, D: Disk> {
    /// The sink and the desk, twice for each line: when it was done, and when its reply had been passed on.
    pub moments: Moments<K, StoreDesk<D>>,

    /// The source and the sink, right before each call of the source.
    pub asked: Moments<S, K>,
}

impl<S, K, D: Disk> Course<S, K, D> {
    /// No moment.
    pub fn new() -> Course<S, K, D> {
        Course {
            moments: Moments::new(),
            asked: Moments::new(),
        }
    }
}
