//! What an engine leaves beside its device.

use btr_streams::Board;

/// What an engine leaves beside its device: its history in memory. To drop it frees that memory, node by node, in time linear in the
/// nodes of all versions. A program that ends may forget it instead, by `std::mem::forget`: then the memory is the system's to free.
#[derive(Drop)]
pub struct Remains {
    pub(crate) board: Board,
}
