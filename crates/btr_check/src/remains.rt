//! What a check leaves beside its device.

use crate::checker::Checker;
use btr_open::WholeLog;

/// What a check leaves beside its device: the trees that were made of the entries, and those that were made of the pages. To drop it frees
/// their memory, node by node, in time linear in the nodes of all versions. A program that ends may forget it instead, by
/// `std::mem::forget`: then the memory is the system's to free.
#[derive(Drop)]
pub struct CheckRemains {
    pub(crate) checker: Checker,
    pub(crate) whole: WholeLog,
}
