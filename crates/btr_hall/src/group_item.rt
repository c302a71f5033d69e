//! The items of the list of a group.
use crate::group_answers::Outcome;
use btr_feed::Feed;
use std::snapshot::Snapshot as State;

/// One item of the list of a group, for contracts alone. The list has an item for each turn that changed the group.
#[derive(Drop)]
pub enum GroupItem {
    /// Points were put into the open batch: the open batch with them. If the offer leads, the batch and the session are then out.
    Offer { filled: State<Feed>, leads: bool },

    /// The open batch and the session were taken out.
    Lead,

    /// The batch that was out has this outcome, and the session is at home.
    Settle { outcome: Outcome },
}
