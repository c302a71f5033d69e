//! What holds of all frames, and of every leader and follower. Each law is a function whose contract is the law. Its
//! body is empty, or calls the law from which it follows.
ghost use Rattle.btr_follow.specs.Laws.{HaveOneReading, AreReadBack};
ghost use Rattle.btr_follow.specs.Followed.{AlwaysFollows, NeverForgets, DeliversAreHeard};

use btr_hist::the_machine_stays_legal;

/// Bytes begin with the same whole frames, however they are found, and the same bytes follow.
pub fn one_reading()
    ensures { HaveOneReading }
{}

/// Frames that were written one after another are read back, and no byte is left. So is what [`append_frame`](crate::append_frame)
/// appends to nothing.
pub fn frames_are_read_back()
    ensures { AreReadBack }
{}

/// Whatever happens to a leader and its follower, the history of the follower is a prefix of the leader's. So it is legal, and each
/// version of each output is right. It has no fewer entries than the follower has acknowledged.
pub fn a_follower_always_follows()
    ensures { AlwaysFollows }
{
    the_machine_stays_legal();
}

/// The number of entries that a follower has acknowledged never falls, whatever happens.
pub fn a_follower_never_forgets()
    ensures { NeverForgets }
{}

/// What a follower answers to a frame of its leader is the delivery of it: it is stale, early or taken, and never garbled or foreign. The
/// history is then that of the delivery.
pub fn deliveries_are_heard()
    ensures { DeliversAreHeard }
{
    the_machine_stays_legal();
}
