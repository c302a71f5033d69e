//! What holds of all runs of scripts: each function has a law as its contract, and does nothing.
ghost use Rattle.btr_live.specs.Live.{LastIsCurrent, RunsAreOneHistory};
ghost use Rattle.btr_live.specs.OneLane.{OneLaneIsTheModel, OneSessionIsTheModel};
ghost use Rattle.btr_live.specs.ScriptLaws.{LinesKeepLegal, RefreshesAreCurrent};

/// A script that ran alone, from the beginning of its hall, makes one history with all that its lanes and rounds added.
pub fn runs_are_one_history()
    ensures { RunsAreOneHistory }
{}

/// After a last round of a script that ran alone, if no device failed, each output that the round did not refuse is up to date, and it
/// refused none because another version came first.
pub fn last_is_current()
    ensures { LastIsCurrent }
{}

/// A script in one lane that ran alone, without rounds beside it, has the model's replies, one line after another.
pub fn one_lane_is_the_model()
    ensures { OneLaneIsTheModel }
{}

/// Lines that ran one after another in one session, with nobody beside it, have the model's replies.
pub fn one_session_is_the_model()
    ensures { OneSessionIsTheModel }
{}

/// Lines that run one by one keep a history legal, whatever is replied to them: a script makes a legal history of a legal one, also if
/// the device is full or fails.
pub fn lines_keep_legal()
    ensures { LinesKeepLegal }
{}

/// A refresh that is done leaves its output at the latest versions of its inputs, and replies the output's version.
pub fn refreshes_are_current()
    ensures { RefreshesAreCurrent }
{}
