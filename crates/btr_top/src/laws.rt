//! The laws of a run, as the contracts of functions that do nothing.
ghost use Rattle.btr_top.specs.Laws.{RunLimits};
ghost use Rattle.btr_top.specs.Room.{ScriptFits};

/// The limits of a run, as numerals.
pub fn run_limits_are_these()
    ensures { RunLimits }
{}

/// A script without rounds whose lines bring no output up to date has room for all histories that serve it, if the store has the most
/// blocks that all its lines need: 2 for a line that makes a stream or removes points, and for an `insert` or a `feed` those of a commit of
/// its points.
pub fn script_fits()
    ensures { ScriptFits }
{}
