//! Theorems on the definitions. Each is the contract of a function with an empty body.
ghost use Rattle.btr_check.specs.Laws.{LegalLogStands, OneVerdictHolds};

/// A device whose log is legal, whose superblock names a start of the log, and whose roots all lead to the trees of their versions
/// holds a legal history: that of the entries that were seen.
pub fn legal_log_stands()
    ensures { LegalLogStands }
{}

/// At most one verdict is right of a device, whatever its bytes are.
pub fn one_verdict_holds()
    ensures { OneVerdictHolds }
{}
