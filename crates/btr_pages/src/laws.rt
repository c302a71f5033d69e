//! Theorems on the definitions. Each is a function with an empty body whose contract is the theorem.
ghost use Rattle.btr_pages.specs.Reported.{ReportedPagesStand};

/// The pages of the nodes that a commit writes stand rightly: each keeps the table, and each of its slots that has a point has a
/// child in a lower block, whose page has the slot's span, version and count. The tree of the new version is stored in them and in
/// the pages that stood before.
pub fn reported_pages_stand()
    ensures { ReportedPagesStand }
{}
