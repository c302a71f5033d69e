ghost use Rattle.std.specs.Prelude.{◌≡◌};
ghost use Rattle.btr_hist.specs.declared.entry.Entry.{Entry};
ghost use Rattle.btr_entry.specs.Grammar.{IsSpelled, spelling};

/// No two entries have the same spelling. So [`decode`](crate::decode) turns what [`encode`](crate::encode) returns into
/// the same entry again.
pub fn one_spelling()
    ensures { (e f : Entry) → IsSpelled e → IsSpelled f → spelling e ≡ spelling f → e ≡ f }
{}
