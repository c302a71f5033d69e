//! What holds of all inputs: the function has laws as its contract, and does nothing.
ghost use Rattle.std.specs.Prelude.{ℕ, List};
ghost use Rattle.btr_serve.specs.Laws.{RepliesAreTheSame, SaysAsScript};

/// A served input says what it says to `live`, if no line of it names a lane; and lines that run alone on stores in the same state have
/// the same replies, if memory does not run out and no device fails. So `serve` and `live` give the same replies to the same lines.
pub fn serving_is_live()
    ensures input { (input : List ℕ) → SaysAsScript input }
    ensures replies { RepliesAreTheSame }
{}
