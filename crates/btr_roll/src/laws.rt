ghost use Rattle.std.specs.Prelude.{◌≡◌, ℕ, List};
ghost use Rattle.btr_roll.specs.Roll.{RollStreamValue, IsRoll, roll_bytes};

/// No two rolls have the same bytes in checkpoints of one format. So [`decode_roll`](crate::decode_roll) turns what
/// [`encode_roll`](crate::encode_roll) returns for a roll that keeps the table into the same roll again.
pub fn one_roll()
    ensures { (format : ℕ) (a b : List RollStreamValue)
        → IsRoll format a → IsRoll format b → roll_bytes format a ≡ roll_bytes format b → a ≡ b }
{}
