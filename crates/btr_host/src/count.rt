//! A count of calls or faults: it rises by one, and stays at the greatest u64.
ghost use Rattle.std.specs.Prelude.{◌≡◌, ◌+◌, ◌-◌, ◌^◌, ◌≤◌, min};

/// Adds one, unless the count is the greatest u64.
pub fn raise(count: &mut u64)
    ensures raised { count.new ≡ min (count.old + 1) (2 ^ 64 - 1) }
    ensures never_falls { count.old ≤ count.new }
{
    *count = count.saturating_add(1);
}
