//! What the definitions entail. Each law is a function with an empty body, and its contract is the law.
ghost use Rattle.std.specs.Prelude.{◌≡◌, ℤ};
ghost use Rattle.btr_base.specs.Range.{IsCut, covered};
ghost use Rattle.btr_base.specs.Laws.{TimeLimits, CountLimits, TreeLimits};

use crate::range::Range;

/// Two lists of ranges, as [`crate::Ranges`] holds them, that cover the same times are the same list. So the contract
/// of [`crate::Ranges::add`], which speaks of times alone, fixes the list.
pub fn one_list_for_the_times(a: &[Range], b: &[Range])
    requires a_cut { IsCut a.now }
    requires b_cut { IsCut b.now }
    requires times { (t : ℤ) → covered a.now t ≡ covered b.now t }
    ensures { a.now ≡ b.now }
{}

/// The limits as numerals.
pub fn limits_are_these()
    ensures times { TimeLimits }
    ensures counts { CountLimits }
    ensures tree { TreeLimits }
{}
